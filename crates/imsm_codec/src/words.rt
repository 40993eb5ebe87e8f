//! The volume words that the first form of a container is told by, each as its definition in imsm_base.
ghost use Rattle.std.specs.Prelude.{◌≡◌, ◌+◌, ◌*◌, ◌^◌, ◌<◌, ◌≤◌, ◌&&◌, nat_le, is_none, true, false};
ghost use Rattle.std.specs.List.{list_all, list_any};
ghost use Rattle.units.specs.declared.bounds.TheConstants.{METADATA_SECTORS as METADATA};
ghost use Rattle.imsm_base.specs.Layout.{volume_count_of, member_count_of, disk_count_of};
ghost use Rattle.imsm_base.specs.Volumes.{Member, first_map, member, members, is_level_one, has_policy, has_pass, bad_slot, has_sectors, has_geometry};
ghost use Rattle.imsm_codec.specs.Mpb.{block_of, volume_at};

use crate::mpb::MpbRef;
use imsm_base::INDEX_RANGE;
use units::{MAX_VOLUME_SECTORS, METADATA_SECTORS, Slot, VolNo};

/// Whether all of these tests hold.
pub(crate) fn all_hold(tests: &[bool]) -> bool
    ensures { result ≡ list_all (λ t. t) tests.now }
{
    tests.iter().all(|holds| *holds)
}

#[tactic(auto, using(crate::proofs::Places::some_map))]
pub(crate) fn is_level_one(mpb: &MpbRef<'_>, v: VolNo) -> bool
    requires { v.0 < volume_count_of (block_of mpb.now) }
    ensures { result ≡ is_level_one (volume_at v.0 (block_of mpb.now)) }
{
    mpb.map_level(v, 0) == 1 && mpb.map_members(v, 0) == 2
}

pub(crate) fn has_policy(mpb: &MpbRef<'_>, v: VolNo) -> bool
    requires { v.0 < volume_count_of (block_of mpb.now) }
    ensures { result ≡ has_policy (volume_at v.0 (block_of mpb.now)) }
{
    let policy = mpb.vol_policy(v);
    policy == 0 || policy == 5
}

pub(crate) fn has_pass(mpb: &MpbRef<'_>, v: VolNo) -> bool
    requires { v.0 < volume_count_of (block_of mpb.now) }
    ensures { result ≡ has_pass (volume_at v.0 (block_of mpb.now)) }
{
    mpb.migr_state(v) != 0
}

/// The index of a slot's disk, by the first map.
#[tactic(auto, using(crate::proofs::Places::some_map))]
pub(crate) fn member_index(mpb: &MpbRef<'_>, v: VolNo, slot: Slot) -> u32
    requires volume { v.0 < volume_count_of (block_of mpb.now) }
    requires slot { slot.0 < member_count_of (first_map (volume_at v.0 (block_of mpb.now))) }
    ensures { result ≡ (member (volume_at v.0 (block_of mpb.now)) slot.0).index }
{
    mpb.map_ord(v, 0, slot) % INDEX_RANGE
}

/// Whether a slot is out of sync, of a volume without a pass.
#[tactic(auto, using(crate::proofs::Places::some_map))]
pub(crate) fn is_out(mpb: &MpbRef<'_>, v: VolNo, slot: Slot) -> bool
    requires volume { v.0 < volume_count_of (block_of mpb.now) }
    requires slot { slot.0 < member_count_of (first_map (volume_at v.0 (block_of mpb.now))) }
    requires idle { has_pass (volume_at v.0 (block_of mpb.now)) ≡ false }
    ensures { result ≡ (member (volume_at v.0 (block_of mpb.now)) slot.0).is_out }
{
    (mpb.map_ord(v, 0, slot) >> 24) & 1 == 1
}

/// Whether a slot of a mirror without a pass is out of sync.
pub(crate) fn is_any_out(mpb: &MpbRef<'_>, v: VolNo) -> bool
    requires volume { v.0 < volume_count_of (block_of mpb.now) }
    requires level { is_level_one (volume_at v.0 (block_of mpb.now)) ≡ true }
    requires idle { has_pass (volume_at v.0 (block_of mpb.now)) ≡ false }
    ensures { result ≡ list_any (λ m. m.is_out) (members (volume_at v.0 (block_of mpb.now))) }
{
    is_out(mpb, v, Slot(0)) || is_out(mpb, v, Slot(1))
}

/// Whether both slots of a mirror have disks of the table, and not the same.
pub(crate) fn has_good_slots(mpb: &MpbRef<'_>, v: VolNo) -> bool
    requires volume { v.0 < volume_count_of (block_of mpb.now) }
    requires level { is_level_one (volume_at v.0 (block_of mpb.now)) ≡ true }
    ensures { result ≡ is_none (bad_slot (block_of mpb.now) (volume_at v.0 (block_of mpb.now))) }
{
    let first = member_index(mpb, v, Slot(0));
    let second = member_index(mpb, v, Slot(1));
    let disks = u32::from(mpb.disks());
    first < disks && second < disks && first != second
}

/// Whether so many sectors hold rows from `pba` on, and metadata behind them.
fn has_room(blocks: u64, pba: u64, rows: u64) -> bool
    requires { rows ≤ 2 ^ 40 }
    ensures { result ≡ nat_le (pba + rows + METADATA) blocks }
{
    pba <= blocks && rows + METADATA_SECTORS <= blocks - pba
}

/// Whether the record of a member's disk has the sectors that rows from `pba` on need.
fn has_sectors(mpb: &MpbRef<'_>, index: u32, pba: u64, rows: u64) -> bool
    requires { rows ≤ 2 ^ 40 }
    ensures { (m : Member) → m.index ≡ index → result ≡ has_sectors (block_of mpb.now) (pba + rows + METADATA) m }
{
    if u32::from(mpb.disks()) <= index {
        return false;
    }
    has_room(mpb.disk_blocks(index as u8), pba, rows)
}

/// Whether a volume has some sectors, and no more than this project allows.
fn is_volume_size(rows: u64) -> bool
    ensures { result ≡ (nat_le 1 rows && nat_le rows (2 ^ 40)) }
{
    1 <= rows && rows <= MAX_VOLUME_SECTORS
}

/// Whether a mirror without a pass has a size in its bounds, and room for its rows on each member.
#[tactic(auto, using(crate::proofs::Places::some_map))]
pub(crate) fn has_geometry(mpb: &MpbRef<'_>, v: VolNo) -> bool
    requires volume { v.0 < volume_count_of (block_of mpb.now) }
    requires level { is_level_one (volume_at v.0 (block_of mpb.now)) ≡ true }
    requires idle { has_pass (volume_at v.0 (block_of mpb.now)) ≡ false }
    ensures { result ≡ has_geometry (block_of mpb.now) (volume_at v.0 (block_of mpb.now)) }
{
    let rows = mpb.vol_size(v);
    if !is_volume_size(rows) {
        return false;
    }
    let pba = mpb.map_pba(v, 0);
    let inside = rows <= mpb.map_blocks(v, 0);
    let first = has_sectors(mpb, member_index(mpb, v, Slot(0)), pba, rows);
    let second = has_sectors(mpb, member_index(mpb, v, Slot(1)), pba, rows);
    all_hold(&[inside, first, second])
}
