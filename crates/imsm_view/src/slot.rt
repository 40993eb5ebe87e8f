//! A volume's slots: the disks that they name, and whether these are in sync.
ghost use Rattle.std.specs.Prelude.{◌≡◌, ◌<◌, ◌≤◌, ◌==◌, ◌&&◌, ◌%◌, map, take, Some, None, MatchOption, true, false};
ghost use Rattle.std.specs.List.{list_any};
ghost use Rattle.std.specs.Int.{bit_at};
ghost use Rattle.imsm_base.specs.Layout.{volume_count_of, map_count_of, member_count_of, disk_count_of};
ghost use Rattle.imsm_base.specs.Volumes.{first_map, order_at, member, members, is_bad_slot, bad_slot, is_expected_at, has_geometry};
ghost use Rattle.imsm_codec.specs.Mpb.{block_of, volume_at, map_at};
ghost use Rattle.imsm_view.specs.Views.{slot_view};

use crate::volume::SlotView;
use arrayvec::ArrayVec;
use imsm_base::INDEX_RANGE;
use imsm_codec::MpbRef;
use units::{MAX_MEMBERS, Slot, VolNo};

/// How many slots a volume has.
#[tactic(auto, using(imsm_codec::proofs::Places::some_map))]
pub(crate) fn slot_count(mpb: &MpbRef<'_>, v: VolNo) -> u8
    requires { v.0 < volume_count_of (block_of mpb.now) }
    ensures { result ≡ member_count_of (first_map (volume_at v.0 (block_of mpb.now))) }
{
    mpb.map_members(v, 0)
}

/// The index of a slot's disk, by the first map.
#[tactic(auto, using(imsm_codec::proofs::Places::some_map))]
pub(crate) fn index_of(mpb: &MpbRef<'_>, v: VolNo, slot: Slot) -> u32
    requires volume { v.0 < volume_count_of (block_of mpb.now) }
    requires slot { slot.0 < member_count_of (first_map (volume_at v.0 (block_of mpb.now))) }
    ensures { result ≡ (member (volume_at v.0 (block_of mpb.now)) slot.0).index }
{
    mpb.map_ord(v, 0, slot) % INDEX_RANGE
}

/// The index of a slot's disk, where the disk table has it.
pub(crate) fn table_index(mpb: &MpbRef<'_>, v: VolNo, slot: Slot) -> Option<u8>
    requires volume { v.0 < volume_count_of (block_of mpb.now) }
    requires slot { slot.0 < member_count_of (first_map (volume_at v.0 (block_of mpb.now))) }
    ensures { MatchOption result
        (disk_count_of (block_of mpb.now) ≤ (member (volume_at v.0 (block_of mpb.now)) slot.0).index)
        (λ i. (i ≡ (member (volume_at v.0 (block_of mpb.now)) slot.0).index) × (i < disk_count_of (block_of mpb.now))) }
{
    let index = index_of(mpb, v, slot);
    if u32::from(mpb.disks()) <= index {
        return None;
    }
    Some(index as u8)
}

/// Whether a slot below this one has the index.
fn is_taken(mpb: &MpbRef<'_>, v: VolNo, slot: Slot, index: u32) -> bool
    requires volume { v.0 < volume_count_of (block_of mpb.now) }
    requires slot { slot.0 ≤ member_count_of (first_map (volume_at v.0 (block_of mpb.now))) }
    ensures { result ≡ list_any (λ m. m.index == index) (take slot.0 (members (volume_at v.0 (block_of mpb.now)))) }
{
    for earlier in 0..slot.0 {
        if index_of(mpb, v, Slot(earlier)) == index {
            return true;
        }
    }
    false
}

/// Whether some slot has the index.
pub(crate) fn has_index(mpb: &MpbRef<'_>, v: VolNo, index: u32) -> bool
    requires { v.0 < volume_count_of (block_of mpb.now) }
    ensures { result ≡ list_any (λ m. m.index == index) (members (volume_at v.0 (block_of mpb.now))) }
{
    is_taken(mpb, v, Slot(slot_count(mpb, v)), index)
}

/// Whether a slot's index isn't in the table, or an earlier slot has it.
fn is_bad_slot(mpb: &MpbRef<'_>, v: VolNo, slot: Slot) -> bool
    requires volume { v.0 < volume_count_of (block_of mpb.now) }
    requires slot { slot.0 < member_count_of (first_map (volume_at v.0 (block_of mpb.now))) }
    ensures { result ≡ is_bad_slot (block_of mpb.now) (members (volume_at v.0 (block_of mpb.now))) slot.0 }
{
    match table_index(mpb, v, slot) {
        Some(index) => is_taken(mpb, v, slot, u32::from(index)),
        None => true,
    }
}

/// The first slot whose index isn't in the table, or is that of an earlier slot.
pub(crate) fn bad_slot(mpb: &MpbRef<'_>, v: VolNo) -> Option<Slot>
    requires { v.0 < volume_count_of (block_of mpb.now) }
    ensures { MatchOption result (bad_slot (block_of mpb.now) (volume_at v.0 (block_of mpb.now)) ≡ None)
        (λ slot. bad_slot (block_of mpb.now) (volume_at v.0 (block_of mpb.now)) ≡ Some slot.0) }
{
    for slot in 0..slot_count(mpb, v) {
        if is_bad_slot(mpb, v, Slot(slot)) {
            return Some(Slot(slot));
        }
    }
    None
}

/// Whether a record's status says that its disk is configured and hasn't failed.
fn is_expected(status: u32) -> bool
    ensures { result ≡ ((bit_at status 1 == 1) && (bit_at status 2 == 0)) }
{
    (status >> 1) & 1 == 1 && (status >> 2) & 1 == 0
}

fn is_expected_at(mpb: &MpbRef<'_>, index: u8) -> bool
    requires { index < disk_count_of (block_of mpb.now) }
    ensures { result ≡ is_expected_at (block_of mpb.now) index }
{
    is_expected(mpb.disk_status(index))
}

/// Whether a map calls a slot out of sync.
fn is_marked(mpb: &MpbRef<'_>, v: VolNo, m: u8, slot: Slot) -> bool
    requires volume { v.0 < volume_count_of (block_of mpb.now) }
    requires map { m < map_count_of (volume_at v.0 (block_of mpb.now)) }
    requires slot { slot.0 < member_count_of (map_at m (volume_at v.0 (block_of mpb.now))) }
    ensures { result ≡ (bit_at (order_at slot.0 (map_at m (volume_at v.0 (block_of mpb.now)))) 24 == 1) }
{
    (mpb.map_ord(v, m, slot) >> 24) & 1 == 1
}

/// Whether some map calls a slot out of sync.
fn is_out(mpb: &MpbRef<'_>, v: VolNo, slot: Slot) -> bool
    requires volume { v.0 < volume_count_of (block_of mpb.now) }
    requires slot { slot.0 < member_count_of (first_map (volume_at v.0 (block_of mpb.now))) }
    requires geometry { has_geometry (block_of mpb.now) (volume_at v.0 (block_of mpb.now)) ≡ true }
    ensures { result ≡ (member (volume_at v.0 (block_of mpb.now)) slot.0).is_out }
{
    is_marked(mpb, v, 0, slot) || (mpb.maps(v) == 2 && is_marked(mpb, v, 1, slot))
}

fn slot_of(mpb: &MpbRef<'_>, v: VolNo, slot: Slot) -> SlotView
    requires volume { v.0 < volume_count_of (block_of mpb.now) }
    requires slot { slot.0 < member_count_of (first_map (volume_at v.0 (block_of mpb.now))) }
    requires good { bad_slot (block_of mpb.now) (volume_at v.0 (block_of mpb.now)) ≡ None }
    requires geometry { has_geometry (block_of mpb.now) (volume_at v.0 (block_of mpb.now)) ≡ true }
    ensures { result ≡ slot_view (block_of mpb.now) (member (volume_at v.0 (block_of mpb.now)) slot.0) }
{
    let index = table_index(mpb, v, slot).unwrap();
    SlotView {
        index,
        out: is_out(mpb, v, slot),
        expected: is_expected_at(mpb, index),
    }
}

/// The slots of a supported volume.
pub(crate) fn slots_of(mpb: &MpbRef<'_>, v: VolNo) -> ArrayVec<SlotView, MAX_MEMBERS>
    requires volume { v.0 < volume_count_of (block_of mpb.now) }
    requires few { member_count_of (first_map (volume_at v.0 (block_of mpb.now))) ≤ MAX_MEMBERS }
    requires good { bad_slot (block_of mpb.now) (volume_at v.0 (block_of mpb.now)) ≡ None }
    requires geometry { has_geometry (block_of mpb.now) (volume_at v.0 (block_of mpb.now)) ≡ true }
    ensures { result.items ≡ map (slot_view (block_of mpb.now)) (members (volume_at v.0 (block_of mpb.now))) }
{
    let mut slots = ArrayVec::new();
    for slot in 0..slot_count(mpb, v) {
        slots.push(slot_of(mpb, v, Slot(slot)));
    }
    slots
}
