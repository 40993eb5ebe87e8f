//! How a volume lies on its members.
ghost use Rattle.std.specs.Prelude.{◌≡◌, ◌≢◌, ◌+◌, ◌-◌, ◌*◌, ◌^◌, ◌<◌, ◌≤◌, ◌⊎◌, ◌&&◌, nat_le, Some, None, MatchOption, true, false};
ghost use Rattle.std.specs.List.{list_all};
ghost use Rattle.units.specs.declared.bounds.TheConstants.{METADATA_SECTORS as METADATA};
ghost use Rattle.units.specs.declared.volume.Level.TheVariants.{One};
ghost use Rattle.imsm_base.specs.Layout.{volume_count_of, member_count_of, map_count_of};
ghost use Rattle.imsm_base.specs.Volumes.{first_map, member, members, volume_level, has_sectors, is_like, has_geometry};
ghost use Rattle.units.specs.Levels.{rows_of, rounded_up, data_members};
ghost use Rattle.imsm_codec.specs.Mpb.{block_of, volume_at, map_at};
ghost use Rattle.imsm_view.specs.Views.{IsGeometry, has_room};

use crate::slot::{slot_count, table_index};
use imsm_codec::MpbRef;
use units::{Geometry, Level, MAX_VOLUME_SECTORS, METADATA_SECTORS, Slot, VolNo};

/// How many strips of one stripe have data.
fn data_members(level: Level, members: u8) -> u64
    requires { 2 ≤ members }
    ensures same { result ≡ data_members level members }
    ensures least { 1 ≤ result }
    ensures most { result < 256 }
{
    match level {
        Level::One => 1,
        Level::Five => u64::from(members) - 1,
        Level::Ten => 2,
    }
}

/// The rows of whole stripes that hold so many sectors, where a stripe has so many strips for data.
fn striped_rows(strips: u64, size: u64, strip: u64) -> u64
    requires some_strips { 1 ≤ strips }
    requires few_strips { strips < 256 }
    requires some { 1 ≤ strip }
    requires short { strip < 65536 }
    requires size { size ≤ 2 ^ 40 }
    ensures rows { result ≡ strip * rounded_up size (strips * strip) }
    ensures bound { result < 2 ^ 41 }
{
    strip * size.div_ceil(strips * strip)
}

/// The rows of a volume, one sector on each member.
pub fn rows_of(level: Level, members: u8, size: u64, strip: u16) -> u64
    requires members { 2 ≤ members }
    requires strip { level ≡ One ⊎ strip ≢ 0 }
    requires size { size ≤ 2 ^ 40 }
    ensures rows { result ≡ rows_of (Some level) members size strip }
    ensures bound { result < 2 ^ 41 }
{
    if level == Level::One {
        return size;
    }
    striped_rows(data_members(level, members), size, u64::from(strip))
}

/// Whether a volume has some sectors, and no more than this project allows.
fn is_volume_size(size: u64) -> bool
    ensures { result ≡ (nat_le 1 size && nat_le size (2 ^ 40)) }
{
    1 <= size && size <= MAX_VOLUME_SECTORS
}

/// Whether so many sectors hold rows from `pba` on, and metadata behind them.
fn holds(blocks: u64, pba: u64, rows: u64) -> bool
    requires { rows < 2 ^ 41 }
    ensures { result ≡ nat_le (pba + rows + METADATA) blocks }
{
    pba <= blocks && rows + METADATA_SECTORS <= blocks - pba
}

/// Whether the record of a slot's disk is there and has the sectors that rows from `pba` on need.
fn has_sectors(mpb: &MpbRef<'_>, v: VolNo, slot: Slot, pba: u64, rows: u64) -> bool
    requires volume { v.0 < volume_count_of (block_of mpb.now) }
    requires slot { slot.0 < member_count_of (first_map (volume_at v.0 (block_of mpb.now))) }
    requires rows { rows < 2 ^ 41 }
    ensures { result ≡ has_sectors (block_of mpb.now) (pba + rows + METADATA)
        (member (volume_at v.0 (block_of mpb.now)) slot.0) }
{
    match table_index(mpb, v, slot) {
        Some(index) => holds(mpb.disk_blocks(index), pba, rows),
        None => false,
    }
}

/// Whether each member's disk has the sectors that rows from `pba` on need.
fn have_sectors(mpb: &MpbRef<'_>, v: VolNo, pba: u64, rows: u64) -> bool
    requires volume { v.0 < volume_count_of (block_of mpb.now) }
    requires rows { rows < 2 ^ 41 }
    ensures { result ≡ list_all (has_sectors (block_of mpb.now) (pba + rows + METADATA))
        (members (volume_at v.0 (block_of mpb.now))) }
{
    for slot in 0..slot_count(mpb, v) {
        if !has_sectors(mpb, v, Slot(slot), pba, rows) {
            return false;
        }
    }
    true
}

/// Whether a map lies as another does.
fn is_like(mpb: &MpbRef<'_>, v: VolNo, m: u8, other: u8) -> bool
    requires volume { v.0 < volume_count_of (block_of mpb.now) }
    requires map { m < map_count_of (volume_at v.0 (block_of mpb.now)) }
    requires other { other < map_count_of (volume_at v.0 (block_of mpb.now)) }
    ensures { result ≡ is_like (map_at m (volume_at v.0 (block_of mpb.now)))
        (map_at other (volume_at v.0 (block_of mpb.now))) }
{
    mpb.map_pba(v, other) == mpb.map_pba(v, m)
        && mpb.map_blocks(v, other) == mpb.map_blocks(v, m)
        && mpb.map_strip(v, other) == mpb.map_strip(v, m)
        && mpb.map_level(v, other) == mpb.map_level(v, m)
        && mpb.map_members(v, other) == mpb.map_members(v, m)
}

/// Whether the second map, where it is there, lies as the first does.
fn are_alike(mpb: &MpbRef<'_>, v: VolNo) -> bool
    requires { v.0 < volume_count_of (block_of mpb.now) }
    ensures { result ≡ list_all (is_like (first_map (volume_at v.0 (block_of mpb.now))))
        (volume_at v.0 (block_of mpb.now)).maps }
{
    mpb.maps(v) == 1 || is_like(mpb, v, 0, 1)
}

/// Whether the rows fit into the range of each member and onto its disk, and the maps are alike.
#[tactic(auto, using(imsm_codec::proofs::Places::some_map))]
fn has_room(mpb: &MpbRef<'_>, v: VolNo, geometry: &Geometry) -> bool
    requires volume { v.0 < volume_count_of (block_of mpb.now) }
    requires geometry { IsGeometry (volume_at v.0 (block_of mpb.now)) geometry.now }
    requires rows { geometry.now.rows < 2 ^ 41 }
    ensures { result ≡ has_room (block_of mpb.now) (volume_at v.0 (block_of mpb.now)) }
{
    geometry.rows <= mpb.map_blocks(v, 0)
        && have_sectors(mpb, v, geometry.pba, geometry.rows)
        && are_alike(mpb, v)
}

/// How a volume of this level lies, where its numbers are in range and its members have room.
#[tactic(auto, using(imsm_codec::proofs::Places::some_map))]
pub(crate) fn geometry_of(mpb: &MpbRef<'_>, v: VolNo, level: Level) -> Option<Geometry>
    requires volume { v.0 < volume_count_of (block_of mpb.now) }
    requires level { volume_level (volume_at v.0 (block_of mpb.now)) ≡ Some level }
    ensures { MatchOption result (has_geometry (block_of mpb.now) (volume_at v.0 (block_of mpb.now)) ≡ false)
        (λ g. (has_geometry (block_of mpb.now) (volume_at v.0 (block_of mpb.now)) ≡ true)
        × IsGeometry (volume_at v.0 (block_of mpb.now)) g) }
{
    let size = mpb.vol_size(v);
    let strip = mpb.map_strip(v, 0);
    if !is_volume_size(size) || (level != Level::One && strip == 0) {
        return None;
    }
    let members = mpb.map_members(v, 0);
    let geometry = Geometry {
        level,
        members,
        strip,
        size,
        pba: mpb.map_pba(v, 0),
        rows: rows_of(level, members, size, strip),
    };
    if !has_room(mpb, v, &geometry) {
        return None;
    }
    Some(geometry)
}
