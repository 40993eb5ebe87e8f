//! Slots that maps call out of sync, or in sync again (`IMSM_ORD_REBUILD` of super-intel.c).
ghost use Rattle.std.specs.Prelude.{◌≡◌, ◌<◌, false};
ghost use Rattle.imsm_base.specs.Layout.{volume_count_of, map_count_of, member_count_of};
ghost use Rattle.imsm_base.specs.Volumes.{has_pass};
ghost use Rattle.imsm_base.specs.EditsOfTables.{with_volume, with_map};
ghost use Rattle.imsm_codec.specs.Mpb.{volume_at, map_at};
ghost use Rattle.imsm_buffer.specs.Buffer.{parts_of};
ghost use Rattle.imsm_edit.specs.Meanings.{has_out, is_told};
ghost use Rattle.imsm_edit.specs.Slots.{with_rebuild_bit, slot_marked, map_marked, maps_marked, seen_with};

use imsm_base::INDEX_RANGE;
use imsm_buffer::MpbBuf;
use imsm_view::SlotView;
use units::{Slot, VolNo};

/// An entry with bit 24 set or cleared.
fn with_rebuild_bit(ord: u32, on: bool) -> u32
    ensures { result ≡ with_rebuild_bit on ord }
{
    if on {
        return ord / (2 * INDEX_RANGE) * (2 * INDEX_RANGE) + INDEX_RANGE + ord % INDEX_RANGE;
    }
    ord / (2 * INDEX_RANGE) * (2 * INDEX_RANGE) + ord % INDEX_RANGE
}

/// Sets or clears bit 24 of one slot's entry in a map, where the slot is named.
fn mark_slot(book: &mut MpbBuf, v: VolNo, m: u8, slot: Slot, named: bool, on: bool)
    requires volume { v.0 < volume_count_of (parts_of book.old) }
    requires map { m < map_count_of (volume_at v.0 (parts_of book.old)) }
    requires slot { slot.0 < member_count_of (map_at m (volume_at v.0 (parts_of book.old))) }
    ensures block { parts_of book.new ≡ with_volume v.0 (with_map m (slot_marked on slot.0 named)) (parts_of book.old) }
    ensures room { book.new.room ≡ book.old.room }
{
    if !named {
        return;
    }
    let ord = book.parts().map_ord(v, m, slot);
    book.set_ord(v, m, slot, with_rebuild_bit(ord, on));
}

/// What a list says of a disk, by its index.
fn is_told(disks: &[bool], index: u8) -> bool
    ensures { result ≡ is_told disks.now index }
{
    match disks.get(usize::from(index)) {
        Some(told) => *told,
        None => false,
    }
}

/// Whether a slot's disk is one of these, by a list over their indices.
fn is_named(slots: &[SlotView], slot: u8, disks: &[bool]) -> bool
    ensures { result ≡ is_told (seen_with disks.now slots.now) slot }
{
    match slots.get(usize::from(slot)) {
        Some(view) => is_told(disks, view.index),
        None => false,
    }
}

/// Sets or clears bit 24 in a map's entries of the slots whose disks are these.
fn mark_map(book: &mut MpbBuf, v: VolNo, m: u8, slots: &[SlotView], disks: &[bool], on: bool)
    requires volume { v.0 < volume_count_of (parts_of book.old) }
    requires map { m < map_count_of (volume_at v.0 (parts_of book.old)) }
    ensures block { parts_of book.new
        ≡ with_volume v.0 (with_map m (map_marked on (seen_with disks.now slots.now))) (parts_of book.old) }
    ensures room { book.new.room ≡ book.old.room }
{
    let members = book.parts().map_members(v, m);
    for slot in 0..members {
        mark_slot(book, v, m, Slot(slot), is_named(slots, slot, disks), on);
    }
}

/// The same in each map of a volume.
pub(crate) fn mark_maps(book: &mut MpbBuf, v: VolNo, slots: &[SlotView], disks: &[bool], on: bool)
    requires { v.0 < volume_count_of (parts_of book.old) }
    ensures block { parts_of book.new
        ≡ with_volume v.0 (maps_marked on (seen_with disks.now slots.now)) (parts_of book.old) }
    ensures room { book.new.room ≡ book.old.room }
{
    let maps = book.parts().maps(v);
    mark_map(book, v, 0, slots, disks, on);
    if maps == 2 {
        mark_map(book, v, 1, slots, disks, on);
    }
}

/// Whether the one map of a volume calls a slot out of sync.
pub(crate) fn has_out(book: &MpbBuf, v: VolNo) -> bool
    requires volume { v.0 < volume_count_of (parts_of book.now) }
    requires closed { has_pass (volume_at v.0 (parts_of book.now)) ≡ false }
    ensures { result ≡ has_out (volume_at v.0 (parts_of book.now)) }
{
    let mpb = book.parts();
    for slot in 0..mpb.map_members(v, 0) {
        if mpb.map_ord(v, 0, Slot(slot)) / INDEX_RANGE % 2 == 1 {
            return true;
        }
    }
    false
}
