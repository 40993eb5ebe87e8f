//! The lines of a volume's maps.
ghost use Rattle.std.specs.Prelude.{◌≡◌, ◌++◌, ◌<◌, ◌%◌, ◌^◌, ◌==◌, if◌then◌else◌, codes, OnOk};
ghost use Rattle.std.specs.Int.{bit_at};
ghost use Rattle.imsm_base.specs.Layout.{volume_count_of, map_count_of, member_count_of, orders_of};
ghost use Rattle.imsm_base.specs.Volumes.{order_at};
ghost use Rattle.imsm_codec.specs.Mpb.{block_of, volume_at, map_at};
ghost use Rattle.examine.specs.Lines.{numbered, slot_line, map_line, map_lines};

use imsm_base::INDEX_RANGE;
use imsm_codec::MpbRef;
use imsm_text::{Word, push_line};
use std::alloc::AllocError;
use units::{Slot, VolNo};

/// Whether an entry says that its slot is out of sync, as a word.
fn sync_word(order: u32) -> &'static [u8]
    ensures { result.now ≡ (if bit_at order 24 == 1 then codes "out" else codes "in") }
{
    if (order >> 24) & 1 == 1 {
        b"out"
    } else {
        b"in"
    }
}

/// Appends the line of a slot that has this entry.
fn push_slot(out: &mut Vec<u8>, slot: Slot, order: u32) -> Result<(), AllocError>
    ensures { OnOk result (out.new.items ≡ out.old.items ++ slot_line slot.0 order) }
{
    let words = [
        Word::Number(u64::from(slot.0)),
        Word::Number(u64::from(order % INDEX_RANGE)),
        Word::Plain(sync_word(order)),
    ];
    push_line(out, b"slot", &words)
}

/// Appends the lines of a map's slots.
fn push_slots(out: &mut Vec<u8>, mpb: &MpbRef<'_>, v: VolNo, m: u8) -> Result<(), AllocError>
    requires volume { v.0 < volume_count_of (block_of mpb.now) }
    requires map { m < map_count_of (volume_at v.0 (block_of mpb.now)) }
    ensures { OnOk result (out.new.items ≡ out.old.items
        ++ numbered slot_line (orders_of (map_at m (volume_at v.0 (block_of mpb.now))))) }
{
    for slot in 0..mpb.map_members(v, m) {
        push_slot(out, Slot(slot), mpb.map_ord(v, m, Slot(slot)))?;
    }
    Ok(())
}

/// Appends the line of a map.
fn push_map(out: &mut Vec<u8>, mpb: &MpbRef<'_>, v: VolNo, m: u8) -> Result<(), AllocError>
    requires volume { v.0 < volume_count_of (block_of mpb.now) }
    requires map { m < map_count_of (volume_at v.0 (block_of mpb.now)) }
    ensures { OnOk result (out.new.items ≡ out.old.items ++ map_line m (map_at m (volume_at v.0 (block_of mpb.now)))) }
{
    let words = [
        Word::Number(u64::from(m)),
        Word::Plain(b"level"),
        Word::Number(u64::from(mpb.map_level(v, m))),
        Word::Plain(b"members"),
        Word::Number(u64::from(mpb.map_members(v, m))),
        Word::Plain(b"state"),
        Word::Number(u64::from(mpb.map_state(v, m))),
        Word::Plain(b"strip"),
        Word::Number(u64::from(mpb.map_strip(v, m))),
        Word::Plain(b"pba"),
        Word::Number(mpb.map_pba(v, m)),
        Word::Plain(b"blocks"),
        Word::Number(mpb.map_blocks(v, m)),
    ];
    push_line(out, b"map", &words)
}

/// Appends the lines of a map and of its slots.
fn push_map_lines(out: &mut Vec<u8>, mpb: &MpbRef<'_>, v: VolNo, m: u8) -> Result<(), AllocError>
    requires volume { v.0 < volume_count_of (block_of mpb.now) }
    requires map { m < map_count_of (volume_at v.0 (block_of mpb.now)) }
    ensures { OnOk result (out.new.items ≡ out.old.items ++ map_lines m (map_at m (volume_at v.0 (block_of mpb.now)))) }
{
    push_map(out, mpb, v, m)?;
    push_slots(out, mpb, v, m)
}

/// Appends the lines of a volume's maps.
pub(crate) fn push_maps(out: &mut Vec<u8>, mpb: &MpbRef<'_>, v: VolNo) -> Result<(), AllocError>
    requires { v.0 < volume_count_of (block_of mpb.now) }
    ensures { OnOk result (out.new.items ≡ out.old.items
        ++ numbered map_lines (volume_at v.0 (block_of mpb.now)).maps) }
{
    for m in 0..mpb.maps(v) {
        push_map_lines(out, mpb, v, m)?;
    }
    Ok(())
}
