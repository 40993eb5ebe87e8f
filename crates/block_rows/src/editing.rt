//! Rows that edit a block. A row that names what isn't there is refused.
ghost use Rattle.std.specs.Prelude.{◌≡◌, ◌<◌, IsTrue};
ghost use Rattle.imsm_base.specs.Layout.{disk_count_of, volume_count_of, map_count_of, member_count_of, migration_state_of};
ghost use Rattle.imsm_codec.specs.Mpb.{volume_at, map_at};
ghost use Rattle.imsm_buffer.specs.Buffer.{parts_of};

use crate::row::Row;
use hex::FromHex;
use imsm_buffer::MpbBuf;
use imsm_codec::check;
use std::alloc::Global;
use std::io;
use units::{MAX_BLOCK_BYTES, MAX_BLOCK_SECTORS, Slot, VolNo};

fn has_record(book: &MpbBuf, i: u8) -> bool
    ensures { IsTrue result → i < disk_count_of (parts_of book.now) }
{
    i < book.parts().disks()
}

fn has_volume(book: &MpbBuf, v: VolNo) -> bool
    ensures { IsTrue result → v.0 < volume_count_of (parts_of book.now) }
{
    v.0 < book.parts().volumes()
}

/// Whether a volume has no pass open.
fn is_closed(book: &MpbBuf, v: VolNo) -> bool
    requires { v.0 < volume_count_of (parts_of book.now) }
    ensures { IsTrue result → migration_state_of (volume_at v.0 (parts_of book.now)) ≡ 0 }
{
    book.parts().migr_state(v) == 0
}

fn has_map(book: &MpbBuf, v: VolNo, m: u8) -> bool
    requires { v.0 < volume_count_of (parts_of book.now) }
    ensures { IsTrue result → m < map_count_of (volume_at v.0 (parts_of book.now)) }
{
    m < book.parts().maps(v)
}

fn has_slot(book: &MpbBuf, v: VolNo, m: u8, slot: Slot) -> bool
    requires volume { v.0 < volume_count_of (parts_of book.now) }
    requires map { m < map_count_of (volume_at v.0 (parts_of book.now)) }
    ensures { IsTrue result → slot.0 < member_count_of (map_at m (volume_at v.0 (parts_of book.now))) }
{
    slot.0 < book.parts().map_members(v, m)
}

/// The block at hand, in room for so many bytes, where it is whole and fits.
pub(crate) fn open_book(alloc: Global, row: &mut Row<'_>, bytes: &[u8]) -> Option<MpbBuf> {
    let room = row.number_of_16();
    let mpb = check(bytes).ok()?;
    let len = mpb.bytes().len();
    if len > usize::from(room) || usize::from(room) > MAX_BLOCK_BYTES {
        return None;
    }
    MpbBuf::from_ref(alloc, &mpb, room).ok()
}

/// A new block in room for so many sectors.
pub(crate) fn new_book(alloc: Global, row: &mut Row<'_>) -> Option<MpbBuf> {
    let sectors = row.number_of_8();
    if sectors == 0 || sectors > MAX_BLOCK_SECTORS {
        return None;
    }
    MpbBuf::new(alloc, sectors).ok()
}

/// Sets an entry or a state of a volume's map, and tells whether there is such a map and slot.
fn edit_map(field: &str, row: &mut Row<'_>, book: &mut MpbBuf, v: VolNo) -> bool
    requires { v.0 < volume_count_of (parts_of book.old) }
{
    let m = row.number_of_8();
    if !has_map(book, v, m) {
        return false;
    }
    if field == "state" {
        book.set_state(v, m, row.number_of_8());
        return true;
    }
    let slot = Slot(row.number_of_8());
    if !has_slot(book, v, m, slot) {
        return false;
    }
    book.set_ord(v, m, slot, row.number_of_32());
    true
}

/// Sets a field of a volume, and tells whether it is there.
fn edit_volume(field: &str, row: &mut Row<'_>, book: &mut MpbBuf) -> bool {
    let v = VolNo(row.number_of_8());
    if !has_volume(book, v) {
        return false;
    }
    match field {
        "dirty" => book.set_dirty(v, row.number_of_8() == 1),
        "name" => book.set_name(v, &<[u8; 16]>::from_hex(row.word()).unwrap_or([0; 16])),
        "pass" => book.set_pass(v, row.number_of_8(), row.number()),
        "open" => return is_closed(book, v) && book.open_migration(v).is_ok(),
        "state" | "entry" => return edit_map(field, row, book, v),
        _ => return false,
    }
    true
}

/// Sets a field, and tells whether it is there.
fn edit(row: &mut Row<'_>, book: &mut MpbBuf) -> bool {
    match row.word() {
        "generation" => book.set_generation(row.number_of_32()),
        "status" => {
            let i = row.number_of_8();
            if !has_record(book, i) {
                return false;
            }
            book.set_status(i, row.number_of_32());
        }
        "seal" => book.seal(),
        field => return edit_volume(field, row, book),
    }
    true
}

/// Sets a field of a block, or is refused.
pub(crate) fn edit_book(rt: &HostRuntime, row: &mut Row<'_>, book: &mut MpbBuf) -> io::Result<()> {
    if edit(row, book) {
        return Ok(());
    }
    println!(rt; "refused")
}
