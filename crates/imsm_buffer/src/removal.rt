//! A disk's record that leaves a block, and the entries that name the records behind it.
ghost use Rattle.std.specs.Prelude.{◌≡◌, ◌≢◌, ◌+◌, ◌-◌, ◌<◌, ◌≤◌, ◌%◌, ◌^◌, ◌++◌, ℕ, map, take, drop, vec_len, vec_capacity};
ghost use Rattle.imsm_base.specs.Fields.{with_number_at};
ghost use Rattle.imsm_base.specs.Layout.{disk_count_of, volume_count_of, map_count_of, member_count_of};
ghost use Rattle.imsm_base.specs.Volumes.{order_at};
ghost use Rattle.imsm_base.specs.EditsOfTables.{with_volume, with_map, lowered, map_without_disk, volume_without_disk, block_without_record, block_without_disk};
ghost use Rattle.imsm_codec.specs.Mpb.{volume_at, map_at};
ghost use Rattle.imsm_buffer.specs.Buffer.{parts_of, with_block};

use crate::buffer::MpbBuf;
use crate::bytes::put_u8;
use crate::moves::take_out;
use crate::places::disk_place;
use imsm_base::INDEX_RANGE;
use imsm_codec::{DISK_BYTES, get_u8};
use units::{Slot, VolNo};

/// An entry whose index is one less, where it is above that of a record that left.
fn lowered(ord: u32, i: u8) -> u32
    ensures { result ≡ lowered i ord }
{
    if ord % INDEX_RANGE > u32::from(i) {
        ord - 1
    } else {
        ord
    }
}

/// Takes out the record at a place, and counts the others.
fn remove_record(bytes: &mut Vec<u8>, at: usize, others: u8)
    requires inside { at + 48 ≤ vec_len bytes.old }
    requires behind { 216 ≤ at }
    ensures items { bytes.new.items ≡ with_number_at 1 0x38 others
        (take at bytes.old.items ++ drop (at + 48) bytes.old.items) }
    ensures capacity { vec_capacity bytes.new ≡ vec_capacity bytes.old }
{
    take_out(bytes, at, DISK_BYTES);
    put_u8(bytes, 0x38, others);
}

impl MpbBuf {
    fn drop_record(&mut self, i: u8)
        requires { i < disk_count_of (parts_of self.old) }
        ensures room { self.new.room ≡ self.old.room }
        ensures block { parts_of self.new ≡ block_without_record (parts_of self.old) i }
    {
        let others = get_u8(&self.bytes, 0x38) - 1;
        remove_record(&mut self.bytes, disk_place(i), others);
    }

    fn lower_map(&mut self, v: VolNo, m: u8, i: u8)
        requires volume { v.0 < volume_count_of (parts_of self.old) }
        requires map { m < map_count_of (volume_at v.0 (parts_of self.old)) }
        ensures room { self.new.room ≡ self.old.room }
        ensures block { parts_of self.new ≡ with_volume v.0 (with_map m (map_without_disk i)) (parts_of self.old) }
    {
        let members = self.parts().map_members(v, m);
        for slot in 0..members {
            let ord = self.parts().map_ord(v, m, Slot(slot));
            self.set_ord(v, m, Slot(slot), lowered(ord, i));
        }
    }

    fn lower_volume(&mut self, v: VolNo, i: u8)
        requires { v.0 < volume_count_of (parts_of self.old) }
        ensures room { self.new.room ≡ self.old.room }
        ensures block { parts_of self.new ≡ with_volume v.0 (volume_without_disk i) (parts_of self.old) }
    {
        let maps = self.parts().maps(v);
        self.lower_map(v, 0, i);
        if maps == 2 {
            self.lower_map(v, 1, i);
        }
    }

    fn lower_volumes(&mut self, i: u8)
        ensures room { self.new.room ≡ self.old.room }
        ensures block { parts_of self.new
            ≡ record (parts_of self.old) { volumes = map (volume_without_disk i) (parts_of self.old).volumes } }
    {
        let volumes = self.parts().volumes();
        for v in 0..volumes {
            self.lower_volume(VolNo(v), i);
        }
    }

    /// Takes out a disk's record. Entries that name a record behind it name it by its new index.
    pub fn remove_disk(&mut self, i: u8)
        requires there { i < disk_count_of (parts_of self.old) }
        requires several { 2 ≤ disk_count_of (parts_of self.old) }
        requires free { (v m slot : ℕ) → v < volume_count_of (parts_of self.old)
            → m < map_count_of (volume_at v (parts_of self.old))
            → slot < member_count_of (map_at m (volume_at v (parts_of self.old)))
            → order_at slot (map_at m (volume_at v (parts_of self.old))) % 2 ^ 24 ≢ i }
        ensures bytes { self.new ≡ with_block self.old (block_without_disk (parts_of self.old) i) }
        ensures block { parts_of self.new ≡ block_without_disk (parts_of self.old) i }
    {
        self.drop_record(i);
        self.lower_volumes(i);
    }
}
