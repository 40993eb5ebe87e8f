//! Edits of the tables of a block that is owned, in the room that it has.
ghost use Rattle.std.specs.Prelude.{◌≡◌, ◌≢◌, ◌+◌, ◌<◌, ◌≤◌, ◌↔◌, ◌++◌, length, take, drop, vec_len, vec_capacity, IfOk, IfErr, IsOk, OnOk, OnErr};
ghost use Rattle.std.specs.List.{concat};
ghost use Rattle.units.specs.declared.bounds.TheConstants.{MAX_DISKS};
ghost use Rattle.imsm_base.specs.Fields.{with_number_at};
ghost use Rattle.imsm_base.specs.Layout.{HasLengths, disk_lengths, disk_count_of, volume_count_of, migration_state_of};
ghost use Rattle.imsm_base.specs.Parts.{map_room};
ghost use Rattle.imsm_base.specs.EditsOfTables.{block_with_disk, block_with_migration, block_without_migration};
ghost use Rattle.imsm_codec.specs.Mpb.{volume_at, map_at};
ghost use Rattle.imsm_buffer.specs.Buffer.{parts_of, with_block};
ghost use Rattle.imsm_buffer.specs.Places.{disk_place, with_pass_at};
ghost use Rattle.imsm_buffer.specs.Record.{part_of};

use crate::buffer::MpbBuf;
use crate::bytes::{put_pass, put_u8};
use crate::fault::NoRoom;
use crate::moves::{put_in, put_twice, take_out};
use crate::places::{disk_place, map_place, map_size, volume_place};
use crate::record::DiskRecord;
use imsm_base::put_u32;
use imsm_codec::{DISK_BYTES, VOLUME_BYTES, get_u8};
use units::VolNo;

/// The bytes of a record.
fn record_bytes(added: &DiskRecord) -> [u8; 48]
    ensures bytes { result ≡ concat (part_of added.now) }
    ensures lengths { HasLengths disk_lengths (part_of added.now) }
{
    let blocks = added.blocks;
    let mut record = [0; 48];
    record[..16].copy_from_slice(&added.serial.0);
    put_u32(&mut record, 16, (blocks % (1 << 32)) as u32);
    put_u32(&mut record, 20, added.scsi);
    put_u32(&mut record, 24, added.status);
    put_u32(&mut record, 28, added.owner);
    put_u32(&mut record, 32, (blocks >> 32) as u32);
    record
}

/// Puts a record in behind so many others, and counts it.
fn add_record(bytes: &mut Vec<u8>, count: u8, added: &[u8; 48])
    requires inside { disk_place count ≤ vec_len bytes.old }
    requires room { vec_len bytes.old + 48 ≤ vec_capacity bytes.old }
    requires few { count < MAX_DISKS }
    ensures items { bytes.new.items ≡ with_number_at 1 0x38 (count + 1)
        (take (disk_place count) bytes.old.items ++ (added.now ++ drop (disk_place count) bytes.old.items)) }
    ensures capacity { vec_capacity bytes.old ≤ vec_capacity bytes.new }
{
    put_in(bytes, disk_place(count), added);
    put_u8(bytes, 0x38, count + 1);
}

/// Opens a migration of the volume at a place, whose one map has so many bytes.
fn open_at(bytes: &mut Vec<u8>, volume: usize, len: usize)
    requires inside { volume + 112 + len ≤ vec_len bytes.old }
    requires room { vec_len bytes.old + len ≤ vec_capacity bytes.old }
    ensures items { bytes.new.items ≡ with_number_at 1 (volume + 88) 1
        (take (volume + 112 + len) bytes.old.items ++ drop (volume + 112) bytes.old.items) }
    ensures capacity { vec_capacity bytes.old ≤ vec_capacity bytes.new }
{
    put_twice(bytes, volume + VOLUME_BYTES, len);
    put_u8(bytes, volume + 88, 1);
}

/// Closes the migration of the volume at a place, whose second map has so many bytes at another.
fn close_at(bytes: &mut Vec<u8>, volume: usize, second: usize, len: usize)
    requires inside { second + len ≤ vec_len bytes.old }
    requires behind { volume + 112 ≤ second }
    ensures items { bytes.new.items ≡ with_pass_at volume 0 0 0
        (with_number_at 1 (volume + 88) 0 (take second bytes.old.items ++ drop (second + len) bytes.old.items)) }
    ensures capacity { vec_capacity bytes.new ≡ vec_capacity bytes.old }
{
    take_out(bytes, second, len);
    put_u8(bytes, volume + 88, 0);
    put_pass(bytes, volume, 0, 0, 0);
}

impl MpbBuf {
    /// Adds a disk's record behind the others, and gives its index.
    pub fn add_disk(&mut self, added: &DiskRecord) -> Result<u8, NoRoom>
        requires { disk_count_of (parts_of self.old) < MAX_DISKS }
        ensures bytes { OnOk result (self.new
            ≡ with_block self.old (block_with_disk (parts_of self.old) (part_of added.now))) }
        ensures block { OnOk result (parts_of self.new ≡ block_with_disk (parts_of self.old) (part_of added.now)) }
        ensures index { IfOk result (λ i. i ≡ disk_count_of (parts_of self.old)) }
        ensures err { OnErr result (self.new ≡ self.old) }
        // It is refused exactly where it doesn't fit.
        ensures variant { IsOk result ↔ (length self.old.bytes + 48 ≤ self.old.room) }
        ensures told { IfErr result (λ e. (e.needed ≡ length self.old.bytes + 48) × (e.room ≡ self.old.room)) }
    {
        let needed = self.bytes.len() + DISK_BYTES;
        if needed > usize::from(self.room) {
            return Err(NoRoom {
                needed: needed as u16,
                room: self.room,
            });
        }
        let count = get_u8(&self.bytes, 0x38);
        add_record(&mut self.bytes, count, &record_bytes(added));
        Ok(count)
    }

    /// Opens a migration of a volume, with a second map that is a copy of the first.
    pub fn open_migration(&mut self, v: VolNo) -> Result<(), NoRoom>
        requires volume { v.0 < volume_count_of (parts_of self.old) }
        requires closed { migration_state_of (volume_at v.0 (parts_of self.old)) ≡ 0 }
        ensures bytes { OnOk result (self.new ≡ with_block self.old (block_with_migration (parts_of self.old) v.0)) }
        ensures block { OnOk result (parts_of self.new ≡ block_with_migration (parts_of self.old) v.0) }
        ensures err { OnErr result (self.new ≡ self.old) }
        // It is refused exactly where it doesn't fit.
        ensures variant { IsOk result
            ↔ (length self.old.bytes + map_room (map_at 0 (volume_at v.0 (parts_of self.old))) ≤ self.old.room) }
        ensures told { IfErr result (λ e.
            (e.needed ≡ length self.old.bytes + map_room (map_at 0 (volume_at v.0 (parts_of self.old))))
            × (e.room ≡ self.old.room)) }
    {
        let volume = volume_place(&self.bytes, v.0);
        let len = map_size(&self.bytes, v.0, 0);
        let needed = self.bytes.len() + len;
        if needed > usize::from(self.room) {
            return Err(NoRoom {
                needed: needed as u16,
                room: self.room,
            });
        }
        open_at(&mut self.bytes, volume, len);
        Ok(())
    }

    /// Closes a volume's migration: nothing of its pass is left, and the second map is taken out.
    pub fn close_migration(&mut self, v: VolNo)
        requires volume { v.0 < volume_count_of (parts_of self.old) }
        requires open { migration_state_of (volume_at v.0 (parts_of self.old)) ≢ 0 }
        ensures bytes { self.new ≡ with_block self.old (block_without_migration (parts_of self.old) v.0) }
        ensures block { parts_of self.new ≡ block_without_migration (parts_of self.old) v.0 }
    {
        let volume = volume_place(&self.bytes, v.0);
        let second = map_place(&self.bytes, v.0, 1);
        let len = map_size(&self.bytes, v.0, 1);
        close_at(&mut self.bytes, volume, second, len);
    }
}
