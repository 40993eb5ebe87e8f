//! Edits of one field of a block that is owned. Each leaves every other byte.
ghost use Rattle.std.specs.Prelude.{◌≡◌, ◌<◌};
ghost use Rattle.imsm_base.specs.Layout.{disk_count_of, volume_count_of, map_count_of, member_count_of};
ghost use Rattle.imsm_base.specs.Edits.{with_generation, with_dirty, block_with_generation, block_with_dirty};
ghost use Rattle.imsm_base.specs.EditsOfTables.{block_with_status, block_with_order, block_with_state, block_with_name, block_with_pass};
ghost use Rattle.imsm_codec.specs.Mpb.{volume_at, map_at};
ghost use Rattle.imsm_buffer.specs.Buffer.{parts_of, with_block};

use crate::buffer::MpbBuf;
use crate::bytes::{put_name, put_pass, put_u8};
use crate::places::{disk_place, map_place, volume_place};
use imsm_base::{CHECKPOINT_SIGNATURE, put_u32};
use imsm_codec::{MAP_BYTES, get_u8};
use units::{Slot, VolNo};

impl MpbBuf {
    /// Sets `generation_num`.
    pub fn set_generation(&mut self, g: u32)
        ensures bytes { self.new ≡ record self.old { bytes = with_generation self.old.bytes g } }
        ensures block { parts_of self.new ≡ block_with_generation (parts_of self.old) g }
    {
        put_u32(&mut self.bytes, 0x2C, g);
    }

    /// Sets or clears a volume's dirty bit.
    pub fn set_dirty(&mut self, v: VolNo, on: bool)
        requires { v.0 < volume_count_of (parts_of self.old) }
        ensures bytes { self.new ≡ record self.old { bytes = with_dirty self.old.bytes v.0 on } }
        ensures block { parts_of self.new ≡ block_with_dirty (parts_of self.old) v.0 on }
    {
        let at = volume_place(&self.bytes, v.0) + 90;
        let byte = get_u8(&self.bytes, at);
        put_u8(&mut self.bytes, at, byte / 2 * 2 + u8::from(on));
    }

    /// Sets the status of a disk's record.
    pub fn set_status(&mut self, i: u8, status: u32)
        requires { i < disk_count_of (parts_of self.old) }
        ensures bytes { self.new ≡ with_block self.old (block_with_status (parts_of self.old) i status) }
        ensures block { parts_of self.new ≡ block_with_status (parts_of self.old) i status }
    {
        put_u32(&mut self.bytes, disk_place(i) + 24, status);
    }

    /// Sets a slot's entry in a map (`disk_ord_tbl`).
    pub fn set_ord(&mut self, v: VolNo, m: u8, slot: Slot, ord: u32)
        requires volume { v.0 < volume_count_of (parts_of self.old) }
        requires map { m < map_count_of (volume_at v.0 (parts_of self.old)) }
        requires slot { slot.0 < member_count_of (map_at m (volume_at v.0 (parts_of self.old))) }
        ensures bytes { self.new ≡ with_block self.old (block_with_order (parts_of self.old) v.0 m slot.0 ord) }
        ensures block { parts_of self.new ≡ block_with_order (parts_of self.old) v.0 m slot.0 ord }
    {
        let at = map_place(&self.bytes, v.0, m) + MAP_BYTES + 4 * usize::from(slot.0);
        put_u32(&mut self.bytes, at, ord);
    }

    /// Sets a map's state (`map_state`).
    pub fn set_state(&mut self, v: VolNo, m: u8, state: u8)
        requires volume { v.0 < volume_count_of (parts_of self.old) }
        requires map { m < map_count_of (volume_at v.0 (parts_of self.old)) }
        ensures bytes { self.new ≡ with_block self.old (block_with_state (parts_of self.old) v.0 m state) }
        ensures block { parts_of self.new ≡ block_with_state (parts_of self.old) v.0 m state }
    {
        let at = map_place(&self.bytes, v.0, m) + 14;
        put_u8(&mut self.bytes, at, state);
    }

    /// Sets the type of a volume's pass and how far it has come, in units of 128 rows, with this project's mark.
    pub fn set_pass(&mut self, v: VolNo, kind: u8, unit: u64)
        requires { v.0 < volume_count_of (parts_of self.old) }
        ensures bytes { self.new ≡ with_block self.old (block_with_pass (parts_of self.old) v.0 kind unit) }
        ensures block { parts_of self.new ≡ block_with_pass (parts_of self.old) v.0 kind unit }
    {
        let at = volume_place(&self.bytes, v.0);
        put_pass(&mut self.bytes, at, kind, unit, CHECKPOINT_SIGNATURE);
    }

    /// Sets a volume's name.
    pub fn set_name(&mut self, v: VolNo, name: &[u8; 16])
        requires { v.0 < volume_count_of (parts_of self.old) }
        ensures bytes { self.new ≡ with_block self.old (block_with_name (parts_of self.old) v.0 name.now) }
        ensures block { parts_of self.new ≡ block_with_name (parts_of self.old) v.0 name.now }
    {
        let at = volume_place(&self.bytes, v.0);
        put_name(&mut self.bytes, at, name);
    }
}
