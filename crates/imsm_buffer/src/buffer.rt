//! A metadata block that is owned, and edited in place.
ghost use Rattle.std.specs.Prelude.{◌≡◌, ◌*◌, ◌≤◌, ◌↔◌, length, vec_capacity, IfOk, IfErr, IsOk, OnOk, OnErr};
ghost use Rattle.units.specs.declared.bounds.TheConstants.{MAX_BLOCK_BYTES};
ghost use Rattle.imsm_base.specs.Layout.{size_of, checksum_of, bytes_of};
ghost use Rattle.imsm_base.specs.Whole.{IsSize, block_sum};
ghost use Rattle.imsm_base.specs.Edits.{sized, sealed, first_sector, block_sealed};
ghost use Rattle.imsm_base.specs.EditsOfTables.{new_block};
ghost use Rattle.imsm_codec.specs.Mpb.{block_bytes, block_of};
ghost use Rattle.imsm_buffer.specs.Buffer.{parts_of};

use crate::fault::{CodecFault, NoRoom};
use imsm_base::put_u32;
use imsm_codec::{MpbRef, sum_of};
use std::alloc::Global;
use std::marker::Model;
use units::{SECTOR_BYTES, Sector};

/// A metadata block of its own memory. Each edit changes its field and leaves every other byte; the checksum is right
/// after `seal` and until the next edit.
#[derive(Drop)]
pub struct MpbBuf {
    pub(crate) bytes: Vec<u8>,
    pub(crate) room: u16,
}

impl Model for MpbBuf {
    ghost use Rattle.std.specs.Prelude.{vec_capacity};
    ghost use Rattle.imsm_buffer.specs.Buffer.{Buffer, IsKept};

    ghost Value = { Buffer };

    ghost view = { λ a. record { bytes = a.bytes.items; room = a.room } };

    ghost invariant = { λ a. IsKept a.bytes.items a.room (vec_capacity a.bytes) };
}

/// A copy of bytes, in memory for so many.
fn taken(alloc: Global, bytes: &[u8], room: u16) -> Result<Vec<u8>, CodecFault>
    requires { length bytes.now ≤ room }
    ensures items { IfOk result (λ copy. copy.items ≡ bytes.now) }
    ensures capacity { IfOk result (λ copy. room ≤ vec_capacity copy) }
{
    let mut copy = Vec::with_capacity(alloc, usize::from(room)).map_err(|_| CodecFault::Memory)?;
    copy.extend_from_slice(bytes)
        .map_err(|_| CodecFault::Memory)?;
    Ok(copy)
}

/// The bytes of a new block.
fn new_bytes() -> [u8; 264]
    ensures { result ≡ bytes_of new_block }
{
    let mut bytes = [0; 264];
    bytes[..30].copy_from_slice(b"Intel Raid ISM Cfg Sig. 1.3.00");
    put_u32(&mut bytes, 0x24, 264);
    put_u32(&mut bytes, 0x2C, 1);
    bytes[0x38] = 1;
    bytes
}

impl MpbBuf {
    /// A new block: one disk record, which is empty, and no volume, with room for so many sectors.
    pub fn new(alloc: Global, sectors: u8) -> Result<MpbBuf, CodecFault>
        requires some { 1 ≤ sectors }
        requires most { sectors ≤ 16 }
        ensures bytes { IfOk result (λ buffer. buffer ≡ record { bytes = bytes_of new_block; room = 512 * sectors }) }
        ensures block { IfOk result (λ buffer. parts_of buffer ≡ new_block) }
    {
        let room = 512 * u16::from(sectors);
        let bytes = taken(alloc, &new_bytes(), room)?;
        Ok(MpbBuf { bytes, room })
    }

    /// A copy of a block, with room for so many bytes.
    pub fn from_ref(alloc: Global, mpb: &MpbRef<'_>, room: u16) -> Result<MpbBuf, CodecFault>
        requires fits { length (block_bytes mpb.now) ≤ room }
        requires most { room ≤ MAX_BLOCK_BYTES }
        ensures { IfOk result (λ buffer. buffer ≡ record { bytes = block_bytes mpb.now; room = room }) }
    {
        let bytes = taken(alloc, mpb.bytes(), room)?;
        Ok(MpbBuf { bytes, room })
    }

    /// The layout over the bytes.
    pub fn parts(&self) -> MpbRef<'_>
        ensures bytes { block_bytes result ≡ self.now.bytes }
        ensures parts { block_of result ≡ parts_of self.now }
    {
        MpbRef::of_laid(&self.bytes)
    }

    /// The block's bytes.
    pub fn bytes(&self) -> &[u8]
        ensures bytes { result.now ≡ self.now.bytes }
        ensures fits { length result.now ≤ self.now.room }
        ensures most { self.now.room ≤ MAX_BLOCK_BYTES }
    {
        &self.bytes
    }

    /// Makes another block equal to this one, in the room that it has.
    pub fn copy_into(&self, other: &mut MpbBuf) -> Result<(), NoRoom>
        ensures ok { OnOk result (other.new ≡ record other.old { bytes = self.now.bytes }) }
        ensures err { OnErr result (other.new ≡ other.old) }
        // It is refused exactly where it doesn't fit.
        ensures variant { IsOk result ↔ (length self.now.bytes ≤ other.old.room) }
        ensures told { IfErr result (λ e. (e.needed ≡ length self.now.bytes) × (e.room ≡ other.old.room)) }
    {
        other.load(&self.parts())
    }

    /// Makes this block equal to another one, in the room that it has.
    pub fn load(&mut self, mpb: &MpbRef<'_>) -> Result<(), NoRoom>
        ensures ok { OnOk result (self.new ≡ record self.old { bytes = block_bytes mpb.now }) }
        ensures err { OnErr result (self.new ≡ self.old) }
        // It is refused exactly where it doesn't fit.
        ensures variant { IsOk result ↔ (length (block_bytes mpb.now) ≤ self.old.room) }
        ensures told { IfErr result (λ e. (e.needed ≡ length (block_bytes mpb.now)) × (e.room ≡ self.old.room)) }
    {
        let needed = mpb.bytes().len() as u16;
        if needed > self.room {
            return Err(NoRoom {
                needed,
                room: self.room,
            });
        }
        self.bytes.clear();
        self.bytes.extend_from_slice(mpb.bytes()).unwrap();
        Ok(())
    }

    /// Makes the size and the checksum right.
    pub fn seal(&mut self)
        ensures bytes { self.new ≡ record self.old { bytes = sealed self.old.bytes } }
        ensures block { parts_of self.new
            ≡ block_sealed (parts_of self.old) (length self.old.bytes) (block_sum (sized self.old.bytes)) }
        // So the conditions of a whole block on its size and its checksum hold.
        ensures sized { IsSize (size_of (parts_of self.new)) }
        ensures given { size_of (parts_of self.new) ≡ length self.new.bytes }
        ensures summed { checksum_of (parts_of self.new) ≡ block_sum self.new.bytes }
    {
        let size = self.bytes.len() as u32;
        put_u32(&mut self.bytes, 0x24, size);
        let sum = sum_of(&self.bytes);
        put_u32(&mut self.bytes, 0x20, sum);
    }

    /// The block's first sector, with zeros behind the block's end: what is written to a disk as the anchor.
    pub fn anchor(&self) -> Sector
        ensures { result.0 ≡ first_sector self.now.bytes }
    {
        let mut sector = [0; SECTOR_BYTES];
        let len = self.bytes.len().min(SECTOR_BYTES);
        sector[..len].copy_from_slice(&self.bytes[..len]);
        Sector(sector)
    }
}
