//! The fields of a metadata block's header (`struct imsm_super` of super-intel.c).
ghost use Rattle.std.specs.Prelude.{◌≡◌, ◌+◌, ◌*◌, ◌^◌, ◌<◌, ◌≤◌, length, take, drop};
ghost use Rattle.units.specs.declared.bounds.TheConstants.{MAX_BLOCK_BYTES};
ghost use Rattle.imsm_base.specs.Layout.{size_of, checksum_of, family_of, orig_family_of, generation_of, attributes_of, disk_count_of, volume_count_of, tail_size_of};
ghost use Rattle.imsm_codec.specs.Laid.{IsLaid};
ghost use Rattle.imsm_codec.specs.Mpb.{block_bytes, block_of};

use crate::bytes::get_u8;
use crate::mpb::MpbRef;
use imsm_base::get_u32;

impl<'a> MpbRef<'a> {
    /// A view of bytes that are laid out as a block's.
    pub fn of_laid(bytes: &'a [u8]) -> MpbRef<'a>
        requires laid { IsLaid bytes.now }
        requires short { length bytes.now ≤ MAX_BLOCK_BYTES }
        ensures { block_bytes result ≡ bytes.now }
    {
        MpbRef { bytes }
    }

    /// The bytes of the block, `mpb_size` of them.
    pub fn bytes(&self) -> &'a [u8]
        ensures bytes { result.now ≡ block_bytes self.now }
        ensures most { length result.now ≤ MAX_BLOCK_BYTES }
    {
        self.bytes
    }
}

#[tactic(auto, unfolding(imsm_base::specs::Parts::block_in))]
impl MpbRef<'_> {
    /// `mpb_size`, in bytes.
    pub fn size(&self) -> u16
        ensures { result ≡ size_of (block_of self.now) }
    {
        get_u32(self.bytes, 0x24) as u16
    }

    /// `check_sum`.
    pub fn checksum(&self) -> u32
        ensures { result ≡ checksum_of (block_of self.now) }
    {
        get_u32(self.bytes, 0x20)
    }

    /// `family_num`.
    pub fn family(&self) -> u32
        ensures { result ≡ family_of (block_of self.now) }
    {
        get_u32(self.bytes, 0x28)
    }

    /// `orig_family_num`.
    pub fn orig_family(&self) -> u32
        ensures { result ≡ orig_family_of (block_of self.now) }
    {
        get_u32(self.bytes, 0x40)
    }

    /// `generation_num`.
    pub fn generation(&self) -> u32
        ensures { result ≡ generation_of (block_of self.now) }
    {
        get_u32(self.bytes, 0x2C)
    }

    /// `attributes`.
    pub fn attributes(&self) -> u32
        ensures { result ≡ attributes_of (block_of self.now) }
    {
        get_u32(self.bytes, 0x34)
    }

    /// How many disk records there are (`num_disks`).
    pub fn disks(&self) -> u8
        ensures { result ≡ disk_count_of (block_of self.now) }
    {
        get_u8(self.bytes, 0x38)
    }

    /// How many volumes there are (`num_raid_devs`).
    pub fn volumes(&self) -> u8
        ensures { result ≡ volume_count_of (block_of self.now) }
    {
        get_u8(self.bytes, 0x39)
    }

    /// The size of the tail in bytes (`bbm_log_size`).
    pub fn tail_size(&self) -> u32
        ensures { result ≡ tail_size_of (block_of self.now) }
    {
        get_u32(self.bytes, 0x48)
    }
}
