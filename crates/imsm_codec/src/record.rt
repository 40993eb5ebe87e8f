//! The readers of disk records (`struct imsm_disk` of super-intel.c).
ghost use Rattle.std.specs.Prelude.{◌≡◌, ◌<◌, ◌≤◌, length};
ghost use Rattle.imsm_base.specs.Layout.{disk_lengths, disk_count_of, serial_of, total_blocks_of, status_of};
ghost use Rattle.imsm_base.specs.Parts.{cut_at};
ghost use Rattle.imsm_codec.specs.Mpb.{block_of, disk_at};

use crate::bytes::{get_name, get_wide};
use crate::disk::record_at;
use crate::mpb::MpbRef;
use imsm_base::get_u32;
use units::Serial;

impl MpbRef<'_> {
    /// The bytes from a disk's record on.
    #[tactic(auto, unfolding(imsm_base::specs::Parts::block_in))]
    pub(crate) fn record_bytes(&self, i: u8) -> &[u8]
        requires { i < disk_count_of (block_of self.now) }
        ensures disk { cut_at 0 disk_lengths result.now ≡ disk_at i (block_of self.now) }
        ensures room { 48 ≤ length result.now }
    {
        record_at(self.bytes, i)
    }

    /// A disk's serial, by the index of its record.
    pub fn disk_serial(&self, i: u8) -> Serial
        requires { i < disk_count_of (block_of self.now) }
        ensures { result.0 ≡ serial_of (disk_at i (block_of self.now)) }
    {
        Serial(get_name(self.record_bytes(i), 0))
    }

    /// How many sectors a disk has by its record (`total_blocks`).
    pub fn disk_blocks(&self, i: u8) -> u64
        requires { i < disk_count_of (block_of self.now) }
        ensures { result ≡ total_blocks_of (disk_at i (block_of self.now)) }
    {
        get_wide(self.record_bytes(i), 16, 32)
    }

    /// The bits of a disk's status: 1 spare, 2 configured, 4 failed.
    pub fn disk_status(&self, i: u8) -> u32
        requires { i < disk_count_of (block_of self.now) }
        ensures { result ≡ status_of (disk_at i (block_of self.now)) }
    {
        get_u32(self.record_bytes(i), 24)
    }
}
