//! Whether a disk is whole by its metadata block.
ghost use Rattle.std.specs.Prelude.{◌≡◌, ◌<◌, ◌≤◌, ◌↔◌, IsTrue, MatchOption, find, Some, None};
ghost use Rattle.imsm_base.specs.Layout.{disk_count_of};
ghost use Rattle.imsm_base.specs.Whole.{IsWholeBlock, IsWholeDisk, own_record};
ghost use Rattle.imsm_codec.specs.Own.{is_own, FitsDisk};
ghost use Rattle.imsm_codec.specs.Mpb.{block_bytes, block_of, disk_at};

use crate::disk::is_expected;
use crate::mpb::MpbRef;
use units::{METADATA_SECTORS, Serial};

/// Whether a record has the serial, and is expected if that is asked.
fn is_own(mpb: &MpbRef<'_>, i: u8, own: &Serial, only_expected: bool) -> bool
    requires { i < disk_count_of (block_of mpb.now) }
    ensures { result ≡ is_own only_expected own.now.0 (disk_at i (block_of mpb.now)) }
{
    (!only_expected || is_expected(mpb.record_bytes(i))) && mpb.disk_serial(i).0 == own.0
}

/// The first record that has the serial, and is expected if that is asked.
fn first_own(mpb: &MpbRef<'_>, own: &Serial, only_expected: bool) -> Option<u8>
    ensures { MatchOption result (find (is_own only_expected own.now.0) (block_of mpb.now).disks ≡ None)
        (λ i. (i < disk_count_of (block_of mpb.now))
        × (find (is_own only_expected own.now.0) (block_of mpb.now).disks ≡ Some (disk_at i (block_of mpb.now)))) }
{
    for i in 0..mpb.disks() {
        if is_own(mpb, i, own, only_expected) {
            return Some(i);
        }
    }
    None
}

/// The record that speaks for the serial: the expected one that has it, else the first that has it.
pub fn own_record(mpb: &MpbRef<'_>, own: &Serial) -> Option<u8>
    ensures { MatchOption result (own_record own.now.0 (block_of mpb.now) ≡ None)
        (λ i. (i < disk_count_of (block_of mpb.now))
        × (own_record own.now.0 (block_of mpb.now) ≡ Some (disk_at i (block_of mpb.now)))) }
{
    match first_own(mpb, own, true) {
        Some(i) => Some(i),
        None => first_own(mpb, own, false),
    }
}

/// Whether a disk that has this serial and so many sectors is whole by its metadata block: there is room for metadata,
/// the disk table holds the serial, and its record asks for no more sectors than there are.
pub fn is_whole_disk(mpb: &MpbRef<'_>, own: &Serial, sectors: u64) -> bool
    ensures fits { IsTrue result ↔ FitsDisk own.now.0 sectors (block_of mpb.now) }
    ensures whole { IsWholeBlock (block_bytes mpb.now) (block_of mpb.now)
        → IsTrue result ↔ IsWholeDisk own.now.0 sectors (block_bytes mpb.now) (block_of mpb.now) }
{
    match own_record(mpb, own) {
        Some(i) => METADATA_SECTORS <= sectors && mpb.disk_blocks(i) <= sectors,
        None => false,
    }
}
