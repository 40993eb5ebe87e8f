//! Disk records (`struct imsm_disk` of super-intel.c).
ghost use Rattle.std.specs.Prelude.{◌≡◌, ◌≢◌, ◌+◌, ◌*◌, ◌<◌, ◌≤◌, ◌↔◌, ℕ, length, take, drop, MatchOption, MatchResult, true, false};
ghost use Rattle.imsm_base.specs.Fields.{number_at};
ghost use Rattle.imsm_base.specs.Layout.{disk_lengths};
ghost use Rattle.imsm_base.specs.Whole.{is_expected};
ghost use Rattle.imsm_base.specs.Parts.{cut_at, block_in};
ghost use Rattle.imsm_codec.specs.Table.{are_twins, are_twins_at, IsTabled};
ghost use Rattle.imsm_codec.specs.Checked.{IsDistinct, HasBlockFault};
ghost use Rattle.imsm_codec.specs.Mpb.{disk_at};

use crate::bytes::{behind, get_u8};
use crate::fault::MpbFault;
use imsm_base::get_u32;
use units::HEADER_BYTES;

/// Bytes of a disk record (`imsm_disk` of super-intel.c).
pub const DISK_BYTES: usize = 48;

/// The bytes from a disk's record on.
pub(crate) fn record_at(bytes: &[u8], i: u8) -> &[u8]
    requires below { i < number_at 1 0x38 bytes.now }
    requires room { 216 + 48 * number_at 1 0x38 bytes.now ≤ length bytes.now }
    ensures disk { cut_at 0 disk_lengths result.now ≡ disk_at i (block_in bytes.now) }
    ensures room { 48 ≤ length result.now }
{
    behind(bytes, HEADER_BYTES + DISK_BYTES * usize::from(i))
}

/// Whether a record is configured and hasn't failed.
pub(crate) fn is_expected(disk: &[u8]) -> bool
    requires { 48 ≤ length disk.now }
    ensures { result ≡ is_expected (cut_at 0 disk_lengths disk.now) }
{
    let status = get_u32(disk, 24);
    (status >> 1) & 1 == 1 && (status >> 2) & 1 == 0
}

fn are_twins(disk: &[u8], other: &[u8]) -> bool
    requires disk { 48 ≤ length disk.now }
    requires other { 48 ≤ length other.now }
    ensures { result ≡ are_twins (cut_at 0 disk_lengths disk.now) (cut_at 0 disk_lengths other.now) }
{
    is_expected(disk) && is_expected(other) && disk[..16] == other[..16]
}

/// The first record behind this one that is expected and has its serial, where this one is expected.
fn twin_of(bytes: &[u8], i: u8) -> Option<u8>
    requires below { i < number_at 1 0x38 bytes.now }
    requires room { 216 + 48 * number_at 1 0x38 bytes.now ≤ length bytes.now }
    ensures { MatchOption result
        ((j : ℕ) → i < j → j < number_at 1 0x38 bytes.now → are_twins_at (block_in bytes.now).disks i j ≡ false)
        (λ j. (i < j) × (j < number_at 1 0x38 bytes.now) × (are_twins_at (block_in bytes.now).disks i j ≡ true)
        × ((l : ℕ) → i < l → l < j → are_twins_at (block_in bytes.now).disks i l ≡ false)) }
{
    let disks = get_u8(bytes, 0x38);
    let disk = record_at(bytes, i);
    for j in i + 1..disks {
        if are_twins(disk, record_at(bytes, j)) {
            return Some(j);
        }
    }
    None
}

/// Answers the first pair of expected records with one serial.
pub(crate) fn check_serials(bytes: &[u8]) -> Result<(), MpbFault>
    requires { IsTabled bytes.now }
    ensures { MatchResult result (λ _. IsDistinct bytes.now) (λ e. HasBlockFault bytes.now e) }
{
    for i in 0..get_u8(bytes, 0x38) {
        if let Some(j) = twin_of(bytes, i) {
            return Err(MpbFault::Serials(i, j));
        }
    }
    Ok(())
}
