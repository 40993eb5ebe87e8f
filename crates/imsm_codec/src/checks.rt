//! The check of a metadata block's bytes: each step, in order.
ghost use Rattle.std.specs.Prelude.{◌≡◌, ◌≢◌, ◌+◌, ◌*◌, ◌<◌, ◌≤◌, ◌↔◌, ℕ, length, take, drop, MatchResult, IsOk, IfOk, IsErrOf, IsTrue};
ghost use Rattle.imsm_base.specs.Whole.{block_sum, IsSize, AreCounts, IsWhole, IsWholeBlock};
ghost use Rattle.imsm_codec.specs.Given.{size_in, given_block, IsSigned, IsSized, IsGiven};
ghost use Rattle.imsm_codec.specs.Table.{IsSummed, IsTabled};
ghost use Rattle.imsm_codec.specs.Checked.{IsChecked, HasFrontFault, HasBlockFault};
ghost use Rattle.imsm_codec.specs.Faults.{HasFault};
ghost use Rattle.imsm_codec.specs.declared.fault.MpbFault.{MpbFault as Fault};
ghost use Rattle.imsm_codec.specs.Mpb.{block_bytes, block_of};

use crate::bytes::get_u8;
use crate::disk::{DISK_BYTES, check_serials};
use crate::fault::MpbFault;
use crate::layout::check_volumes;
use crate::mpb::MpbRef;
use crate::tail::check_tail;
use imsm_base::get_u32;
use units::{HEADER_BYTES, MAX_BLOCK_BYTES, MAX_DISKS, MAX_VOLUMES};

/// "Intel Raid ISM Cfg Sig. " (`MPB_SIGNATURE` of super-intel.c).
const SIGNATURE: [u8; 24] = *b"Intel Raid ISM Cfg Sig. ";

fn check_length(bytes: &[u8]) -> Result<(), MpbFault>
    ensures { MatchResult result (λ _. HEADER_BYTES ≤ length bytes.now) (λ e. HasFrontFault bytes.now e) }
{
    if bytes.len() < HEADER_BYTES {
        return Err(MpbFault::Short(bytes.len()));
    }
    Ok(())
}

fn check_signature(bytes: &[u8]) -> Result<(), MpbFault>
    requires { HEADER_BYTES ≤ length bytes.now }
    ensures { MatchResult result (λ _. IsSigned bytes.now) (λ e. HasFrontFault bytes.now e) }
{
    if bytes[..24] != SIGNATURE[..] {
        return Err(MpbFault::Signature);
    }
    Ok(())
}

fn is_size(size: usize) -> bool
    ensures { IsTrue result ↔ IsSize size }
{
    HEADER_BYTES <= size && size <= MAX_BLOCK_BYTES && size % 4 == 0
}

fn check_size(bytes: &[u8]) -> Result<(), MpbFault>
    requires { IsSigned bytes.now }
    ensures { MatchResult result (λ _. IsSized bytes.now) (λ e. HasFrontFault bytes.now e) }
{
    let size = get_u32(bytes, 0x24);
    if !is_size(size as usize) {
        return Err(MpbFault::Size(size));
    }
    Ok(())
}

fn check_given(bytes: &[u8]) -> Result<(), MpbFault>
    requires { IsSized bytes.now }
    ensures { MatchResult result (λ _. IsGiven bytes.now) (λ e. HasFrontFault bytes.now e) }
{
    let size = get_u32(bytes, 0x24);
    if bytes.len() < size as usize {
        return Err(MpbFault::Cut(size, bytes.len()));
    }
    Ok(())
}

/// The sum of the words of a block, its checksum apart, modulo 2^32.
pub fn sum_of(bytes: &[u8]) -> u32
    ensures { result ≡ block_sum bytes.now }
{
    let mut sum: u32 = 0;
    for word in 0..bytes.len() / 4 {
        if word != 8 {
            sum = sum.wrapping_add(get_u32(bytes, 4 * word));
        }
    }
    sum
}

fn check_sum(bytes: &[u8]) -> Result<(), MpbFault>
    requires { HEADER_BYTES ≤ length bytes.now }
    ensures { MatchResult result (λ _. IsSummed bytes.now) (λ e. HasBlockFault bytes.now e) }
{
    let kept = get_u32(bytes, 0x20);
    let summed = sum_of(bytes);
    if kept != summed {
        return Err(MpbFault::Checksum(kept, summed));
    }
    Ok(())
}

fn are_counts(disks: u8, volumes: u8) -> bool
    ensures { IsTrue result ↔ AreCounts disks volumes }
{
    disks != 0 && usize::from(disks) <= MAX_DISKS && usize::from(volumes) <= MAX_VOLUMES
}

fn check_counts(bytes: &[u8]) -> Result<(), MpbFault>
    requires header { HEADER_BYTES ≤ length bytes.now }
    requires summed { IsSummed bytes.now }
    ensures { MatchResult result (λ _. IsTabled bytes.now) (λ e. HasBlockFault bytes.now e) }
{
    let disks = get_u8(bytes, 0x38);
    let volumes = get_u8(bytes, 0x39);
    if are_counts(disks, volumes) && HEADER_BYTES + DISK_BYTES * usize::from(disks) <= bytes.len() {
        Ok(())
    } else {
        Err(MpbFault::Counts(disks, volumes))
    }
}

fn check_front(bytes: &[u8]) -> Result<(), MpbFault>
    ensures { MatchResult result (λ _. IsGiven bytes.now) (λ e. HasFrontFault bytes.now e) }
{
    check_length(bytes)?;
    check_signature(bytes)?;
    check_size(bytes)?;
    check_given(bytes)
}

fn check_parts(bytes: &[u8]) -> Result<(), MpbFault>
    requires { HEADER_BYTES ≤ length bytes.now }
    ensures { MatchResult result (λ _. IsChecked bytes.now) (λ e. HasBlockFault bytes.now e) }
{
    check_sum(bytes)?;
    check_counts(bytes)?;
    check_serials(bytes)?;
    let rest = check_volumes(bytes)?;
    check_tail(bytes, rest)
}

/// The metadata block that bytes begin with; bytes behind it are not looked at. Takes no memory. An error is the first
/// condition of `MpbFault`, in the order in which they stand there, that fails.
pub fn check(bytes: &[u8]) -> Result<MpbRef<'_>, MpbFault>
    // What is read is the block that the header speaks of, and it is whole.
    ensures bytes { IfOk result (λ mpb. block_bytes mpb ≡ given_block bytes.now) }
    ensures whole { IfOk result (λ mpb. IsWholeBlock (block_bytes mpb) (block_of mpb)) }
    // A whole block is read.
    ensures ok { IsOk result ↔ IsWhole (given_block bytes.now) }
    // An error is exactly the first condition that fails.
    ensures fault { (e : Fault) → IsErrOf result e ↔ HasFault bytes.now e }
{
    check_front(bytes)?;
    let block = &bytes[..get_u32(bytes, 0x24) as usize];
    check_parts(block)?;
    Ok(MpbRef { bytes: block })
}
