//! The metadata block of a new container.
ghost use Rattle.std.specs.Prelude.{◌≡◌, ◌+◌, ◌*◌, ◌≤◌, ◌<◌, ◌^◌, true, length, All, IfOk, Option};
ghost use Rattle.units.specs.declared.bounds.TheConstants.{HEADER_BYTES};
ghost use Rattle.imsm_base.specs.Layout.{bytes_of};
ghost use Rattle.imsm_base.specs.Whole.{IsWholeBlock};
ghost use Rattle.new_container.specs.Fits.{container_fits};
ghost use Rattle.new_container.specs.Created.{CanCreate, IsDisk, block_with, created_block, created_bytes, created_size};
ghost use Rattle.new_container.specs.Numbered.{numbered, with_family, with_sum};

use crate::container::NewContainer;
use crate::disk::NewDisk;
use crate::parts::{push_disks, push_header, push_volumes};
use imsm_base::put_u32;
use imsm_buffer::{CodecFault, MpbBuf};
use imsm_codec::{check, sum_of};
use std::alloc::Global;

/// How many bytes a block of so many disks and volumes takes.
fn created_size(disks: u8, volumes: u8) -> u32
    ensures { result ≡ created_size disks volumes }
{
    let entries = 4 * u32::from(disks);
    216 + 48 * u32::from(disks) + u32::from(volumes) * (160 + entries)
}

/// The bytes of the block without a number of the family and without a checksum.
fn unnumbered(alloc: Global, made: &NewContainer, disks: &[NewDisk]) -> Result<Vec<u8>, CodecFault>
    requires { container_fits made.now (length disks.now) ≡ true }
    ensures bytes { IfOk result (λ bytes. bytes.items ≡ bytes_of (block_with 0 0 made.now disks.now)) }
    ensures disks { IfOk result (λ _. All IsDisk disks.now) }
{
    let count = disks.len() as u8;
    let volumes = made.volume_count();
    let mut bytes = Vec::new(alloc);
    push_header(&mut bytes, created_size(count, volumes), count, volumes)?;
    push_disks(&mut bytes, disks)?;
    push_volumes(&mut bytes, made, count)?;
    Ok(bytes)
}

/// Puts the number of the family into both its fields.
fn put_family(bytes: &mut [u8], family: u32)
    requires { HEADER_BYTES ≤ length bytes.old }
    ensures { bytes.new ≡ with_family family bytes.old }
{
    put_u32(bytes, 0x28, family);
    put_u32(bytes, 0x40, family);
}

/// Puts the checksum into its field.
fn put_sum(bytes: &mut [u8])
    requires { HEADER_BYTES ≤ length bytes.old }
    ensures { bytes.new ≡ with_sum bytes.old }
{
    let sum = sum_of(bytes);
    put_u32(bytes, 0x20, sum);
}

/// Puts the number of the family in, which is the sum of the bytes where none is given, and then the checksum.
fn number(bytes: &mut [u8], given: Option<u32>)
    requires { HEADER_BYTES ≤ length bytes.old }
    ensures { bytes.new ≡ numbered given bytes.old }
{
    let family = given.unwrap_or(sum_of(bytes));
    put_family(bytes, family);
    put_sum(bytes);
}

/// The bytes of the block.
fn created(alloc: Global, made: &NewContainer, disks: &[NewDisk]) -> Result<Vec<u8>, CodecFault>
    requires { CanCreate made.now disks.now }
    ensures bytes { IfOk result (λ bytes. bytes.items ≡ created_bytes made.now disks.now) }
    ensures whole { IfOk result (λ bytes. IsWholeBlock bytes.items (created_block made.now disks.now)) }
    ensures disks { IfOk result (λ _. All IsDisk disks.now) }
{
    let mut bytes = unnumbered(alloc, made, disks)?;
    number(&mut bytes, made.family);
    Ok(bytes)
}

/// The metadata block of a new container over these disks, in a room of its own size. Memory is the only fault.
pub fn new_block(
    alloc: Global,
    made: &NewContainer,
    disks: &[NewDisk],
) -> Result<MpbBuf, CodecFault>
    requires { CanCreate made.now disks.now }
    ensures bytes { IfOk result (λ buffer. buffer.bytes ≡ created_bytes made.now disks.now) }
    ensures room { IfOk result (λ buffer. buffer.room ≡ length buffer.bytes) }
    ensures whole { IfOk result (λ buffer. IsWholeBlock buffer.bytes (created_block made.now disks.now)) }
    // What the laws on created blocks take of disks.
    ensures disks { IfOk result (λ _. All IsDisk disks.now) }
{
    let bytes = created(alloc, made, disks)?;
    let mpb = check(&bytes).unwrap();
    MpbBuf::from_ref(alloc, &mpb, bytes.len() as u16)
}
