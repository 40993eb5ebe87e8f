//! Bytes that are pushed behind others.
ghost use Rattle.std.specs.Prelude.{◌≡◌, ◌+◌, ◌/◌, ◌%◌, ◌^◌, ◌++◌, OnOk};
ghost use Rattle.byteorder.specs.Endian.{little_bytes};
ghost use Rattle.new_container.specs.Created.{low_half, high_half};

use imsm_base::{put_u16, put_u32};
use imsm_buffer::CodecFault;

/// Pushes bytes.
pub(crate) fn push(bytes: &mut Vec<u8>, part: &[u8]) -> Result<(), CodecFault>
    ensures { OnOk result (bytes.new.items ≡ bytes.old.items ++ part.now) }
{
    bytes
        .extend_from_slice(part)
        .map_err(|_| CodecFault::Memory)
}

/// Pushes a number of two bytes.
pub(crate) fn push_u16(bytes: &mut Vec<u8>, number: u16) -> Result<(), CodecFault>
    ensures { OnOk result (bytes.new.items ≡ bytes.old.items ++ little_bytes 2 number) }
{
    let mut part = [0; 2];
    put_u16(&mut part, 0, number);
    push(bytes, &part)
}

/// Pushes a number of four bytes.
pub(crate) fn push_u32(bytes: &mut Vec<u8>, number: u32) -> Result<(), CodecFault>
    ensures { OnOk result (bytes.new.items ≡ bytes.old.items ++ little_bytes 4 number) }
{
    let mut part = [0; 4];
    put_u32(&mut part, 0, number);
    push(bytes, &part)
}

/// Pushes the low half of a number, in four bytes.
pub(crate) fn push_low_half(bytes: &mut Vec<u8>, number: u64) -> Result<(), CodecFault>
    ensures { OnOk result (bytes.new.items ≡ bytes.old.items ++ low_half number) }
{
    push_u32(bytes, (number % (1 << 32)) as u32)
}

/// Pushes the high half of a number, in four bytes.
pub(crate) fn push_high_half(bytes: &mut Vec<u8>, number: u64) -> Result<(), CodecFault>
    ensures { OnOk result (bytes.new.items ≡ bytes.old.items ++ high_half number) }
{
    push_u32(bytes, (number >> 32) as u32)
}
