//! Numbers as digits.
ghost use Rattle.std.specs.Prelude.{◌≡◌, ◌++◌, OnOk};
ghost use Rattle.std.specs.Fmt.{decimal};
ghost use Rattle.imsm_text.specs.Text.{hex_byte, hex_number};

use crate::bytes::digits_of;
use itoa::Buffer;
use std::alloc::AllocError;

/// A number as eight hexadecimal digits.
pub fn digits_of_number(value: u32) -> [u8; 8]
    ensures { result ≡ hex_number value }
{
    let mut digits = [0; 8];
    hex::encode_to_slice(value.to_be_bytes(), &mut digits).unwrap();
    digits
}

/// Appends a number as eight hexadecimal digits.
pub fn push_hex_number(out: &mut Vec<u8>, value: u32) -> Result<(), AllocError>
    ensures { OnOk result (out.new.items ≡ out.old.items ++ hex_number value) }
{
    out.extend_from_slice(&digits_of_number(value))
}

/// Appends a number as decimal digits.
pub fn push_number(out: &mut Vec<u8>, value: u64) -> Result<(), AllocError>
    ensures { OnOk result (out.new.items ≡ out.old.items ++ decimal value) }
{
    out.extend_from_slice(Buffer::new().format(value).as_bytes())
}

/// Appends a byte as two hexadecimal digits.
pub fn push_hex_byte(out: &mut Vec<u8>, byte: u8) -> Result<(), AllocError>
    ensures { OnOk result (out.new.items ≡ out.old.items ++ hex_byte byte) }
{
    out.extend_from_slice(&digits_of(byte))
}
