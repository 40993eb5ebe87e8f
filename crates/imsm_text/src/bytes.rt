//! Bytes of names as they are printed.
ghost use Rattle.std.specs.Prelude.{◌≡◌, ◌++◌, ◌≤◌, length, OnOk};
ghost use Rattle.std.specs.List.{flat_map};
ghost use Rattle.imsm_text.specs.Text.{hex_byte, escaped, is_printed, without_zeros, name_text};

use crate::number::push_hex_byte;
use std::alloc::AllocError;

/// A byte as two hexadecimal digits.
pub fn digits_of(byte: u8) -> [u8; 2]
    ensures { result ≡ hex_byte byte }
{
    let mut digits = [0; 2];
    hex::encode_to_slice([byte], &mut digits).unwrap();
    digits
}

/// Whether a byte is printed as it is.
pub fn is_plain(byte: u8) -> bool
    ensures { result ≡ is_printed byte }
{
    byte >= 0x21 && byte <= 0x7e && byte != b'\\'
}

/// Appends a byte as it is, or as `\x` and two digits.
pub fn push_escaped(out: &mut Vec<u8>, byte: u8) -> Result<(), AllocError>
    ensures { OnOk result (out.new.items ≡ out.old.items ++ escaped byte) }
{
    if is_plain(byte) {
        out.push(byte)?;
        return Ok(());
    }
    out.extend_from_slice(b"\\x")?;
    push_hex_byte(out, byte)
}

/// The bytes of a name, or of a serial, that are printed: those before the zeros at its end.
pub fn name_bytes(bytes: &[u8]) -> &[u8]
    ensures { result.now ≡ without_zeros bytes.now }
{
    let mut end = bytes.len();
    while end > 0 && bytes[end - 1] == 0 {
        end -= 1;
    }
    &bytes[..end]
}

/// Appends bytes one by one, each as it is or as two digits.
pub fn push_all_escaped(out: &mut Vec<u8>, bytes: &[u8]) -> Result<(), AllocError>
    ensures { OnOk result (out.new.items ≡ out.old.items ++ flat_map escaped bytes.now) }
{
    for byte in bytes {
        push_escaped(out, *byte)?;
    }
    Ok(())
}

/// Appends a name, or a serial, without the zeros at its end.
pub fn push_name(out: &mut Vec<u8>, bytes: &[u8]) -> Result<(), AllocError>
    ensures { OnOk result (out.new.items ≡ out.old.items ++ name_text bytes.now) }
{
    let bytes = name_bytes(bytes);
    if bytes.is_empty() {
        push_escaped(out, 0)
    } else {
        push_all_escaped(out, bytes)
    }
}
