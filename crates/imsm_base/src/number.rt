//! Little-endian numbers in bytes.
ghost use Rattle.std.specs.Prelude.{◌≡◌, ◌+◌, ◌≤◌, length};
ghost use Rattle.imsm_base.specs.Fields.{number_at, with_number_at};

use byteorder::{ByteOrder, LittleEndian};

/// The number in the two bytes from `at` on.
pub fn get_u16(bytes: &[u8], at: usize) -> u16
    requires { at + 2 ≤ length bytes.now }
    ensures { result ≡ number_at 2 at bytes.now }
{
    LittleEndian::read_u16(&bytes[at..])
}

/// The number in the four bytes from `at` on.
pub fn get_u32(bytes: &[u8], at: usize) -> u32
    requires { at + 4 ≤ length bytes.now }
    ensures { result ≡ number_at 4 at bytes.now }
{
    LittleEndian::read_u32(&bytes[at..])
}

/// Puts a number into the two bytes from `at` on, and leaves all others.
pub fn put_u16(bytes: &mut [u8], at: usize, value: u16)
    requires { at + 2 ≤ length bytes.old }
    ensures { bytes.new ≡ with_number_at 2 at value bytes.old }
{
    LittleEndian::write_u16(&mut bytes[at..at + 2], value);
}

/// Puts a number into the four bytes from `at` on, and leaves all others.
pub fn put_u32(bytes: &mut [u8], at: usize, value: u32)
    requires { at + 4 ≤ length bytes.old }
    ensures { bytes.new ≡ with_number_at 4 at value bytes.old }
{
    LittleEndian::write_u32(&mut bytes[at..at + 4], value);
}
