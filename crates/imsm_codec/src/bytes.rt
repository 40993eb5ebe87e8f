//! Fields in bytes.
ghost use Rattle.std.specs.Prelude.{◌≡◌, ◌+◌, ◌*◌, ◌^◌, ◌<◌, ◌≤◌, length, take, drop};
ghost use Rattle.imsm_base.specs.Fields.{number_at};

use imsm_base::get_u32;

/// The byte at a place, as a number.
pub fn get_u8(bytes: &[u8], at: usize) -> u8
    requires { at < length bytes.now }
    ensures { result ≡ number_at 1 at bytes.now }
{
    bytes[at]
}

/// The number whose halves are four bytes each.
pub(crate) fn get_wide(bytes: &[u8], low: usize, high: usize) -> u64
    requires low { low + 4 ≤ length bytes.now }
    requires high { high + 4 ≤ length bytes.now }
    ensures { result ≡ number_at 4 low bytes.now + 2 ^ 32 * number_at 4 high bytes.now }
{
    u64::from(get_u32(bytes, low)) + (u64::from(get_u32(bytes, high)) << 32)
}

/// The 16 bytes from a place on.
pub(crate) fn get_name(bytes: &[u8], at: usize) -> [u8; 16]
    requires { at + 16 ≤ length bytes.now }
    ensures { result ≡ take 16 (drop at bytes.now) }
{
    let mut name = [0; 16];
    name.copy_from_slice(&bytes[at..at + 16]);
    name
}

/// The bytes from a place on, none where it lies past the end.
pub fn behind(bytes: &[u8], at: usize) -> &[u8]
    ensures { result.now ≡ drop at bytes.now }
{
    &bytes[at.min(bytes.len())..]
}

/// The byte at a place, 0 where it lies past the end.
pub(crate) fn get_u8_or_zero(bytes: &[u8], at: usize) -> u8
    ensures { result ≡ number_at 1 at bytes.now }
{
    bytes.get(at).copied().unwrap_or(0)
}
