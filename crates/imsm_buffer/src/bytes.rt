//! Fields that are put into bytes.
ghost use Rattle.std.specs.Prelude.{◌≡◌, ◌+◌, ◌<◌, ◌≤◌, ◌++◌, length, take, drop};
ghost use Rattle.imsm_base.specs.Fields.{with_number_at};
ghost use Rattle.imsm_buffer.specs.Places.{with_pass_at};

use imsm_base::put_u32;

/// Puts a byte at a place, and leaves all others.
pub(crate) fn put_u8(bytes: &mut [u8], at: usize, value: u8)
    requires { at < length bytes.old }
    ensures { bytes.new ≡ with_number_at 1 at value bytes.old }
{
    bytes[at] = value;
}

/// Puts a name at a place.
pub(crate) fn put_name(bytes: &mut [u8], at: usize, name: &[u8; 16])
    requires { at + 16 ≤ length bytes.old }
    ensures { bytes.new ≡ take at bytes.old ++ (name.now ++ drop (at + 16) bytes.old) }
{
    bytes[at..at + 16].copy_from_slice(name);
}

/// Puts the type of a pass, its unit and the mark of its checkpoint into the volume that stands at a place.
pub(crate) fn put_pass(bytes: &mut [u8], at: usize, kind: u8, unit: u64, mark: u32)
    requires { at + 112 ≤ length bytes.old }
    ensures { bytes.new ≡ with_pass_at at kind unit mark bytes.old }
{
    put_u8(bytes, at + 89, kind);
    put_u32(bytes, at + 84, mark);
    put_u32(bytes, at + 80, (unit % (1 << 32)) as u32);
    put_u32(bytes, at + 96, (unit >> 32) as u32);
}
