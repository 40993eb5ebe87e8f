//! Where a block's tables stand (`sizeof_imsm_dev` and `sizeof_imsm_map` of super-intel.c).
ghost use Rattle.std.specs.Prelude.{◌≡◌, ◌+◌, ◌*◌, ◌<◌, ◌≤◌, length};
ghost use Rattle.imsm_base.specs.Layout.{volume_count_of, map_count_of};
ghost use Rattle.imsm_base.specs.Parts.{block_in, volume_room, map_room};
ghost use Rattle.imsm_codec.specs.Laid.{IsLaid};
ghost use Rattle.imsm_codec.specs.Mpb.{volume_at, map_at};
ghost use Rattle.imsm_buffer.specs.Places.{disk_place, volume_place, map_place};

use imsm_codec::{DISK_BYTES, VOLUME_BYTES, behind, map_len, volume_from};
use units::HEADER_BYTES;

/// The place of a disk's record.
pub(crate) fn disk_place(i: u8) -> usize
    ensures { result ≡ disk_place i }
{
    HEADER_BYTES + DISK_BYTES * usize::from(i)
}

/// The place of a volume's record.
pub(crate) fn volume_place(bytes: &[u8], v: u8) -> usize
    requires laid { IsLaid bytes.now }
    requires volume { v < volume_count_of (block_in bytes.now) }
    ensures place { result ≡ volume_place v (block_in bytes.now) }
    ensures inside { result + volume_room (volume_at v (block_in bytes.now)) ≤ length bytes.now }
{
    bytes.len() - volume_from(bytes, v).len()
}

/// The place of a volume's map.
pub(crate) fn map_place(bytes: &[u8], v: u8, m: u8) -> usize
    requires laid { IsLaid bytes.now }
    requires volume { v < volume_count_of (block_in bytes.now) }
    requires map { m < map_count_of (volume_at v (block_in bytes.now)) }
    ensures place { result ≡ map_place v m (block_in bytes.now) }
    ensures inside { result + map_room (map_at m (volume_at v (block_in bytes.now))) ≤ length bytes.now }
{
    let first = volume_place(bytes, v) + VOLUME_BYTES;
    if m == 0 {
        first
    } else {
        first + map_len(behind(bytes, first))
    }
}

/// How many bytes a volume's map takes.
pub(crate) fn map_size(bytes: &[u8], v: u8, m: u8) -> usize
    requires laid { IsLaid bytes.now }
    requires volume { v < volume_count_of (block_in bytes.now) }
    requires map { m < map_count_of (volume_at v (block_in bytes.now)) }
    ensures size { result ≡ map_room (map_at m (volume_at v (block_in bytes.now))) }
    ensures bound { result < 2048 }
{
    map_len(behind(bytes, map_place(bytes, v, m)))
}
