//! How far volumes and their maps reach (`sizeof_imsm_dev` and `sizeof_imsm_map` of super-intel.c).
ghost use Rattle.std.specs.Prelude.{◌≡◌, ◌+◌, ◌*◌, ◌<◌, ◌≤◌, ℕ, length, drop, MatchResult};
ghost use Rattle.imsm_base.specs.Fields.{number_at};
ghost use Rattle.imsm_base.specs.Parts.{map_in, map_room, volume_in, volume_room, behind_disks, behind_volumes};
ghost use Rattle.imsm_codec.specs.Checked.{IsDistinct, IsFilled, HasBlockFault};

use crate::bytes::{behind, get_u8, get_u8_or_zero};
use crate::disk::DISK_BYTES;
use crate::fault::MpbFault;
use units::HEADER_BYTES;

/// Bytes of a volume's record and state, which its maps stand behind (`imsm_dev` of super-intel.c up to its map).
pub const VOLUME_BYTES: usize = 112;

/// Bytes of a map without its entries (`imsm_map` of super-intel.c up to `disk_ord_tbl`).
pub const MAP_BYTES: usize = 48;

/// How many bytes the map takes that these bytes begin with.
pub fn map_len(bytes: &[u8]) -> usize
    ensures room { result ≡ map_room (map_in bytes.now) }
    ensures bound { result < 2048 }
{
    MAP_BYTES + 4 * usize::from(get_u8_or_zero(bytes, 16))
}

/// How many bytes the volume takes that these bytes begin with.
pub(crate) fn volume_len(bytes: &[u8]) -> usize
    ensures room { result ≡ volume_room (volume_in bytes.now) }
    ensures bound { result < 8192 }
{
    let maps = behind(bytes, VOLUME_BYTES);
    let first = map_len(maps);
    if get_u8_or_zero(bytes, 88) == 0 {
        VOLUME_BYTES + first
    } else {
        VOLUME_BYTES + first + map_len(behind(maps, first))
    }
}

/// The bytes behind the disk table.
pub(crate) fn volumes_at(bytes: &[u8]) -> &[u8]
    requires { HEADER_BYTES ≤ length bytes.now }
    ensures { result.now ≡ behind_disks bytes.now }
{
    behind(
        bytes,
        HEADER_BYTES + DISK_BYTES * usize::from(get_u8(bytes, 0x38)),
    )
}

/// The bytes behind the volumes.
pub(crate) fn check_volumes(bytes: &[u8]) -> Result<&[u8], MpbFault>
    requires header { HEADER_BYTES ≤ length bytes.now }
    requires distinct { IsDistinct bytes.now }
    ensures { MatchResult result (λ rest. (rest.now ≡ behind_volumes bytes.now) × IsFilled bytes.now)
        (λ e. HasBlockFault bytes.now e) }
{
    let mut rest = volumes_at(bytes);
    for i in 0..get_u8(bytes, 0x39) {
        let len = volume_len(rest);
        if rest.len() < len {
            return Err(MpbFault::Volume(i));
        }
        rest = behind(rest, len);
    }
    Ok(rest)
}
