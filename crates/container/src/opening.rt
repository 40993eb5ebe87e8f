//! A container is opened by its newest block.
ghost use Rattle.std.specs.Prelude.{◌≡◌, ◌≤◌, ◌<◌, List, length, IfOk};
ghost use Rattle.std.specs.List.{sum_by};
ghost use Rattle.units.specs.declared.bounds.TheConstants.{MAX_BLOCK_BYTES as MAX_BYTES};
ghost use Rattle.imsm_base.specs.Layout.{volume_count_of};
ghost use Rattle.imsm_base.specs.Volumes.{second_map_bytes};
ghost use Rattle.imsm_base.specs.Whole.{IsWholeBlock};
ghost use Rattle.imsm_codec.specs.Mpb.{block_bytes, block_of, volume_at};
ghost use Rattle.container.specs.declared.missing.Missing.{Missing};
ghost use Rattle.container.specs.Verdicts.{IsOpening, full_size};
ghost use Rattle.container.specs.Volumes.{AreVolumeVerdicts};

use crate::role::roles_of;
use crate::seen::Seen;
use crate::verdict::Opening;
use crate::volume::VolumeVerdict;
use arrayvec::ArrayVec;
use generation_pick::Pick;
use imsm_buffer::MpbBuf;
use imsm_codec::MpbRef;
use std::alloc::{AllocError, Global};
use units::{MAX_VOLUMES, VolNo};

/// How many bytes a second map of a volume would take more.
fn second_map_bytes(mpb: &MpbRef<'_>, v: VolNo) -> u16
    requires { v.0 < volume_count_of (block_of mpb.now) }
    ensures room { result ≡ second_map_bytes (volume_at v.0 (block_of mpb.now)) }
    ensures bound { result ≤ 1068 }
{
    if mpb.maps(v) == 1 {
        48 + 4 * u16::from(mpb.map_members(v, 0))
    } else {
        0
    }
}

/// How many bytes a block takes with a second map for each volume that has none.
pub(crate) fn full_size(mpb: &MpbRef<'_>) -> u16
    requires { IsWholeBlock (block_bytes mpb.now) (block_of mpb.now) }
    ensures { result ≡ full_size (block_of mpb.now) }
{
    let mut size = mpb.size();
    for v in 0..mpb.volumes() {
        size += second_map_bytes(mpb, VolNo(v));
    }
    size
}

/// A container is opened by its newest block, which takes so many bytes with a second map for each volume, and by what
/// is said of its volumes.
pub(crate) fn open(
    alloc: Global,
    mpb: &MpbRef<'_>,
    pick: &Pick,
    seen: &[Seen],
    size: u16,
    volumes: ArrayVec<VolumeVerdict, MAX_VOLUMES>,
) -> Result<Opening, AllocError>
    requires whole { IsWholeBlock (block_bytes mpb.now) (block_of mpb.now) }
    requires few { length seen.now ≤ 16 }
    requires size { size ≡ full_size (block_of mpb.now) }
    requires fits { size ≤ MAX_BYTES }
    ensures volumes { IfOk result (λ o. o.volumes ≡ volumes) }
    ensures opening { IfOk result (λ o. (missing : List Missing)
        → AreVolumeVerdicts (block_of mpb.now) missing volumes.items
        → IsOpening (block_bytes mpb.now) pick.now seen.now missing o) }
{
    Ok(Opening {
        book: MpbBuf::from_ref(alloc, mpb, size).map_err(|_| AllocError)?,
        family: pick.family,
        generation: pick.generation,
        volumes,
        disks: roles_of(mpb, seen),
    })
}
