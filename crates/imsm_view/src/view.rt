//! The view of a volume.
ghost use Rattle.std.specs.Prelude.{◌≡◌, ◌<◌, ◌↔◌, Some, None, IsOk, IfOk, IsErrOf, MatchResult};
ghost use Rattle.imsm_base.specs.Layout.{volume_count_of};
ghost use Rattle.imsm_base.specs.Volumes.{volume_fault};
ghost use Rattle.imsm_codec.specs.Mpb.{block_of, volume_at};
ghost use Rattle.imsm_view.specs.declared.fault.VolumeFault.{VolumeFault as Fault};
ghost use Rattle.imsm_view.specs.Faults.{fault_of};
ghost use Rattle.imsm_view.specs.Views.{IsGeometry, IsVolume};
ghost use Rattle.imsm_view.specs.Questions.{HasWords};

use crate::fault::VolumeFault;
use crate::geometry::geometry_of;
use crate::kind::{has_migration, has_policy, pass_of, volume_level};
use crate::overlap::overlap_of;
use crate::slot::{bad_slot, slots_of};
use crate::volume::Volume;
use imsm_codec::MpbRef;
use units::{Geometry, VolNo};

/// How a volume lies, where nothing is wrong with it.
#[tactic(auto, using(imsm_codec::proofs::Places::some_map))]
fn supported(mpb: &MpbRef<'_>, v: VolNo) -> Result<Geometry, VolumeFault>
    requires { v.0 < volume_count_of (block_of mpb.now) }
    ensures { MatchResult result
        (λ g. (volume_fault (block_of mpb.now) v.0 (volume_at v.0 (block_of mpb.now)) ≡ None)
        × IsGeometry (volume_at v.0 (block_of mpb.now)) g)
        (λ e. volume_fault (block_of mpb.now) v.0 (volume_at v.0 (block_of mpb.now)) ≡ Some (fault_of e)) }
{
    let Some(level) = volume_level(mpb, v) else {
        return Err(VolumeFault::Level(mpb.map_level(v, 0), mpb.map_members(v, 0)));
    };
    if !has_policy(mpb, v) {
        return Err(VolumeFault::Policy(mpb.vol_policy(v)));
    }
    if !has_migration(mpb, v) {
        return Err(VolumeFault::Migration(mpb.migr_type(v)));
    }
    if let Some(slot) = bad_slot(mpb, v) {
        return Err(VolumeFault::DiskIndex(slot));
    }
    let Some(geometry) = geometry_of(mpb, v, level) else {
        return Err(VolumeFault::Geometry);
    };
    if let Some(other) = overlap_of(mpb, v) {
        return Err(VolumeFault::Overlap(other));
    }
    Ok(geometry)
}

#[tactic(auto, using(imsm_codec::proofs::Places::some_map))]
fn view_of(mpb: &MpbRef<'_>, v: VolNo, geometry: Geometry) -> Volume
    requires volume { v.0 < volume_count_of (block_of mpb.now) }
    requires supported { volume_fault (block_of mpb.now) v.0 (volume_at v.0 (block_of mpb.now)) ≡ None }
    requires geometry { IsGeometry (volume_at v.0 (block_of mpb.now)) geometry }
    ensures { IsVolume (block_of mpb.now) (volume_at v.0 (block_of mpb.now)) result }
{
    Volume {
        geometry,
        state: mpb.map_state(v, 0),
        dirty: mpb.dirty(v),
        pass: pass_of(mpb, v),
        unit: mpb.unit(v),
        checkpoint: mpb.checkpoint(v),
        slots: slots_of(mpb, v),
    }
}

/// The view of a volume. Takes no memory. An error is the first condition of `VolumeFault`, in the order in which they
/// stand there, that holds.
pub fn volume_of(mpb: &MpbRef<'_>, v: VolNo) -> Result<Volume, VolumeFault>
    requires { v.0 < volume_count_of (block_of mpb.now) }
    // The view has the fields of the volume, and answers its words.
    ensures volume { IfOk result (λ view. IsVolume (block_of mpb.now) (volume_at v.0 (block_of mpb.now)) view) }
    ensures words { IfOk result (λ view. HasWords (block_of mpb.now) (volume_at v.0 (block_of mpb.now)) view) }
    // There is a view of each volume that nothing is wrong with.
    ensures ok { IsOk result ↔ (volume_fault (block_of mpb.now) v.0 (volume_at v.0 (block_of mpb.now)) ≡ None) }
    // An error is exactly what is wrong first.
    ensures fault { (e : Fault) → IsErrOf result e
        ↔ (volume_fault (block_of mpb.now) v.0 (volume_at v.0 (block_of mpb.now)) ≡ Some (fault_of e)) }
{
    let geometry = supported(mpb, v)?;
    Ok(view_of(mpb, v, geometry))
}
