//! Whether a container is of the first form: two disks, and one clean volume of two copies.
ghost use Rattle.std.specs.Prelude.{◌≡◌, ◌<◌, ◌≤◌, ◌↔◌, IsTrue};
ghost use Rattle.std.specs.List.{list_all};
ghost use Rattle.imsm_base.specs.Layout.{volume_count_of, map_state_of};
ghost use Rattle.imsm_base.specs.Whole.{is_expected};
ghost use Rattle.imsm_base.specs.FirstForm.{IsFirstForm, IsCleanMirror};
ghost use Rattle.imsm_codec.specs.Mpb.{block_of, volume_at};

use crate::disk::is_expected;
use crate::mpb::MpbRef;
use crate::words::{
    all_hold, has_geometry, has_good_slots, has_pass, has_policy, is_any_out, is_level_one,
};
use units::{FIRST_GENERATION_REFUSED, SECTOR_BYTES, VolNo};

/// Whether each disk record is expected.
fn are_all_expected(mpb: &MpbRef<'_>) -> bool
    ensures { result ≡ list_all is_expected (block_of mpb.now).disks }
{
    for i in 0..mpb.disks() {
        if !is_expected(mpb.record_bytes(i)) {
            return false;
        }
    }
    true
}

/// Whether the one volume is a mirror that is clean, with no pass, and in sync.
#[tactic(auto, using(crate::proofs::Places::some_map))]
fn is_clean_mirror(mpb: &MpbRef<'_>) -> bool
    requires { volume_count_of (block_of mpb.now) ≡ 1 }
    ensures { IsTrue result ↔ IsCleanMirror (block_of mpb.now) (volume_at 0 (block_of mpb.now)) }
{
    let v = VolNo(0);
    if !is_level_one(mpb, v) || has_pass(mpb, v) {
        return false;
    }
    let policy = has_policy(mpb, v);
    let dirty = mpb.dirty(v);
    let normal = mpb.map_state(v, 0) == 0;
    let slots = has_good_slots(mpb, v);
    let geometry = has_geometry(mpb, v);
    let out = is_any_out(mpb, v);
    all_hold(&[policy, !dirty, normal, slots, geometry, !out])
}

/// Whether the container is of the first form.
pub fn is_first_form(mpb: &MpbRef<'_>) -> bool
    ensures { IsTrue result ↔ IsFirstForm (block_of mpb.now) }
{
    if mpb.volumes() != 1 {
        return false;
    }
    let one_sector = usize::from(mpb.size()) <= SECTOR_BYTES;
    let no_tail = mpb.tail_size() == 0;
    let startable = mpb.generation() < FIRST_GENERATION_REFUSED;
    let two_disks = mpb.disks() == 2;
    let expected = are_all_expected(mpb);
    let mirror = is_clean_mirror(mpb);
    all_hold(&[one_sector, no_tail, startable, two_disks, expected, mirror])
}
