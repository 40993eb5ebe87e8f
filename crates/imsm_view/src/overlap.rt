//! Whether two volumes take the same sectors of a disk.
ghost use Rattle.std.specs.Prelude.{◌≡◌, ◌+◌, ◌<◌, nat_lt, Some, None, MatchOption};
ghost use Rattle.std.specs.List.{list_any};
ghost use Rattle.imsm_base.specs.Layout.{volume_count_of};
ghost use Rattle.imsm_base.specs.Volumes.{first_map, members, has_index, do_meet, is_over};
ghost use Rattle.imsm_codec.specs.Mpb.{block_of, volume_at};
ghost use Rattle.imsm_view.specs.Views.{overlap_of};

use crate::slot::{has_index, index_of, slot_count};
use imsm_codec::MpbRef;
use units::{Slot, VolNo};

/// Whether a sector lies before the end of a range.
fn is_before_end(sector: u64, first: u64, length: u64) -> bool
    ensures { result ≡ nat_lt sector (first + length) }
{
    sector < first || sector - first < length
}

/// Whether the ranges of two volumes meet.
#[tactic(auto, using(imsm_codec::proofs::Places::some_map))]
fn do_meet(mpb: &MpbRef<'_>, v: VolNo, other: VolNo) -> bool
    requires volume { v.0 < volume_count_of (block_of mpb.now) }
    requires other { other.0 < volume_count_of (block_of mpb.now) }
    ensures { result ≡ do_meet (first_map (volume_at v.0 (block_of mpb.now)))
        (first_map (volume_at other.0 (block_of mpb.now))) }
{
    let one = mpb.map_pba(v, 0);
    let two = mpb.map_pba(other, 0);
    let first = one.max(two);
    is_before_end(first, one, mpb.map_blocks(v, 0))
        && is_before_end(first, two, mpb.map_blocks(other, 0))
}

/// Whether two volumes have a disk index in common.
fn share_disk(mpb: &MpbRef<'_>, v: VolNo, other: VolNo) -> bool
    requires volume { v.0 < volume_count_of (block_of mpb.now) }
    requires other { other.0 < volume_count_of (block_of mpb.now) }
    ensures { result ≡ list_any (has_index (volume_at other.0 (block_of mpb.now)))
        (members (volume_at v.0 (block_of mpb.now))) }
{
    for slot in 0..slot_count(mpb, v) {
        if has_index(mpb, other, index_of(mpb, v, Slot(slot))) {
            return true;
        }
    }
    false
}

fn is_over(mpb: &MpbRef<'_>, v: VolNo, other: VolNo) -> bool
    requires volume { v.0 < volume_count_of (block_of mpb.now) }
    requires other { other.0 < volume_count_of (block_of mpb.now) }
    ensures { result ≡ is_over (volume_at v.0 (block_of mpb.now)) (volume_at other.0 (block_of mpb.now)) }
{
    share_disk(mpb, v, other) && do_meet(mpb, v, other)
}

/// The first other volume that takes sectors of this one.
pub(crate) fn overlap_of(mpb: &MpbRef<'_>, v: VolNo) -> Option<VolNo>
    requires { v.0 < volume_count_of (block_of mpb.now) }
    ensures { MatchOption result (overlap_of (block_of mpb.now) v.0 (volume_at v.0 (block_of mpb.now)) ≡ None)
        (λ other. overlap_of (block_of mpb.now) v.0 (volume_at v.0 (block_of mpb.now)) ≡ Some other.0) }
{
    for other in 0..mpb.volumes() {
        if other != v.0 && is_over(mpb, v, VolNo(other)) {
            return Some(VolNo(other));
        }
    }
    None
}
