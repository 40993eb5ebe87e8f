//! The pick of a block.
ghost use Rattle.std.specs.Prelude.{MatchResult};
ghost use Rattle.generation_pick.specs.Picks.{HasPickFault, IsPicked};

use crate::families::other_family;
use crate::fault::PickFault;
use crate::found::{FoundAt, Pick};
use crate::newest::newest;
use crate::twins::first_twins;

/// The newest block of those that were found on the disks of one container, in any order of disks. No memory is taken.
///
/// # Errors
/// The first fault of the list: it is empty, or has blocks of two families, or unequal blocks of one generation.
pub fn pick(list: &[FoundAt<'_>]) -> Result<Pick, PickFault>
    // By `picks_and_faults_exclude_one_another` each outcome is there exactly where its cause holds.
    ensures { MatchResult result (λ p. IsPicked list.now p) (λ fault. HasPickFault list.now fault) }
{
    let Some(first) = list.first() else {
        return Err(PickFault::None);
    };
    let family = first.mpb.family();
    if let Some(other) = other_family(list, family) {
        return Err(PickFault::Families(family, other));
    }
    if let Some(pair) = first_twins(list) {
        return Err(PickFault::Twins(pair.disk, pair.twin));
    }
    Ok(newest(list, first))
}
