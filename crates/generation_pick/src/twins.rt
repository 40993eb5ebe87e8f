//! Blocks of one generation that differ.
ghost use Rattle.std.specs.Prelude.{◌≡◌, ◌≤◌, ◌↔◌, ◌⊎◌, All, IsTrue, MatchOption};
ghost use Rattle.generation_pick.specs.Found.{AreTwins, HasNoTwins, HasTwins};
ghost use Rattle.generation_pick.specs.Steps.{IsLeastTwin, IsUpTo};

use crate::found::FoundAt;
use units::DiskNo;

/// A disk, and one that has a twin of its block.
#[derive(Clone, Copy)]
pub(crate) struct Pair {
    pub(crate) disk: DiskNo,
    pub(crate) twin: DiskNo,
}

/// Whether blocks have one generation and other bytes.
fn are_twins(one: &FoundAt<'_>, other: &FoundAt<'_>) -> bool
    ensures { IsTrue result ↔ AreTwins one.now other.now }
{
    one.mpb.generation() == other.mpb.generation() && one.mpb.bytes() != other.mpb.bytes()
}

/// The lower of two disks, of which the first may not be there.
fn lower(least: Option<DiskNo>, disk: DiskNo) -> DiskNo
    ensures { MatchOption least (result ≡ disk)
        (λ old. ((result ≡ old) ⊎ (result ≡ disk)) × (result.0 ≤ old.0) × (result.0 ≤ disk.0)) }
{
    match least {
        Some(old) if old.0 <= disk.0 => old,
        _ => disk,
    }
}

/// The lowest disk that has a twin of an entry's block.
fn twin_of(list: &[FoundAt<'_>], entry: &FoundAt<'_>) -> Option<DiskNo>
    ensures { MatchOption result (All (λ g. AreTwins entry.now g → ⊥) list.now)
        (λ e. IsLeastTwin entry.now list.now e.0) }
{
    let mut least = None;
    for other in list {
        if are_twins(entry, other) {
            least = Some(lower(least, other.disk));
        }
    }
    least
}

/// Whether a pair doesn't come behind another: by its disk, or by its twin where the disk is the same.
fn is_up_to(pair: &Pair, other: &Pair) -> bool
    ensures { IsTrue result ↔ IsUpTo pair.now other.now }
{
    pair.disk.0 < other.disk.0 || pair.disk.0 == other.disk.0 && pair.twin.0 <= other.twin.0
}

/// The one of two pairs that comes first, of which the first may not be there.
fn sooner(first: Option<Pair>, pair: Pair) -> Pair
    ensures { MatchOption first (result ≡ pair)
        (λ old. ((result ≡ old) ⊎ (result ≡ pair)) × IsUpTo result old × IsUpTo result pair) }
{
    match first {
        Some(old) if is_up_to(&old, &pair) => old,
        _ => pair,
    }
}

/// The lowest disk with a block that has a twin, and the lowest disk of its twins.
pub(crate) fn first_twins(list: &[FoundAt<'_>]) -> Option<Pair>
    ensures { MatchOption result (HasNoTwins list.now) (λ p. HasTwins list.now p.disk.0 p.twin.0) }
{
    let mut first = None;
    for entry in list {
        if let Some(twin) = twin_of(list, entry) {
            let disk = entry.disk;
            first = Some(sooner(first, Pair { disk, twin }));
        }
    }
    first
}
