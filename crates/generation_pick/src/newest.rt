//! The newest block of a list.
ghost use Rattle.std.specs.Prelude.{◌≡◌, ◌↔◌, Contains, IsTrue};
ghost use Rattle.generation_pick.specs.Found.{family_at, generation_at, IsNewest};
ghost use Rattle.generation_pick.specs.Steps.{IsNewer};

use crate::found::{FoundAt, Pick};

/// An entry as it is picked.
fn pick_of(entry: &FoundAt<'_>) -> Pick
    ensures disk { result.disk ≡ entry.now.disk }
    ensures generation { result.generation ≡ generation_at entry.now }
    ensures family { result.family ≡ family_at entry.now }
{
    Pick {
        disk: entry.disk,
        generation: entry.mpb.generation(),
        family: entry.mpb.family(),
    }
}

/// Whether an entry has a higher generation than what was picked, or the same one on a lower disk.
fn is_newer(entry: &FoundAt<'_>, best: &Pick) -> bool
    ensures { IsTrue result ↔ IsNewer entry.now best.now }
{
    let generation = entry.mpb.generation();
    best.generation < generation || generation == best.generation && entry.disk.0 < best.disk.0
}

/// The newest block of a list that has this entry.
pub(crate) fn newest(list: &[FoundAt<'_>], first: &FoundAt<'_>) -> Pick
    requires { Contains list.now first.now }
    ensures { IsNewest list.now result }
{
    let mut best = pick_of(first);
    for entry in list {
        if is_newer(entry, &best) {
            best = pick_of(entry);
        }
    }
    best
}
