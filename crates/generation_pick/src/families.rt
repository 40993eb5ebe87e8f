//! Whether the blocks of a list are of one family.
ghost use Rattle.std.specs.Prelude.{◌≡◌, All, MatchOption};
ghost use Rattle.generation_pick.specs.Found.{family_at, IsFirstOther};

use crate::found::FoundAt;

/// The first family that isn't this one.
pub(crate) fn other_family(list: &[FoundAt<'_>], family: u32) -> Option<u32>
    ensures { MatchOption result (All (λ f. family_at f ≡ family) list.now)
        (λ other. IsFirstOther family list.now other) }
{
    for entry in list {
        let other = entry.mpb.family();
        if other != family {
            return Some(other);
        }
    }
    None
}
