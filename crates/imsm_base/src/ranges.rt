//! A law on the ranges of volumes.
ghost use Rattle.std.specs.Prelude.{◌≡◌, ◌↔◌, ℕ, true, false};
ghost use Rattle.imsm_base.specs.Layout.{Map, blocks_per_member_of};
ghost use Rattle.imsm_base.specs.Volumes.{IsInRange, do_meet};

/// The ranges of two volumes meet exactly where some sector lies in both. So an empty range meets none, wherever its
/// place is.
pub fn ranges_meet_in_a_sector()
    ensures met { (m other : Map) → (do_meet m other ≡ true)
        ↔ ((sector : ℕ) × IsInRange sector m × IsInRange sector other) }
    ensures empty { (m other : Map) → blocks_per_member_of other ≡ 0 → do_meet m other ≡ false }
{}
