//! The law on orders of arrival.
ghost use Rattle.std.specs.Prelude.{◌≡◌, ◌↔◌, Bool, Contains, List};
ghost use Rattle.std.specs.List.Sorted.{IsPermutation};
ghost use Rattle.container.specs.declared.seen.Seen.{Seen as SeenDisk};
ghost use Rattle.container.specs.declared.verdict.Verdict.{Verdict as Judged};
ghost use Rattle.container.specs.Verdicts.{IsVerdict};
ghost use Rattle.incremental.specs.Arrivals.{AreDistinct, IsRising, arrived};

/// Of disks with distinct numbers that arrive in any two orders the same is kept, so that any verdict on the one is a
/// verdict on the other: just those disks, in the order of their numbers.
pub fn the_order_of_arrival_is_lost()
    ensures same { (xs ys : List SeenDisk) → AreDistinct xs → IsPermutation xs ys → arrived xs ≡ arrived ys }
    ensures verdict { (xs ys : List SeenDisk) (run : Bool) (verdict : Judged) → AreDistinct xs → IsPermutation xs ys
        → IsVerdict (arrived xs) run verdict ↔ IsVerdict (arrived ys) run verdict }
    ensures all { (xs : List SeenDisk) (s : SeenDisk) → AreDistinct xs → Contains (arrived xs) s ↔ Contains xs s }
    ensures order { (xs : List SeenDisk) → IsRising (arrived xs) }
{}
