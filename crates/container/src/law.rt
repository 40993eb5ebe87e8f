//! A law on verdicts.
ghost use Rattle.std.specs.Prelude.{◌≡◌, Bool, List};
ghost use Rattle.container.specs.declared.seen.Seen.{Seen as SeenDisk};
ghost use Rattle.container.specs.declared.verdict.Verdict.{Verdict as Said};
ghost use Rattle.container.specs.Seen.{HaveOwnSerials};
ghost use Rattle.container.specs.Verdicts.{IsVerdict};

/// Disks of which no two have one serial have at most one verdict.
pub fn a_container_has_one_verdict()
    ensures { (seen : List SeenDisk) (run : Bool) (v w : Said) → HaveOwnSerials seen
        → IsVerdict seen run v → IsVerdict seen run w → v ≡ w }
{}
