//! How many device calls a run makes: for each entry of its journal no more than so many. So no run makes calls without
//! an end, and one that is full is full for want of room in its journal.
//!
//! The one function has the law as its contract and nothing to run. `stage_law` promises it of a stage.
#![tactic(auto)]

ghost use Rattle.std.specs.Prelude.{ℕ, ◌*◌, ◌≤◌, length};
ghost use Rattle.array_model.specs.Renewal.{FitsGeneration};
ghost use Rattle.stage_machine.specs.Setting.{Setting, Renews};
ghost use Rattle.stage_machine.specs.Opens.{StandsOnAll};
ghost use Rattle.stage_machine.specs.Machine.{World, Reached};

/// Where a round writes to so many disks, and the volume has so many, a run makes for each entry of its journal at most
/// as many calls as a round or a write needs: twice as many as there are disks.
pub fn call_law()
    ensures { (S : Setting) (w : World) (b : ℕ) → Renews S → StandsOnAll S
        → 2 * length S.targets ≤ b → 2 * length S.members ≤ b
        → FitsGeneration w.control.round.note → Reached S w → w.calls ≤ b * length w.journal }
{}
