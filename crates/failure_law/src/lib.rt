//! The failure law, proved of every run of the machine: no write is acknowledged past a failure that isn't recorded,
//! no failed call is hidden, a round forgets no healthy member, and a checkpoint doesn't stay behind its pass.
//!
//! The machine outlives no failure yet, so what its runs show of the law is that a failed call is the last one. The
//! one function has the law as its contract and nothing to run. `stage_law` promises it of a stage.
#![tactic(auto)]

ghost use Rattle.array_model.specs.FailureLaw.{FailureLaw, EndsAtFailure};
ghost use Rattle.stage_machine.specs.Setting.{Setting};
ghost use Rattle.stage_machine.specs.Machine.{World, Reached};
ghost use Rattle.stage_machine.specs.EachRun.{OfEachRun};

/// Every run of the machine whose generations fit their four bytes meets the failure law: no write is acknowledged past
/// a failure that isn't recorded, no failed call is hidden, a round forgets no healthy member, and a checkpoint doesn't
/// stay behind its pass. The machine outlives no failure yet: a failed call is the last of its run.
pub fn failure_law()
    ensures law { OfEachRun (λ S w. FailureLaw S.start S.asked.ops w.log w.journal) }
    ensures ends { (S : Setting) (w : World) → Reached S w → EndsAtFailure w.log w.journal w.control.failed }
{}
