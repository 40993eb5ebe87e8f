//! The calls on rows that answers come from, and what each call is made for, proved of every run of the machine: what
//! is done was written and synced on the disks of its row and not written over before its answer, what was read was
//! read there, and no call is made for nothing.
//!
//! The one function has the law as its contract and nothing to run. `stage_law` promises it of a stage.
#![tactic(auto)]

ghost use Rattle.array_model.specs.RowCalls.{AnswersFromRows, CallsHaveCauses};
ghost use Rattle.stage_machine.specs.Setting.{Setting};
ghost use Rattle.stage_machine.specs.Opens.{AsksFirst, IsFirstVolume};
ghost use Rattle.stage_machine.specs.Machine.{World, Reached};
ghost use Rattle.stage_machine.specs.EachRun.{OfEachFirstRun};

/// In every run of the machine each write that is done was written on the disks of its place and synced there, and each
/// value comes from a read of its row, since the operation was submitted. Between the write of a row and the answer no
/// call, gone through or not, writes that row of the same disk again. Where the run's generations fit their four bytes,
/// each call, gone through or not, is of the round that goes on, whose block has one sector, or of an operation that is
/// under way; a row is written only while its volume is active.
pub fn row_law()
    ensures answers { (S : Setting) (w : World) → AsksFirst S → IsFirstVolume S → Reached S w
        → AnswersFromRows S.start S.asked.ops w.log w.journal }
    ensures calls { OfEachFirstRun (λ S w. CallsHaveCauses S.start S.asked.ops w.log w.journal) }
{}
