//! Checkpoints of passes in every run of the whole machine: a round that begins leaves no checkpoint behind that a pass
//! has come to.
//!
//! It rests on what holds of the metadata on the disks (`array_base`), on what each change of a turn stands behind
//! (`array_form`), and on the one block that each round has (`array_failures`). It follows a run effect by effect.
//! `array_model` has a run that meets the law and one that doesn't (`example_of_a_checkpoint`). The functions have the
//! laws as their contracts and nothing to run.
#![tactic(auto)]

ghost use Rattle.array_base.specs.Laws.{OfEachWorld};
ghost use Rattle.array_model.specs.Events.{AtEach};
ghost use Rattle.array_model.specs.FailureLaw.{BeginCounts, FailureLaw};
ghost use Rattle.array_units.specs.EditUnits.{EditsKeepUnits, RowsLieApart};

/// The unit in the block of each round that begins has come to the last checkpoint (1,024 rows, 8 units) up to each row
/// that the open pass of a volume has read since it began, but for rows that operations name, and for what lies before
/// an update, a failure, a kill or a takeover. Beside the premises of runs it asks that edits leave a pass and its unit
/// alone but where they say so, and that the rows of volumes lie apart.
pub fn rounds_count_what_passes_read()
    ensures { OfEachWorld (λ S P w. EditsKeepUnits S P.edits.formed → RowsLieApart S
        → AtEach (λ front e. BeginCounts S.start S.asked.ops w.log front e.stamp e.event) w.journal) }
{}

/// So each run meets the failure law whole, over the same two premises: acknowledgements stand over recorded failures,
/// no failed call is hidden, no round forgets a healthy member, and no checkpoint stays behind its pass.
pub fn each_run_meets_the_failure_law()
    ensures { OfEachWorld (λ S P w. EditsKeepUnits S P.edits.formed → RowsLieApart S
        → FailureLaw S.start S.asked.ops w.log w.journal) }
{}
