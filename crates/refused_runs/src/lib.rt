//! What the promise of a run admits, and what it refuses: a run that is right, and beside it those that a careless or
//! a lazy stage would leave. They are proved, not run.
//!
//! Nothing stands on it: it shows of the laws together that they are not too weak. A wrong run that is found to be
//! admitted belongs here, once the laws refuse it.
#![tactic(auto)]

ghost use Rattle.std.specs.Prelude.{ℕ, ◌≡◌, [], ◌∷◌, ◌++◌};
ghost use Rattle.units.specs.declared.disk.DiskNo.{DiskNo};
ghost use Rattle.array_model.specs.declared.journal.Answer.TheVariants.{Done, Value, Past, Failed, NoSpare};
ghost use Rattle.array_model.specs.Small.{zeros, worked_log, worked_journal, early_journal, lone_log, unread_log, scribbled_log, pending_log, pending_journal, unspread_log, unsettled_log, twins_log, twins_journal, needless_journal, small_start, small_renew};
ghost use Rattle.stage.specs.declared.ends.DriveEnd.TheVariants.{Over, Full, Member};
ghost use Rattle.stage_law.specs.Laws.{KeepsLog};
ghost use Rattle.refused_runs.specs.Admitted.{Admits, IsRefused, IsRefusedAs, IsNeverAdmitted};
ghost use Rattle.refused_runs.specs.Wrong.{callless_journal, rows_log, rows_journal, unended_journal, unnamed_journal, undirtied_log, unrecorded_log, going_log, going_journal, broken_log, heedless_journal, two_writes, overwritten_log, overwritten_journal, fault_of, memberless_journal, answered_journal, read_journal, dataless_log, dataless_journal, half_log, half_journal, silent_journal, failed_journal, short_log, short_journal, late_journal, anchor_reads};

use array_model::{
    example_of_the_answer_law, example_of_the_rest, example_of_the_rounds,
    example_of_the_row_calls, example_of_the_write_gate,
};
use rest_law::the_worked_run_rests;
use stage_machine::the_worked_setting_opens;

/// One write and one read, with room for the journal, are admitted as over: 17 calls, 15 entries.
pub fn the_right_run_is_admitted()
    ensures { Admits 1048576 17 worked_log worked_journal Over }
{
    the_worked_setting_opens();
    the_worked_run_rests();
    example_of_the_answer_law();
    example_of_the_rest();
}

/// So is a run that stops for want of room once the write is acknowledged, and one that stops at a call that failed.
pub fn right_stops_are_admitted()
    ensures full { Admits 12 12 short_log short_journal Full }
    ensures member { (d : DiskNo) → d.0 ≡ 1 → Admits 1048576 17 unrecorded_log failed_journal (Member d) }
{
    the_worked_setting_opens();
}

/// Rounds that are said to have ended without a write of their block are refused, however the run is said to end. So
/// are rounds of a generation that isn't the next, whatever calls were made, a round that hasn't ended when the next
/// one begins, one of which no entry speaks, one that has ended while its block stands on one member alone, or isn't
/// synced on the other, one that nothing makes due, and one that breaks off and leaves two blocks.
pub fn forged_rounds_are_refused()
    ensures callless { IsRefused [] (callless_journal 2) }
    ensures skipping { IsNeverAdmitted (callless_journal 99) }
    ensures blockless { IsRefused rows_log rows_journal }
    ensures unended { IsNeverAdmitted unended_journal }
    ensures unnamed { IsRefused worked_log unnamed_journal }
    ensures unspread { IsRefused unspread_log worked_journal }
    ensures unsettled { IsRefused unsettled_log worked_journal }
    ensures needless { IsNeverAdmitted needless_journal }
    ensures twins { IsRefused twins_log twins_journal }
{
    example_of_the_rounds();
}

/// A fault is refused, whatever calls were made: of one member or the other in an otherwise right journal, or of both,
/// so that no law speaks of any. A failed call ends a run, and no run goes on behind a fault.
pub fn forged_faults_are_refused()
    ensures first { IsNeverAdmitted (fault_of 0 ∷ worked_journal) }
    ensures second { IsNeverAdmitted (fault_of 1 ∷ worked_journal) }
    ensures both { IsNeverAdmitted memberless_journal }
{}

/// Refused are a volume that is active after the first member's sync, also where the journal breaks off there, or over
/// blocks that don't say dirty.
pub fn hasty_writes_are_refused()
    ensures early { IsRefused worked_log early_journal }
    ensures going { IsRefused going_log going_journal }
    ensures undirtied { IsRefused undirtied_log worked_journal }
{
    example_of_the_write_gate();
}

/// Refused are operations on the volume that are answered as past it, as failed or as without a spare, a read that is
/// done without a value, and one whose value is the opening's, where a write was acknowledged since.
pub fn wrong_answers_are_refused()
    ensures past { IsNeverAdmitted (answered_journal Past Past) }
    ensures failed { IsNeverAdmitted (answered_journal Failed Failed) }
    ensures no_spare { IsNeverAdmitted (answered_journal NoSpare NoSpare) }
    ensures valueless { IsNeverAdmitted (read_journal Done) }
    ensures stale { IsNeverAdmitted (read_journal (Value zeros)) }
{}

/// Refused are a write that is acknowledged with its data on one member, or on none, a value without a read, a write of
/// a row behind the last entry, and one while its volume is write-pending. A write that another client's overwrites
/// isn't acknowledged behind that.
pub fn wrong_calls_are_refused()
    ensures lone { IsRefused lone_log worked_journal }
    ensures dataless { IsRefused dataless_log dataless_journal }
    ensures unread { IsRefused unread_log worked_journal }
    ensures scribbled { IsRefused scribbled_log worked_journal }
    ensures pending { IsRefused pending_log pending_journal }
    ensures overwritten { KeepsLog small_renew small_start two_writes overwritten_log overwritten_journal → ⊥ }
{
    example_of_the_row_calls();
}

/// A run isn't over where it did nothing, where an operation wasn't submitted or answered, or where the last sync of
/// the round that records the volume as clean failed. It isn't full where it has come to rest, or has room left, and it
/// isn't over behind an entry for which there was no room. It doesn't end on a disk of which no call failed, nor goes
/// on behind the call that failed.
pub fn wrong_ends_are_refused()
    ensures idle { IsRefusedAs Over [] [] }
    ensures half { IsRefusedAs Over half_log half_journal }
    ensures silent { IsRefusedAs Over worked_log silent_journal }
    ensures unrecorded { IsRefusedAs Over unrecorded_log worked_journal }
    ensures rested { IsRefusedAs Full worked_log worked_journal }
    ensures roomy { (calls : ℕ) → Admits 13 calls short_log short_journal Full → ⊥ }
    ensures unheeded { (calls : ℕ) → Admits 8 calls worked_log worked_journal Over → ⊥ }
    ensures heedless { (d : DiskNo) → IsRefusedAs (Member d) broken_log heedless_journal }
    ensures blamed { (d : DiskNo) → IsRefusedAs (Member d) worked_log worked_journal }
    ensures other { (d : DiskNo) → d.0 ≡ 0 → IsRefusedAs (Member d) unrecorded_log failed_journal }
{
    example_of_the_rest();
}

/// The reads of the anchors before a run are none of its calls: stamps that count them are refused, whether the log has
/// them or not.
pub fn wrong_stamps_are_refused()
    ensures late { IsRefused worked_log late_journal }
    ensures counted { IsRefused (anchor_reads ++ worked_log) late_journal }
{}
