//! For each law a short trace that meets it, and one that doesn't. They are proved, not run.
ghost use Rattle.array_model.specs.Form.{IsJournal};
ghost use Rattle.array_model.specs.Rounds.{EndsOnWorking};
ghost use Rattle.array_model.specs.RoundBlocks.{RoundsAreRenewed};
ghost use Rattle.array_model.specs.WriteGate.{WriteGate};
ghost use Rattle.array_model.specs.FailureLaw.{FailureLaw};
ghost use Rattle.array_model.specs.AnswerLaw.{AnswerLaw};
ghost use Rattle.array_model.specs.RowCalls.{AnswersFromRows, CallsHaveCauses};
ghost use Rattle.array_model.specs.Causes.{AreCaused};
ghost use Rattle.array_model.specs.Rests.{HasComeToRest};
ghost use Rattle.array_model.specs.Small.{small_start, the_script, write_and_read, worked_log, worked_journal, early_journal, stale_journal, falling_journal, failing_log, failing_journal, hidden_journal, hasty_journal, lone_log, unsynced_log, unread_log, scribbled_log, pending_log, pending_journal, unspread_log, unsettled_log, twins_log, twins_journal, small_renew, needless_journal, skipping_journal, faulty_journal, refused_journal, valueless_journal, eager_journal, unrecorded_journal};

/// The journal of one write and one read has the form of a journal. One whose stamp falls hasn't.
pub fn example_of_the_journal_form()
    ensures meets { IsJournal small_start the_script 17 worked_journal }
    ensures falls { IsJournal small_start the_script 17 falling_journal → ⊥ }
{}

/// Each round of one write and one read is durable on both members when it ends. A round whose block was written to
/// one member alone isn't, nor is one whose last sync failed. Where the blocks of a round differ, one isn't the
/// round's, also if the round never ends.
pub fn example_of_the_rounds()
    ensures meets { EndsOnWorking small_start worked_log worked_journal }
    ensures unspread { EndsOnWorking small_start unspread_log worked_journal → ⊥ }
    ensures unsettled { EndsOnWorking small_start unsettled_log worked_journal → ⊥ }
    ensures twins { RoundsAreRenewed small_renew small_start write_and_read twins_log twins_journal → ⊥ }
{}

/// One write and one read meet the write gate law. With `active` after the first member's sync they don't.
pub fn example_of_the_write_gate()
    ensures meets { WriteGate small_start write_and_read worked_log worked_journal }
    ensures early { WriteGate small_start write_and_read worked_log early_journal → ⊥ }
{}

/// A write that one member fails, acknowledged once the failure is recorded, meets the failure law. Where the failed
/// call is hidden, or the write is acknowledged before the failure is durable, it doesn't.
pub fn example_of_the_failure_law()
    ensures meets { FailureLaw small_start write_and_read failing_log failing_journal }
    ensures hidden { FailureLaw small_start write_and_read failing_log hidden_journal → ⊥ }
    ensures hasty { FailureLaw small_start write_and_read failing_log hasty_journal → ⊥ }
{}

/// One write and one read meet the answer law. With the opening value in place of the written one they don't.
pub fn example_of_the_answer_law()
    ensures meets { AnswerLaw small_start the_script worked_log worked_journal }
    ensures stale { AnswerLaw small_start the_script worked_log stale_journal → ⊥ }
{}

/// The answers of one write and one read come from calls on their row, and each call has its cause. Where the second
/// member isn't written, or its last sync fails, or no row is read, the answers don't. Where the row is written over
/// behind the last entry, or while its volume is write-pending, that call has no cause.
pub fn example_of_the_row_calls()
    ensures answers { AnswersFromRows small_start write_and_read worked_log worked_journal }
    ensures causes { CallsHaveCauses small_start write_and_read worked_log worked_journal }
    ensures lone { AnswersFromRows small_start write_and_read lone_log worked_journal → ⊥ }
    ensures unsynced { AnswersFromRows small_start write_and_read unsynced_log worked_journal → ⊥ }
    ensures unread { AnswersFromRows small_start write_and_read unread_log worked_journal → ⊥ }
    ensures scribbled { CallsHaveCauses small_start write_and_read scribbled_log worked_journal → ⊥ }
    ensures pending { CallsHaveCauses small_start write_and_read pending_log pending_journal → ⊥ }
{}

/// Each entry of one write and one read has its cause. A round that skips generations, or that nothing makes due, has
/// none, nor has a fault today, a sector of the volume that is said to lie past its end, a read that is done without a
/// value, a write before the volume is ready, or a volume that is active while its round goes on.
pub fn example_of_the_causes()
    ensures meets { AreCaused small_start write_and_read worked_journal }
    ensures needless { AreCaused small_start write_and_read needless_journal → ⊥ }
    ensures skipping { AreCaused small_start write_and_read skipping_journal → ⊥ }
    ensures faulty { AreCaused small_start write_and_read faulty_journal → ⊥ }
    ensures refused { AreCaused small_start write_and_read refused_journal → ⊥ }
    ensures valueless { AreCaused small_start write_and_read valueless_journal → ⊥ }
    ensures eager { AreCaused small_start write_and_read eager_journal → ⊥ }
    ensures early { AreCaused small_start write_and_read early_journal → ⊥ }
{}

/// One write and one read come to rest. Before the last round, which records the volume as clean, they haven't.
pub fn example_of_the_rest()
    ensures meets { HasComeToRest small_start write_and_read worked_journal }
    ensures unrecorded { HasComeToRest small_start write_and_read unrecorded_journal → ⊥ }
{}
