//! Small journals that meet the laws of causes, and such as don't.

ghost use Rattle.std.specs.Prelude.{◌≡◌, ℕ, []};
ghost use Rattle.array_causes.specs.Answers.{AnswerCauses};
ghost use Rattle.array_causes.specs.Failures.{FailureCauses};
ghost use Rattle.array_causes.specs.PassCauses.{PassCauses};
ghost use Rattle.array_causes.specs.RoundCauses.{RoundCauses};
ghost use Rattle.array_causes.specs.SmallCauses.{
  hasty_unblock,
  taken_over,
  killed_twice,
  sudden_takeover,
  healthy_unblock,
  failing_write,
  faultless_write,
  belated_pending,
  idle_pending,
  hasty_active,
  open_idle,
  early_ready,
  ready_again,
  early_submit,
  broken_submit,
  two_writes,
  active_again,
  open_clean,
  busy_clean,
  lost_round,
  ended_after_kill,
  two_rounds,
  killed_begin,
  passes_in_turn,
  later_row,
  belated_point,
  early_end,
  adds_second,
  spare_added,
  busy_applied,
  killed_posted,
  sudden_spare,
  lost_spare,
  other_spare,
};
ghost use Rattle.array_causes.specs.StateCauses.{StateCauses};
ghost use Rattle.array_causes.specs.Unblocks.{UnblocksAreRecorded};
ghost use Rattle.array_causes.specs.UpdateCauses.{UpdateCauses};
ghost use Rattle.array_model.specs.Small.{
  small_start,
  write_and_read,
  worked_journal,
  skipping_journal,
  refused_journal,
  valueless_journal,
  failing_log,
  failing_journal,
  faulty_journal,
  worked_log,
};
ghost use Rattle.array_model.specs.SmallFailures.{untold_log, late_journal};

/// One write and one read are answered as they may be, and a write fails behind a disk. A sector of the volume isn't
/// past its end, a read has a value, and no write fails where no disk did.
pub fn example_of_answer_causes()
    ensures meets { AnswerCauses small_start write_and_read worked_journal }
    ensures fails { AnswerCauses small_start write_and_read failing_write }
    ensures past { AnswerCauses small_start write_and_read refused_journal → ⊥ }
    ensures valueless { AnswerCauses small_start write_and_read valueless_journal → ⊥ }
    ensures faultless { AnswerCauses small_start write_and_read faultless_write → ⊥ }
{}

/// A volume goes from state to state as it may, also with two writes, and where a disk broke it. It doesn't wait a turn
/// behind its write or without one, isn't active before it waited, idle or clean while a write is open, or ready twice
/// or before a round has ended; and nothing is submitted before it is ready.
pub fn example_of_state_causes()
    ensures meets { StateCauses small_start write_and_read worked_journal }
    ensures again { StateCauses small_start two_writes active_again }
    ensures broken { StateCauses small_start write_and_read broken_submit }
    ensures belated { StateCauses small_start write_and_read belated_pending → ⊥ }
    ensures unasked { StateCauses small_start write_and_read idle_pending → ⊥ }
    ensures hasty { StateCauses small_start write_and_read hasty_active → ⊥ }
    ensures busy { StateCauses small_start write_and_read open_idle → ⊥ }
    ensures awake { StateCauses small_start two_writes busy_clean → ⊥ }
    ensures unanswered { StateCauses small_start two_writes open_clean → ⊥ }
    ensures shut { StateCauses small_start write_and_read early_submit → ⊥ }
    ensures early { StateCauses small_start write_and_read early_ready → ⊥ }
    ensures twice { StateCauses small_start write_and_read ready_again → ⊥ }
{}

/// Rounds begin and end one behind the other, also behind one that a kill lost. None skips a generation, ends behind a
/// kill, or begins while another goes on or the monitor is killed.
pub fn example_of_round_causes()
    ensures meets { RoundCauses small_start worked_journal }
    ensures lost { RoundCauses small_start lost_round }
    ensures skips { RoundCauses small_start skipping_journal → ⊥ }
    ensures ends { RoundCauses small_start ended_after_kill → ⊥ }
    ensures two { RoundCauses small_start two_rounds → ⊥ }
    ensures killed { RoundCauses small_start killed_begin → ⊥ }
{}

/// A disk's fault comes right behind its failed call, or of a disk that may fail on its own. None comes without either
/// or a call later, no disk is let go without one, and kills and takeovers take turns.
pub fn example_of_failure_causes()
    ensures meets { FailureCauses small_start (λ d. ⊥) failing_log failing_journal }
    ensures alone { FailureCauses small_start (λ d. d ≡ 0) [] faulty_journal }
    ensures turns { FailureCauses small_start (λ d. ⊥) [] taken_over }
    ensures forged { FailureCauses small_start (λ d. ⊥) [] faulty_journal → ⊥ }
    ensures late { FailureCauses small_start (λ d. ⊥) untold_log late_journal → ⊥ }
    ensures killed { FailureCauses small_start (λ d. ⊥) [] killed_twice → ⊥ }
    ensures sudden { FailureCauses small_start (λ d. ⊥) [] sudden_takeover → ⊥ }
    ensures healthy { FailureCauses small_start (λ d. ⊥) worked_log healthy_unblock → ⊥ }
{}

/// A disk that failed is let go behind the round that records it, and not when that round begins.
pub fn example_of_unblock_causes()
    ensures meets { UnblocksAreRecorded small_start failing_log failing_journal }
    ensures hasty { UnblocksAreRecorded small_start failing_log hasty_unblock → ⊥ }
{}

/// Passes open behind their volume's ready and behind the end of a round, and are told behind ends. None opens behind
/// an end from another row than 0, and nothing is told of one in another turn or before the end.
pub fn example_of_pass_causes()
    ensures meets { PassCauses passes_in_turn }
    ensures row { PassCauses later_row → ⊥ }
    ensures belated { PassCauses belated_point → ⊥ }
    ensures early { PassCauses early_end → ⊥ }
{}

/// A disk becomes a spare behind its update. No update is applied while a round goes on or posted while the monitor is
/// killed, and no disk becomes a spare without an update, behind one that a kill lost, or without an ask.
pub fn example_of_update_causes()
    ensures meets { UpdateCauses adds_second spare_added }
    ensures busy { UpdateCauses adds_second busy_applied → ⊥ }
    ensures killed { UpdateCauses adds_second killed_posted → ⊥ }
    ensures sudden { UpdateCauses adds_second sudden_spare → ⊥ }
    ensures lost { UpdateCauses adds_second lost_spare → ⊥ }
    ensures other { UpdateCauses adds_second other_spare → ⊥ }
{}
