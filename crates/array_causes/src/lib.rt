//! The causes of each entry in every run of the whole machine: what stands before it in the journal, in the log, in the
//! script and in the opening. How a law follows what a change leans on within its turn.
//!
//! The functions have the laws as their contracts and nothing to run.
#![tactic(auto)]

mod examples;

ghost use Rattle.std.specs.Prelude.{◌≡◌, ℕ, Bool, true};
ghost use Rattle.array_base.specs.Laws.{OfEachWorld};
ghost use Rattle.array_base.specs.Premises.{Premises};
ghost use Rattle.array_causes.specs.Answers.{AnswerCauses};
ghost use Rattle.array_causes.specs.EachEntry.{HasCauses};
ghost use Rattle.array_causes.specs.Failures.{FailureCauses, FailsOnlyBy};
ghost use Rattle.array_causes.specs.Follow.{OfEachRunBy};
ghost use Rattle.array_causes.specs.PassCauses.{PassCauses};
ghost use Rattle.array_causes.specs.RoundCauses.{RoundCauses};
ghost use Rattle.array_causes.specs.StateCauses.{StateCauses};
ghost use Rattle.array_causes.specs.Unblocks.{UnblocksAreRecorded};
ghost use Rattle.array_causes.specs.UpdateCauses.{UpdateCauses};
ghost use Rattle.array_machine.specs.Setting.{Setting};

pub use examples::{
    example_of_answer_causes, example_of_failure_causes, example_of_pass_causes,
    example_of_round_causes, example_of_state_causes, example_of_unblock_causes,
    example_of_update_causes,
};

/// In each run each entry of the journal has its cause, where only the disks that may fail on their own do so. The
/// functions below say what is a cause of which entry.
pub fn each_entry_has_its_cause()
    ensures { (S : Setting) (P : Premises S) (may_fail : ℕ → Bool)
        → OfEachRunBy S P (FailsOnlyBy (λ d. may_fail d ≡ true))
        (λ w. HasCauses S.start S.asked (λ d. may_fail d ≡ true) w.log w.journal) }
{}

/// In each run a disk's fault comes only of a call of it that failed just before, or where the disk is one that may
/// fail on its own; a disk is let go only behind its fault and a round that ended; kills and takeovers take turns.
pub fn failure_causes()
    ensures { (S : Setting) (P : Premises S) (may_fail : ℕ → Bool)
        → OfEachRunBy S P (FailsOnlyBy (λ d. may_fail d ≡ true))
        (λ w. FailureCauses S.start (λ d. may_fail d ≡ true) w.log w.journal) }
{}

/// In each run a disk is let go only where the block of the last finished round doesn't expect it any more: writes that
/// wait for it go on once the other disks say that it failed.
pub fn unblock_causes()
    ensures { OfEachWorld (λ S P w. UnblocksAreRecorded S.start w.log w.journal) }
{}

/// In each run a pass opens from row 0 behind the end of a round in the same turn, or right behind its volume's ready;
/// a checkpoint and the end of a pass are told behind the end of the round that recorded them, in the same turn.
pub fn pass_causes()
    ensures { OfEachWorld (λ S P w. PassCauses w.journal) }
{}

/// In each run a write is answered as done, a read by a value, and each as past exactly where its volume has no such
/// sector; a volume is whole or has no spare; and an operation fails only where a disk failed before.
pub fn answer_causes()
    ensures { OfEachWorld (λ S P w. AnswerCauses S.start S.asked.ops w.journal) }
{}

/// In each run an array state follows the one before it: ready once, write-pending right behind the submit of a write
/// in its turn, active behind write-pending, idle where each write is answered, clean where none came since. Operations
/// are submitted where their volume is ready, or a disk failed before.
pub fn state_causes()
    ensures { OfEachWorld (λ S P w. StateCauses S.start S.asked.ops w.journal) }
{}

/// In each run a round begins only while the monitor isn't killed and no other goes on (one that was begun, hasn't
/// ended, and that no kill lost), with the generation behind the highest so far; and a round ends that goes on.
pub fn round_causes()
    ensures { OfEachWorld (λ S P w. RoundCauses S.start w.journal) }
{}

/// In each run an update is posted while the monitor isn't killed, and is applied or declined while it isn't and no
/// round goes on; a disk that the script asks for becomes a spare behind an update that was applied, since which no
/// round began and no kill came.
pub fn update_causes()
    ensures { OfEachWorld (λ S P w. UpdateCauses S.asked.asks w.journal) }
{}
