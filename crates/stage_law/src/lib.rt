//! The laws of a run, promised of the stage that makes it: over every bank, for every list of turns.
//!
//! It owes, of each stage whose bank held a container of the first form, what needs no log; where the bank tells its
//! log, the laws on calls; where it tells too what it held, the answer law whole. Where nothing is left to do, each
//! operation was answered and the volume is left clean and whole.
//!
//! `image_replay` hands these on, of the bank that is there and of the lines that it writes.
#![tactic(auto)]

ghost use Rattle.std.specs.Prelude.{◌≡◌, ℕ, List, Some, false};
ghost use Rattle.device_log.specs.Log.{Call};
ghost use Rattle.array_model.specs.Script.{Asked};
ghost use Rattle.array_model.specs.FailureLaw.{EndsAtFailure};
ghost use Rattle.array_model.specs.Rests.{HasComeToRest};
ghost use Rattle.array_model.specs.Room.{BeginsWithRoom};
ghost use Rattle.stage_machine.specs.Machine.{Action};
ghost use Rattle.control_state.specs.Still.{is_still};
ghost use Rattle.first_opening.specs.Opened.{Opened};
ghost use Rattle.stage.specs.Stages.{setting_of};
ghost use Rattle.stage.specs.Drives.{AllStill};
ghost use Rattle.stage_law.specs.Runs.{IsRunOn, AsksRows, start_of};
ghost use Rattle.stage_law.specs.Laws.{KeepsForm, KeepsLaws, IsSince, AllAnswered, IsLeftClean};

use array_model::Journal;
use member_bank::Bank;
use stage::Stage;

/// Closes a stage, after whatever turns. Where its bank held a container of the first form, the journal has the form of
/// one, each entry and each answer has its cause, and each client's answers come in order; where the bank tells its log
/// too, its calls since the opening keep the laws of a run, and a call that failed is the last of them. Where no actor
/// has anything left to do, each operation was answered, the volume is left clean, and the journal tells that the run
/// has come to rest; while an actor has a turn to take, it doesn't. Each turn that entered something began with room
/// for four entries.
pub fn finish<B: Bank>(stage: Stage<B>) -> (B, Journal)
    ensures parts { (result.0 ≡ stage.bank) × (result.1.entries ≡ stage.journal) }
    ensures form { (o : Opened) (asked : Asked) → IsRunOn o asked stage.given
        → KeepsForm (start_of o) asked stage.calls stage.journal }
    ensures laws { (o : Opened) (asked : Asked) → IsRunOn o asked stage.given
        → (all : List Call) → B.log stage.bank ≡ Some all
        → (log : List Call) × IsSince stage.calls all log × KeepsLaws o asked (B.opening stage.bank) log stage.journal
        × (AsksRows asked.ops → AllStill stage → IsLeftClean (start_of o) log stage.journal) }
    ensures answered { (o : Opened) (asked : Asked) → IsRunOn o asked stage.given → AsksRows asked.ops → AllStill stage
        → AllAnswered asked.ops stage.journal }
    ensures rests { (o : Opened) (asked : Asked) → IsRunOn o asked stage.given → AsksRows asked.ops → AllStill stage
        → HasComeToRest (start_of o) asked.ops stage.journal }
    ensures works { (o : Opened) (asked : Asked) → IsRunOn o asked stage.given → (actor : Action)
        → is_still (setting_of stage.given) stage.control actor ≡ false
        → HasComeToRest (start_of o) asked.ops stage.journal → ⊥ }
    ensures room { BeginsWithRoom stage.room stage.journal }
    ensures ends { (all log : List Call) → B.log stage.bank ≡ Some all → IsSince stage.calls all log
        → EndsAtFailure log stage.journal stage.control.failed }
{
    stage.close()
}
