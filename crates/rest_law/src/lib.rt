//! Where every actor rests, the script is answered and the volume is recorded clean: proved of every run of the
//! machine. Whether a run has come to rest its journal tells alone, both ways.
//!
//! It doesn't say that a run comes to rest; a worked run does. Its functions have these laws as their contracts and
//! nothing to run. `stage_law` and `image_replay` say by it what a run that is over has left.
#![tactic(auto)]

mod worked;

ghost use Rattle.std.specs.Prelude.{◌≡◌, ℕ, ◌<◌, None};
ghost use Rattle.units.specs.declared.disk.Sector.{Sector};
ghost use Rattle.array_model.specs.Renewal.{FitsGeneration};
ghost use Rattle.array_model.specs.Rests.{HasComeToRest};
ghost use Rattle.stage_machine.specs.Setting.{Setting, Renews};
ghost use Rattle.stage_machine.specs.Opens.{AsksFirst, StandsOnAll, IsFirstVolume, StartsFirstAlone};
ghost use Rattle.stage_machine.specs.Rounds.{Ended};
ghost use Rattle.stage_machine.specs.Machine.{Control, World, Reached, Monitors, Asks, Quiets};
ghost use Rattle.stage_machine.specs.EachRun.{OfEachFirstRun};
ghost use Rattle.rest_law.specs.Rest.{CanEnd, IsStill, IsAtRest, HasEnded, IsDurablyClean};

pub use worked::the_worked_run_rests;

/// No run of the machine in which no call failed halts early: where no turn of the monitor, of a client or of quiet has
/// anything to do, each operation of the script has its answer, no round is going on, and the last finished round
/// recorded volume 0 as clean. Where the generations fit their four bytes too, that is durable on every working member.
pub fn rest_law()
    ensures ended { (S : Setting) (w : World) → AsksFirst S → CanEnd S → Reached S w → w.control.failed ≡ None
        → IsAtRest S w.control → HasEnded S w }
    ensures durable { (S : Setting) (w : World) → AsksFirst S → CanEnd S → Renews S → StandsOnAll S → IsFirstVolume S
        → FitsGeneration w.control.round.note → Reached S w → w.control.failed ≡ None → IsAtRest S w.control
        → IsDurablyClean S w }
{}

/// Whether a turn has anything to do doesn't hang on how its call would end: a turn of each actor tells.
pub fn one_end_tells()
    ensures { (S : Setting) (c : Control) (x : Ended) (ends : ℕ → Ended) (gives : ℕ → Sector) → IsStill S c (Monitors x)
        → ((k : ℕ) → k < 16 → IsStill S c (Asks k (ends k) (gives k))) → IsStill S c Quiets → IsAtRest S c }
{}

/// Whether a run rests its journal tells alone. Where no actor has anything to do, and no call has failed, each
/// operation was answered, the last round has ended, and each started volume is told to be read-auto, or clean with a
/// round begun since. Where a journal tells that, no actor has anything to do.
pub fn rest_is_told()
    ensures told { (S : Setting) (w : World) → AsksFirst S → CanEnd S → IsFirstVolume S
        → StartsFirstAlone S → Reached S w → w.control.failed ≡ None → IsAtRest S w.control
        → HasComeToRest S.start S.asked.ops w.journal }
    ensures rests { OfEachFirstRun (λ S w. HasComeToRest S.start S.asked.ops w.journal → IsAtRest S w.control) }
{}
