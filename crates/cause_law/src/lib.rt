//! Each entry of a journal has its cause, and a journal is short: proved of every run of the machine.
//!
//! Its two functions have these laws as their contracts and nothing to run. `stage_law` promises both of a stage;
//! `rest_law` and `row_law` use facts of their proofs.
#![tactic(auto)]

ghost use Rattle.array_model.specs.Causes.{AreCaused};
ghost use Rattle.array_model.specs.Counts.{IsShort};
ghost use Rattle.array_model.specs.Renewal.{FitsGeneration};
ghost use Rattle.stage_machine.specs.Setting.{Setting, Renews};
ghost use Rattle.stage_machine.specs.Opens.{AsksFirst, StandsOnAll};
ghost use Rattle.stage_machine.specs.Machine.{World, Reached};
ghost use Rattle.stage_machine.specs.EachRun.{OfEachFirstRun};

/// In every run whose generations fit their four bytes each entry and each answer has its cause in what stands before
/// it: a round that begins has the next generation, and what ends is the round that goes on; the states of a volume
/// follow one another, and operations are submitted once it is ready; a write to a sector of the volume is answered as
/// done, a read of one with a value, and past is answered only of another sector.
pub fn cause_law()
    ensures { OfEachFirstRun (λ S w. AreCaused S.start S.asked.ops w.journal) }
{}

/// The journal of every such run is at least four entries shorter than the length that is said to be enough for its
/// script: one with that much room always has room for four more.
pub fn short_law()
    ensures { (S : Setting) (w : World) → AsksFirst S → Renews S → StandsOnAll S
        → FitsGeneration w.control.round.note → Reached S w → IsShort S.start S.asked w.journal }
{}
