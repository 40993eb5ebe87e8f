//! The answer law, proved of every run of the machine in which each read gave what stood there: answers come in the
//! order of the asks, a read gives the value last acknowledged, only members in sync are read.
//!
//! The one function has the law as its contract and nothing to run. `stage_law` promises it of a stage; `cause_law`,
//! `rest_law` and `row_law` use facts of its proof.
#![tactic(auto)]

ghost use Rattle.array_model.specs.AnswerLaw.{AnswerLaw};
ghost use Rattle.array_model.specs.Renewal.{FitsGeneration};
ghost use Rattle.stage_machine.specs.Setting.{Setting, Renews};
ghost use Rattle.stage_machine.specs.Opens.{AsksFirst, StandsOnAll, IsFirstVolume, HoldsContent};
ghost use Rattle.stage_machine.specs.Machine.{World, Honest};

/// Every run of the machine whose generations fit their four bytes, and in which each read gave what stood there, meets
/// the answer law: answers come in the order of the asks, a read gives the value last acknowledged, only members in
/// sync are read, and no volume is called whole that isn't.
pub fn answer_law()
    ensures { (S : Setting) (w : World) → AsksFirst S → Renews S → StandsOnAll S → IsFirstVolume S → HoldsContent S
        → FitsGeneration w.control.round.note → Honest S w → AnswerLaw S.start S.asked w.log w.journal }
{}
