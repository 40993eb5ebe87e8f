//! The form of a journal, proved of every run of the machine: its stamps never fall, it names operations of the
//! script, and each kind of entry comes only so often.
//!
//! The one function has the law as its contract and nothing to run. `stage_law` promises it of a stage; `cause_law`
//! uses facts of its proof.
#![tactic(auto)]

ghost use Rattle.array_model.specs.Form.{IsJournal};
ghost use Rattle.array_model.specs.Renewal.{FitsGeneration};
ghost use Rattle.stage_machine.specs.Setting.{Setting, Renews};
ghost use Rattle.stage_machine.specs.Opens.{AsksFirst, StandsOnAll};
ghost use Rattle.stage_machine.specs.Machine.{World, Reached};

/// The journal of every run whose generations fit their four bytes has the form of a journal: its stamps never fall and
/// aren't above the calls made, it names operations of the script, and it keeps the counts.
pub fn journal_law()
    ensures { (S : Setting) (w : World) → AsksFirst S → Renews S → StandsOnAll S → FitsGeneration w.control.round.note
        → Reached S w → IsJournal S.start S.asked w.calls w.journal }
{}
