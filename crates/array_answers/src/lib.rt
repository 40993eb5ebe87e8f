//! Answers in every run of the whole machine: what is read is of members in sync, and a volume that is called whole is.
//!
//! It rests on what holds of the metadata on the disks (`array_base`), on what edits mean, and on what the journal
//! tells of the control state (`array_told`); it follows a run effect by effect, and looks at no turn. `array_model`
//! has a run that meets the law, and ones that don't. The functions have the laws as their contracts and nothing to
//! run.
#![tactic(auto)]

ghost use Rattle.array_answers.specs.Slots.{AllSlotsHold};
ghost use Rattle.array_answers.specs.Whole.{DoneIsWhole};
ghost use Rattle.array_base.specs.Laws.{OfEachWorld};
ghost use Rattle.array_model.specs.AnswerLaw.{ReadsInSync};
ghost use Rattle.array_model.specs.Events.{AtEach};
ghost use Rattle.array_model.specs.Moments.{EachCall};
ghost use Rattle.std.specs.Prelude.{take};

/// Each read of a row, for a client or for a pass, is of a disk without a fault, in a slot that the last finished round
/// calls in sync, of a started volume with that row: at the moment of its call.
pub fn reads_are_of_members_in_sync()
    ensures { OfEachWorld (λ S P w.
        EachCall (λ before call. ReadsInSync S.start w.log w.journal before call.disk call.what) w.log) }
{}

/// What the law rests on, in each world of a run: a slot that a volume has in sync, on a disk without a fault, is so in
/// the last finished round's block, in the book, and in each block that a run may go on from.
pub fn blocks_back_slots()
    ensures { OfEachWorld (λ S P w. AllSlotsHold S w.control) }
{}

/// An operation that asks for a whole volume is answered as done only where, in the last finished round's block, each
/// of the volume's slots is in sync and no pass is open, and no disk of such a slot has a fault.
pub fn volumes_called_whole_are_whole()
    ensures { OfEachWorld (λ S P w.
        AtEach (λ front e. DoneIsWhole S.start S.asked (take e.stamp w.log) front e.event) w.journal) }
{}
