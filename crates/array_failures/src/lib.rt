//! Failures in every run of the whole machine: no write is acknowledged past a failure that isn't recorded, no failed
//! call is hidden, and no round forgets a member that is healthy.
//!
//! They rest on what holds of the metadata on the disks (`array_base`), on what edits mean, and on what the journal
//! tells of the control state (`array_told`); they follow a run effect by effect, and look at no turn but for what
//! stands behind the end of a round in it. `array_model` has runs that meet them, and ones that don't. The functions
//! have the laws as their contracts and nothing to run.
#![tactic(auto)]

ghost use Rattle.std.specs.Prelude.{take};
ghost use Rattle.array_base.specs.Laws.{OfEachWorld};
ghost use Rattle.array_model.specs.Events.{AtEach};
ghost use Rattle.array_model.specs.FailureLaw.{AckOverFaults, BeginKeeps, TellsEachFailure};

/// Where a write is acknowledged as done, each disk that it was meant for and that has a fault by then is called failed
/// by each block that a stop may leave on a working member: whichever finished round meant the write for it.
pub fn acknowledgements_stand_over_recorded_failures()
    ensures { OfEachWorld (λ S P w.
        AtEach (λ front e. AckOverFaults S.start S.asked.ops (take e.stamp w.log) front e.event) w.journal) }
{}

/// Each call that failed has its disk's fault right behind it in the journal, also the last call of the run: stamped by
/// how many calls were made by then.
pub fn no_failed_call_is_hidden()
    ensures { OfEachWorld (λ S P w. TellsEachFailure w.log w.journal) }
{}

/// The block of each round that begins expects each disk that the last finished round expects, and has each slot in
/// sync that the last finished round has in sync, but for disks with a fault; the first rounds also leave out of sync
/// what the opening's verdict counts out.
pub fn rounds_keep_healthy_members()
    ensures { OfEachWorld (λ S P w.
        AtEach (λ front e. BeginKeeps S.start w.log front e.stamp e.event) w.journal) }
{}
