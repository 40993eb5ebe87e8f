//! Where a run comes to rest, and what it has left there. The laws are proved of every run of the machine, and the
//! functions have them as their contracts and nothing to run.
//!
//! Here turns are looked at, since a run rests where none of them does anything.
#![tactic(auto)]

mod examples;

ghost use Rattle.std.specs.Prelude.{ℕ};
ghost use Rattle.array_base.specs.Laws.{OfEachWorld};
ghost use Rattle.array_machine.specs.Rounds.{Ended};
ghost use Rattle.array_machine.specs.Machine.{Actor};
ghost use Rattle.array_rest.specs.Between.{AsksAreQueued, LocksAreApart, PassesAreStarted, PassesStand, SlotsAreSeated, TurnIsOver};
ghost use Rattle.array_rest.specs.Rests.{ClientRests, IsAtRest, NothingIsDue, SomeIsTrusted, IsSound, VolumeRests};
ghost use Rattle.array_rest.specs.Seats.{BlocksSeat, OfEachAbleWorld, VolumesRun};

pub use examples::example_of_rest;

/// In every run, wherever a turn ends, no row has two holders: neither two clients, nor a client and the volume's pass.
pub fn rows_have_one_holder()
    ensures { OfEachWorld (λ S P w. LocksAreApart S w.control.volumes w.control.clients) }
{}

/// In every run no turn leaves anything half done: a round or the write of a spare's block that lost its last target
/// has ended, nothing goes on while the monitor doesn't live, no operation stands between its submit and its job, and
/// an ask that was applied waits for what goes on.
pub fn turns_leave_nothing_half_done()
    ensures { OfEachWorld (λ S P w. TurnIsOver S w.control) }
{}

/// In every run, wherever a turn ends, each ask that was posted is in the queue, and each started volume has the disks
/// in its slots that the last finished round's block gives them.
pub fn asks_are_queued_and_slots_are_seated()
    ensures queued { OfEachWorld (λ S P w. AsksAreQueued w.control.manager) }
    ensures seated { OfEachWorld (λ S P w. SlotsAreSeated S w.control.round.last w.control.volumes) }
{}

/// In every run, wherever a turn ends, only a started volume has a pass. It holds the row that it is in alone; at a
/// checkpoint nothing of a row is written; and what it has to sync is on disks that may be called.
pub fn passes_stand()
    ensures started { OfEachWorld (λ S P w. PassesAreStarted S w.control.volumes) }
    ensures stand { OfEachWorld (λ S P w. PassesStand S w.control.round.faults w.control.volumes) }
{}

/// In every run that rests while a disk is left that the last finished round vouches for, nothing goes on and nothing is
/// due: the book is the last finished round's block, each failure is recorded there, no disk is blocked, each ask of the
/// script has come to its end, and no spare could take the place of a failed disk.
pub fn nothing_is_due_at_rest()
    ensures { OfEachWorld (λ S P w. (ends : Actor → Ended) → IsAtRest S w.control ends
        → SomeIsTrusted S w.control.round → NothingIsDue S w.control) }
{}

/// In every run the book, the last finished round's block and what disks were given since may each be gone on from: each
/// expects every disk without a fault in the slot where a volume has it.
pub fn blocks_in_hand_seat_each_disk()
    ensures { OfEachWorld (λ S P w. BlocksSeat S P.edits.formed w.control.round w.control.volumes) }
{}

/// In every run whose volumes could run when they were started, one that isn't broken can run still, and has a disk that
/// the last finished round vouches for.
pub fn sound_volumes_can_run()
    ensures runs { OfEachAbleWorld (λ S P w. VolumesRun S w.control.round w.control.volumes) }
    ensures trusted { OfEachAbleWorld (λ S P w. (v : ℕ) → IsSound w.control v → SomeIsTrusted S w.control.round) }
{}

/// In every run that rests, and whose volumes could run when they were started: each volume that isn't broken is
/// read-auto or clean, the last finished round says that it is clean, and a pass of it is over and closed there; and
/// each client has had all its operations answered, or its next one names a volume that wasn't started, or it waits for
/// a volume to be whole that isn't. Or a job was outrun: a slot of its volume was given another disk since its first
/// call, and that disk came in sync.
pub fn volumes_and_clients_rest()
    ensures volumes { OfEachAbleWorld (λ S P w. (ends : Actor → Ended) → IsAtRest S w.control ends
        → (v : ℕ) → IsSound w.control v → VolumeRests S w.control v) }
    ensures clients { OfEachAbleWorld (λ S P w. (ends : Actor → Ended) → IsAtRest S w.control ends
        → (k : ℕ) → ClientRests S w.control k) }
{}
