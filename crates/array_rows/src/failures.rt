//! Worked runs with disks that fail.
ghost use Rattle.std.specs.Prelude.{◌≡◌, [], ◌∷◌};
ghost use Rattle.array_model.specs.declared.journal.Event.TheVariants.{Begin, End, Ready, Active, Clean, Unblock, Submit, Pending, Ack, Idle, Fault};
ghost use Rattle.array_model.specs.declared.journal.Answer.TheVariants.{Done, Failed, NoSpare};
ghost use Rattle.array_rows.specs.Runs.{shown, unbounded, failing, done};
ghost use Rattle.array_rows.specs.Containers.{mirror, holding, of_generation, each_with, made_dirty, degraded_block};
ghost use Rattle.array_rows.specs.Scripts.{with_ops, waits, at, volume, disk, anchor_of, anchor_left, written_mirror, fails_in_write};

/// A member fails while a write goes on: the write is answered once a round has recorded the failure.
pub fn a_member_fails_during_a_write()
    ensures journal { shown (written_mirror 1024) unbounded fails_in_write
        ≡ done (
        at 0 (Begin 2) ∷ at 4 (End 2) ∷ at 4 (Ready (volume 0)) ∷ at 4 (Submit 0) ∷ at 4 (Pending (volume 0))
        ∷ at 4 (Begin 3) ∷ at 8 (End 3) ∷ at 8 (Active (volume 0)) ∷ at 9 (Fault (disk 1)) ∷ at 9 (Begin 4)
        ∷ at 12 (End 4) ∷ at 12 (Unblock (disk 1)) ∷ at 12 (Ack 0 Done) ∷ at 12 (Idle (volume 0))
        ∷ at 12 (Clean (volume 0)) ∷ at 12 (Begin 5) ∷ at 14 (End 5) ∷ []) }
    ensures left { anchor_left (written_mirror 1024) unbounded fails_in_write 0
        ≡ anchor_of (degraded_block 5) }
    ensures behind { anchor_left (written_mirror 1024) unbounded fails_in_write 1
        ≡ anchor_of (of_generation 3 (each_with made_dirty (mirror 1024).block)) }
{}

/// A degraded mirror, and a client that waits until it is whole: no disk can take the place.
pub fn no_spare_comes()
    ensures journal { shown (with_ops (waits 0 0 ∷ []) (holding (degraded_block 5) (mirror 1024))) unbounded []
        ≡ done (
        at 0 (Begin 6) ∷ at 2 (End 6) ∷ at 2 (Ready (volume 0)) ∷ at 2 (Submit 0) ∷ at 2 (Ack 0 NoSpare) ∷ []) }
{}

/// The first call on each member fails: the round ends without a target, and a write is answered as failed.
pub fn both_members_fail()
    ensures journal { shown (written_mirror 1024) (failing (1 ∷ 2 ∷ [])) []
        ≡ done (
        at 0 (Begin 2) ∷ at 1 (Fault (disk 0)) ∷ at 2 (Fault (disk 1)) ∷ at 2 (Submit 0) ∷ at 2 (Ack 0 Failed) ∷ []) }
{}

/// The first write of the first round fails: the other member's round ends, and the next one records the failure.
pub fn the_first_call_fails()
    ensures journal { shown (mirror 1024) (failing (1 ∷ [])) []
        ≡ done (
        at 0 (Begin 2) ∷ at 1 (Fault (disk 0)) ∷ at 3 (End 2) ∷ at 3 (Ready (volume 0)) ∷ at 3 (Begin 3)
        ∷ at 5 (End 3) ∷ at 5 (Unblock (disk 0)) ∷ []) }
{}
