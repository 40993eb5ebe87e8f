//! Worked runs in which the monitor is killed and taken over.
ghost use Rattle.std.specs.Prelude.{◌≡◌, [], ◌∷◌};
ghost use Rattle.array_model.specs.declared.journal.Event.TheVariants.{Begin, End, Ready, Active, Clean, Unblock, Submit, Pending, Ack, Idle, Fault, Kill, Takeover};
ghost use Rattle.array_model.specs.declared.journal.Answer.TheVariants.{Done};
ghost use Rattle.array_machine.specs.Machine.{Kill as KillIt, Takeover as TakeOver};
ghost use Rattle.array_rows.specs.Runs.{shown, unbounded, failing, done, without_metadata};
ghost use Rattle.array_rows.specs.Scripts.{at, volume, disk, written_mirror, second_written, killed_in_round, killed_in_block};

/// The monitor is killed when one member has the dirty round's block, and that member can't be read afterwards. The
/// other member has the block before; the next round's number isn't that of the one that was lost.
pub fn a_begun_generation_is_not_used_again()
    ensures journal { shown (written_mirror 1024) (failing (7 ∷ [])) killed_in_round
        ≡ done (
        at 0 (Begin 2) ∷ at 4 (End 2) ∷ at 4 (Ready (volume 0)) ∷ at 4 (Submit 0) ∷ at 4 (Pending (volume 0))
        ∷ at 4 (Begin 3) ∷ at 6 Kill ∷ at 6 Takeover ∷ at 7 (Fault (disk 0)) ∷ at 8 (Begin 4) ∷ at 10 (End 4)
        ∷ at 10 (Active (volume 0)) ∷ at 11 (Unblock (disk 0)) ∷ at 12 (Ack 0 Done) ∷ at 12 (Idle (volume 0))
        ∷ at 12 (Clean (volume 0)) ∷ at 12 (Begin 5) ∷ at 14 (End 5) ∷ []) }
{}

/// The monitor is killed between the extended sector and the anchor of the one member that works: what is read there is
/// no block that was written, and the takeover finds none.
pub fn a_torn_block_is_no_metadata()
    ensures journal { shown second_written unbounded killed_in_block
        ≡ without_metadata (
        at 0 (Begin 2) ∷ at 6 (End 2) ∷ at 6 (Ready (volume 0)) ∷ at 6 (Ready (volume 1)) ∷ at 6 (Fault (disk 1))
        ∷ at 6 (Begin 3) ∷ at 9 (End 3) ∷ at 9 (Unblock (disk 1)) ∷ at 9 (Submit 0) ∷ at 9 (Pending (volume 1))
        ∷ at 9 (Begin 4) ∷ at 10 Kill ∷ at 10 Takeover ∷ []) }
{}
