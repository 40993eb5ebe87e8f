//! Worked runs on two volumes over the same disks, whose blocks have two sectors.
ghost use Rattle.std.specs.Prelude.{◌≡◌, [], ◌∷◌};
ghost use Rattle.array_model.specs.declared.journal.Event.TheVariants.{Begin, End, Ready, Active, Clean, Submit, Pending, Ack, Idle};
ghost use Rattle.array_model.specs.declared.journal.Answer.TheVariants.{Done};
ghost use Rattle.array_rows.specs.Runs.{shown, left_by, unbounded, stopping, done, stopped};
ghost use Rattle.array_rows.specs.Containers.{two_mirrors, second_alone, of_generation};
ghost use Rattle.array_rows.specs.Scripts.{with_ops, writes, at, volume, anchor_of, anchor_left, second_written};

/// A write to the second volume, and a stop behind the extended sector of the dirty round's first member: its anchor is
/// still that of the round before.
pub fn a_stop_behind_an_extended_sector()
    ensures journal { shown second_written (stopping 7) []
        ≡ stopped (
        at 0 (Begin 2) ∷ at 6 (End 2) ∷ at 6 (Ready (volume 0)) ∷ at 6 (Ready (volume 1)) ∷ at 6 (Submit 0)
        ∷ at 6 (Pending (volume 1)) ∷ at 6 (Begin 3) ∷ []) }
    ensures extended { left_by second_written (stopping 7) [] 0 4093 ≡ record { 0 = 3 ∷ [] } }
    ensures anchor { anchor_left second_written (stopping 7) [] 0
        ≡ anchor_of (of_generation 2 two_mirrors.block) }
{}

/// The first volume's level isn't known: the second is started and written, and the first one's words stay.
pub fn a_volume_that_is_not_known()
    ensures journal { shown (with_ops (writes 0 1 0 ∷ []) second_alone) unbounded []
        ≡ done (
        at 0 (Begin 2) ∷ at 6 (End 2) ∷ at 6 (Ready (volume 1)) ∷ at 6 (Submit 0) ∷ at 6 (Pending (volume 1))
        ∷ at 6 (Begin 3) ∷ at 12 (End 3) ∷ at 12 (Active (volume 1)) ∷ at 16 (Ack 0 Done) ∷ at 16 (Idle (volume 1))
        ∷ at 16 (Clean (volume 1)) ∷ at 16 (Begin 4) ∷ at 22 (End 4) ∷ []) }
    ensures block { anchor_left (with_ops (writes 0 1 0 ∷ []) second_alone) unbounded [] 1
        ≡ anchor_of (of_generation 4 second_alone.block) }
{}

/// Two clients write to a volume each: one round makes both dirty, and one makes both clean.
pub fn a_write_to_each_volume()
    ensures journal { shown (with_ops (writes 0 0 5 ∷ writes 1 1 5 ∷ []) two_mirrors) unbounded []
        ≡ done (
        at 0 (Begin 2) ∷ at 6 (End 2) ∷ at 6 (Ready (volume 0)) ∷ at 6 (Submit 0) ∷ at 6 (Pending (volume 0))
        ∷ at 6 (Ready (volume 1)) ∷ at 6 (Submit 1) ∷ at 6 (Pending (volume 1)) ∷ at 6 (Begin 3) ∷ at 12 (End 3)
        ∷ at 12 (Active (volume 0)) ∷ at 13 (Active (volume 1)) ∷ at 19 (Ack 0 Done) ∷ at 20 (Ack 1 Done)
        ∷ at 20 (Idle (volume 0)) ∷ at 20 (Idle (volume 1)) ∷ at 20 (Clean (volume 0)) ∷ at 20 (Clean (volume 1))
        ∷ at 20 (Begin 4) ∷ at 26 (End 4) ∷ []) }
{}
