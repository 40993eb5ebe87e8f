//! Worked runs with passes.
ghost use Rattle.std.specs.Prelude.{◌≡◌, [], ◌∷◌};
ghost use Rattle.array_model.specs.declared.journal.Event.TheVariants.{Begin, End, Ready, Pass, Point, PassEnd, Unblock, Fault};
ghost use Rattle.array_machine.specs.Machine.{Fail};
ghost use Rattle.array_rows.specs.Runs.{shown, unbounded, stopping, done};
ghost use Rattle.array_rows.specs.Containers.{mirror, pairs, holding, of_generation, each_with, made_dirty, made_new, made_open};
ghost use Rattle.array_rows.specs.Scripts.{at, volume, disk, anchor_of, anchor_left, written_mirror, fails_in_write};

/// A mirror that loses a member during a write is cut off in the round that records it: both disks hold a block that
/// says dirty. In the next run all rows are read and written, synced, and the pass is closed.
pub fn a_dirty_stop_resyncs_from_row_0()
    ensures first { anchor_left (written_mirror 8) (stopping 10) fails_in_write 0
        ≡ anchor_of (of_generation 3 (each_with made_dirty (mirror 8).block)) }
    ensures second { anchor_left (written_mirror 8) (stopping 10) fails_in_write 1
        ≡ anchor_of (of_generation 3 (each_with made_dirty (mirror 8).block)) }
    ensures journal { shown (holding (of_generation 3 (each_with made_dirty (mirror 8).block)) (mirror 8)) unbounded []
        ≡ done (
        at 0 (Begin 4) ∷ at 6 (End 4) ∷ at 6 (Ready (volume 0)) ∷ at 6 (Pass (volume 0) 0) ∷ at 23 (Begin 5)
        ∷ at 27 (End 5) ∷ at 27 (PassEnd (volume 0)) ∷ []) }
{}

/// A pass goes on from unit 7. At row 1,024 it syncs what it wrote, and the round that records unit 8 and the pass take
/// turns.
pub fn a_checkpoint_is_recorded()
    ensures journal { shown (holding (each_with (made_open 5 7) (mirror 1032).block) (mirror 1032)) unbounded []
        ≡ done (
        at 0 (Begin 2) ∷ at 6 (End 2) ∷ at 6 (Ready (volume 0)) ∷ at 6 (Pass (volume 0) 896) ∷ at 263 (Begin 3)
        ∷ at 275 (End 3) ∷ at 275 (Point (volume 0) 8) ∷ at 286 (Begin 4) ∷ at 290 (End 4)
        ∷ at 290 (PassEnd (volume 0)) ∷ []) }
{}

/// A volume of two pairs that was never initialised loses a disk before the first round begins. It is resynced all the
/// same: the pair that is left is made alike.
pub fn an_unfinished_volume_that_loses_a_disk()
    ensures journal { shown (holding (each_with made_new (pairs 1 16).block) (pairs 1 16)) unbounded (Fail 0 ∷ [])
        ≡ done (
        at 0 (Fault (disk 0)) ∷ at 0 (Begin 2) ∷ at 9 (End 2) ∷ at 9 (Ready (volume 0)) ∷ at 9 (Pass (volume 0) 0)
        ∷ at 9 (Unblock (disk 0)) ∷ at 26 (Begin 3) ∷ at 35 (End 3) ∷ at 35 (PassEnd (volume 0)) ∷ []) }
{}
