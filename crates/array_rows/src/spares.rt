//! Worked runs in which a spare takes the place of a disk that failed.
ghost use Rattle.std.specs.Prelude.{◌≡◌, [], ◌∷◌, slice_get, Some};
ghost use Rattle.array_model.specs.Small.{syncs};
ghost use Rattle.array_model.specs.declared.journal.Event.TheVariants.{Begin, End, Spare, Ready, Pass, PassEnd, Unblock, Posted, Applied, Submit, Ack, Fault};
ghost use Rattle.array_model.specs.declared.journal.Answer.TheVariants.{Done};
ghost use Rattle.array_rows.specs.SmallSettings.{spare_block};
ghost use Rattle.array_rows.specs.Runs.{shown, log_of, unbounded, stopping, done, stopped};
ghost use Rattle.array_rows.specs.Scripts.{at, volume, disk, anchor_left, size_left, asking_for_spare, asking_for_first, fails_before};

/// A disk becomes a spare and is activated; the run is cut off behind the anchor and the sync of the round's first
/// member. The spare comes last, and holds its own block still.
pub fn an_activation_is_cut_off()
    ensures journal { shown (asking_for_spare 1024) (stopping 11) (fails_before 6 1)
        ≡ stopped (
        at 0 (Begin 2) ∷ at 4 (End 2) ∷ at 4 (Ready (volume 0)) ∷ at 4 (Fault (disk 1)) ∷ at 4 (Begin 3)
        ∷ at 4 (Posted 0) ∷ at 4 (Submit 0) ∷ at 6 (End 3) ∷ at 6 (Unblock (disk 1)) ∷ at 6 (Applied 0)
        ∷ at 8 (Spare (disk 2)) ∷ at 8 (Posted 1) ∷ at 8 (Applied 1) ∷ at 8 (Begin 4) ∷ []) }
    ensures spare { anchor_left (asking_for_spare 1024) (stopping 11) (fails_before 6 1) 2 ≡ (spare_block 3 2).anchor }
    ensures size { size_left (asking_for_spare 1024) (stopping 11) (fails_before 6 1) 0 ≡ 584 }
{}

/// The whole of it on rows 0 to 7: the spare takes the slot when the round ends, a pass fills it, and the client that
/// waited is answered once the pass is closed.
pub fn a_spare_is_rebuilt()
    ensures journal { shown (asking_for_spare 8) unbounded (fails_before 6 1)
        ≡ done (
        at 0 (Begin 2) ∷ at 4 (End 2) ∷ at 4 (Ready (volume 0)) ∷ at 4 (Fault (disk 1)) ∷ at 4 (Begin 3)
        ∷ at 4 (Posted 0) ∷ at 4 (Submit 0) ∷ at 6 (End 3) ∷ at 6 (Unblock (disk 1)) ∷ at 6 (Applied 0)
        ∷ at 8 (Spare (disk 2)) ∷ at 8 (Posted 1) ∷ at 8 (Applied 1) ∷ at 8 (Begin 4) ∷ at 14 (End 4)
        ∷ at 14 (Pass (volume 0) 0) ∷ at 31 (Begin 5) ∷ at 37 (End 5) ∷ at 37 (PassEnd (volume 0))
        ∷ at 37 (Ack 0 Done) ∷ []) }
    ensures size { size_left (asking_for_spare 8) unbounded (fails_before 6 1) 2 ≡ 528 }
{}

/// A spare with the least number takes a slot: its disk is written behind the member's all the same.
pub fn an_activated_spare_is_written_last()
    ensures journal { shown asking_for_first unbounded (fails_before 6 2)
        ≡ done (
        at 0 (Begin 2) ∷ at 4 (End 2) ∷ at 4 (Ready (volume 0)) ∷ at 4 (Fault (disk 2)) ∷ at 4 (Begin 3)
        ∷ at 4 (Posted 0) ∷ at 4 (Submit 0) ∷ at 6 (End 3) ∷ at 6 (Unblock (disk 2)) ∷ at 6 (Applied 0)
        ∷ at 8 (Spare (disk 0)) ∷ at 8 (Posted 1) ∷ at 8 (Applied 1) ∷ at 8 (Begin 4) ∷ at 14 (End 4)
        ∷ at 14 (Pass (volume 0) 0) ∷ at 31 (Begin 5) ∷ at 37 (End 5) ∷ at 37 (PassEnd (volume 0))
        ∷ at 37 (Ack 0 Done) ∷ []) }
    ensures first { slice_get (log_of asking_for_first unbounded (fails_before 6 2)) 10 ≡ Some (syncs 1) }
    ensures last { slice_get (log_of asking_for_first unbounded (fails_before 6 2)) 13 ≡ Some (syncs 0) }
{}
