//! Worked runs on volumes with parity.
ghost use Rattle.std.specs.Prelude.{◌≡◌, false, [], ◌∷◌, slice_get, Some};
ghost use Rattle.units.specs.declared.volume.Level.TheVariants.{Five};
ghost use Rattle.array_model.specs.Script.{sector_of};
ghost use Rattle.array_model.specs.Placement.{placement_of};
ghost use Rattle.array_model.specs.Small.{syncs, gets};
ghost use Rattle.array_model.specs.declared.journal.Event.TheVariants.{Begin, End, Ready, Pass, PassEnd, Active, Clean, Unblock, Submit, Pending, Ack, Idle, Fault};
ghost use Rattle.array_model.specs.declared.journal.Answer.TheVariants.{Done, Failed};
ghost use Rattle.array_machine.specs.Machine.{Fail};
ghost use Rattle.array_rows.specs.SmallSettings.{starts};
ghost use Rattle.array_rows.specs.Runs.{shown, log_of, left_by, unbounded, stopping, done, stopped};
ghost use Rattle.array_rows.specs.Containers.{parity, holding, torn_parity_block, dirty_parity_block, counting_out, shape};
ghost use Rattle.array_rows.specs.Scripts.{with_ops, reads, at, volume, disk, the_value, anchor_of, anchor_left, written_parity, fails_before};

/// A write to a volume of three members, whose blocks have two sectors: the old data and the old parity are read, both
/// are written and synced. Data and parity then hold the value, and the third member zeros.
pub fn a_write_with_parity()
    ensures journal { shown written_parity unbounded []
        ≡ done (
        at 0 (Begin 2) ∷ at 9 (End 2) ∷ at 9 (Ready (volume 0)) ∷ at 9 (Submit 0) ∷ at 9 (Pending (volume 0))
        ∷ at 9 (Begin 3) ∷ at 18 (End 3) ∷ at 18 (Active (volume 0)) ∷ at 24 (Ack 0 Done) ∷ at 24 (Idle (volume 0))
        ∷ at 24 (Clean (volume 0)) ∷ at 24 (Begin 4) ∷ at 33 (End 4) ∷ []) }
    ensures data { left_by written_parity unbounded [] 0 0 ≡ sector_of the_value }
    ensures parity { left_by written_parity unbounded [] 2 0 ≡ sector_of the_value }
    ensures other { left_by written_parity unbounded [] 1 0 ≡ sector_of 0 }
{}

/// Sectors 20 and 24 of a volume of three members with strips of 8: the parity of both is on the second member.
pub fn where_sectors_lie()
    ensures first { placement_of (shape Five 3 8 32 0) 20 ≡ Some (record { main = 0; other = 1; row = 12 }) }
    ensures second { placement_of (shape Five 3 8 32 0) 24 ≡ Some (record { main = 2; other = 1; row = 8 }) }
    ensures call { slice_get (log_of (with_ops (reads 0 0 24 ∷ []) (parity 3 8 32)) unbounded []) 9 ≡ Some (gets 2 8) }
{}

/// A member fails, then a write's data sector is written and nothing more: the block of both members left says dirty, a
/// slot is lost, and such a volume isn't started again.
pub fn a_degraded_write_is_cut_off()
    ensures journal { shown written_parity (stopping 22) (fails_before 11 2)
        ≡ stopped (
        at 0 (Begin 2) ∷ at 9 (End 2) ∷ at 9 (Ready (volume 0)) ∷ at 9 (Fault (disk 2)) ∷ at 9 (Begin 3)
        ∷ at 9 (Submit 0) ∷ at 9 (Pending (volume 0)) ∷ at 15 (End 3) ∷ at 15 (Unblock (disk 2)) ∷ at 15 (Begin 4)
        ∷ at 21 (End 4) ∷ at 21 (Active (volume 0)) ∷ []) }
    ensures block { anchor_left written_parity (stopping 22) (fails_before 11 2) 1 ≡ anchor_of torn_parity_block }
    ensures unstarted { starts (holding torn_parity_block (parity 3 8 32)) 0 ≡ false }
{}

/// A write is cut off behind its data sector, so that the parity of its row is wrong. In the next run a member fails
/// before the first round has ended: the volume is broken, and a read of what that member held fails.
pub fn a_failure_before_the_first_round_ends()
    ensures cut { shown written_parity (stopping 21) []
        ≡ stopped (
        at 0 (Begin 2) ∷ at 9 (End 2) ∷ at 9 (Ready (volume 0)) ∷ at 9 (Submit 0) ∷ at 9 (Pending (volume 0))
        ∷ at 9 (Begin 3) ∷ at 18 (End 3) ∷ at 18 (Active (volume 0)) ∷ []) }
    ensures block { anchor_left written_parity (stopping 21) [] 0 ≡ anchor_of dirty_parity_block }
    ensures data { left_by written_parity (stopping 21) [] 0 0 ≡ sector_of the_value }
    ensures parity { left_by written_parity (stopping 21) [] 2 0 ≡ sector_of 0 }
    ensures journal { shown (with_ops (reads 0 0 8 ∷ []) (holding dirty_parity_block (parity 3 8 32))) unbounded
        (Fail 2 ∷ [])
        ≡ done (
        at 0 (Fault (disk 2)) ∷ at 0 (Begin 4) ∷ at 0 (Submit 0) ∷ at 1 (Ack 0 Failed) ∷ at 6 (End 4)
        ∷ at 6 (Ready (volume 0)) ∷ at 6 (Pass (volume 0) 0) ∷ at 6 (Unblock (disk 2)) ∷ []) }
{}

/// A disk without a whole block counts out: it is written last, and rebuilt from row 0 on.
pub fn a_disk_that_counts_out()
    ensures journal { shown (counting_out (0 ∷ []) (parity 3 8 32)) unbounded []
        ≡ done (
        at 0 (Begin 2) ∷ at 9 (End 2) ∷ at 9 (Ready (volume 0)) ∷ at 9 (Pass (volume 0) 0) ∷ at 58 (Begin 3)
        ∷ at 67 (End 3) ∷ at 67 (PassEnd (volume 0)) ∷ []) }
    ensures last { slice_get (log_of (counting_out (0 ∷ []) (parity 3 8 32)) unbounded []) 8 ≡ Some (syncs 0) }
{}
