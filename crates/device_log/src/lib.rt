//! Definitions of the log of device calls, of what stands at each place of a disk after it, and of what a stop may
//! leave there.
//!
//! It has no code but an example, which is proved: a torn write, and a sync behind it. The devices of `member_bank`
//! log their calls in these words, and the laws of a run are said of such a log.
#![tactic(auto)]

ghost use Rattle.std.specs.Prelude.{◌≡◌, true, false, [], ◌∷◌};
ghost use Rattle.units.specs.declared.disk.Sector.{Sector as SectorBytes};
ghost use Rattle.device_log.specs.Log.{Call, Read, Write, Sync};
ghost use Rattle.device_log.specs.Cells.{Stands, MayLeave, cell_after, resting};

/// A failed write of two sectors that stored the first alone: that one stands, the second doesn't, and a stop may leave
/// anything at both places. After a sync only what stands can be left.
pub fn example_of_a_torn_write()
    ensures stored { (a b x y : SectorBytes)
        → Stands ((a ∷ b ∷ []) ∷ []) (record { disk = 0; what = Write 0 (x ∷ y ∷ []) 1; went = false } ∷ []) 0 0 x }
    ensures lost { (a b x y : SectorBytes)
        → Stands ((a ∷ b ∷ []) ∷ []) (record { disk = 0; what = Write 0 (x ∷ y ∷ []) 1; went = false } ∷ []) 0 1 b }
    ensures synced { (a x z : SectorBytes)
        → MayLeave (cell_after 0 0 (resting a) (record { disk = 0; what = Write 0 (x ∷ []) 1; went = true }
        ∷ record { disk = 0; what = Sync; went = true } ∷ [])) z → z ≡ x }
{}
