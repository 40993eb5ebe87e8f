//! Runs of `assemble` that open or start what they are not to.
ghost use Rattle.std.specs.Prelude.{◌≡◌, ◌≢◌, ◌<◌, ℕ, Bool, true, false, List, [], ◌∷◌, codes, slice_get, Some};
ghost use Rattle.units.specs.declared.disk.Sector.{Sector};
ghost use Rattle.units.specs.declared.disk.Serial.{Serial};
ghost use Rattle.imsm_base.specs.Fields.{Part};
ghost use Rattle.imsm_base.specs.Layout.{family_of, generation_of, volume_count_of};
ghost use Rattle.imsm_base.specs.Parts.{block_in};
ghost use Rattle.device_log.specs.Log.{Call};
ghost use Rattle.container.specs.declared.volume.VolumeVerdict.{VolumeVerdict};
ghost use Rattle.container.specs.Volumes.{starts};
ghost use Rattle.image_outside.specs.Told.{BankTold};
ghost use Rattle.image_assemble.specs.Endings.{Assembles};
ghost use Rattle.verdict_lines_law.specs.Words.{refused_says, volume_says};
ghost use Rattle.refused_verdicts.specs.Told.{Expects, HoldsContainer, HoldsNewest, IsOfNoUse, Tells};
ghost use Rattle.refused_verdicts.specs.Wrong.{CallsFailed, HasLine, IsTorn, member_line};

/// Without `--run` a container isn't opened where the newest block that stands on its disks expects one that isn't
/// there, on which no whole block or only a spare's stands, of which a read failed, or that is too small.
pub fn heedless_openings_are_refused()
    ensures { (opening : List (List Sector)) (log : List Call) (bank : BankTold) (bytes lines : List ℕ) (entry : Part)
        → Tells opening log bank → HoldsNewest opening bank bytes → Expects bytes entry
        → IsOfNoUse opening log bank entry → Assembles false bank lines 0 → ⊥ }
{}

/// No line says that a RAID 5 volume starts that is unfinished, and of which a member is out of sync or has a disk of
/// no use, with or without `--run`.
pub fn torn_starts_are_refused()
    ensures { (opening : List (List Sector)) (log : List Call) (bank : BankTold) (bytes lines : List ℕ) (run : Bool)
        (status k : ℕ) (says : VolumeVerdict) → Tells opening log bank → HoldsNewest opening bank bytes
        → k < volume_count_of (block_in bytes) → IsTorn opening log bank bytes k → starts says ≡ true
        → HasLine lines (volume_says k says) → Assembles run bank lines status → ⊥ }
{}

/// No line says of a disk that it is a member where each record that the newest block has of it is marked as failed.
pub fn failed_members_are_refused()
    ensures { (opening : List (List Sector)) (log : List Call) (bank : BankTold) (bytes lines : List ℕ) (run : Bool)
        (status k : ℕ) (s : Serial) → Tells opening log bank → HoldsNewest opening bank bytes
        → slice_get bank.serials k ≡ Some s → CallsFailed bytes s
        → HasLine lines (member_line s) → Assembles run bank lines status → ⊥ }
{}

/// Disks that hold blocks of two families are refused, and so are two that hold other blocks of one generation; but a
/// container isn't refused for want of a block where one stands on a disk that could be read.
pub fn mixed_disks_are_refused()
    ensures families { (opening : List (List Sector)) (log : List Call) (bank : BankTold) (one other lines : List ℕ)
        (run : Bool) (status k j : ℕ) (s t : Serial) → Tells opening log bank → HoldsContainer opening bank k s one
        → HoldsContainer opening bank j t other → bank.faults k ≡ 0 → bank.faults j ≡ 0
        → family_of (block_in one) ≢ family_of (block_in other) → status ≢ 3 → Assembles run bank lines status → ⊥ }
    ensures twins { (opening : List (List Sector)) (log : List Call) (bank : BankTold) (one other lines : List ℕ)
        (run : Bool) (status k j : ℕ) (s t : Serial) → Tells opening log bank → HoldsContainer opening bank k s one
        → HoldsContainer opening bank j t other → bank.faults k ≡ 0 → bank.faults j ≡ 0
        → generation_of (block_in one) ≡ generation_of (block_in other) → one ≢ other → status ≢ 3
        → Assembles run bank lines status → ⊥ }
    ensures none { (opening : List (List Sector)) (log : List Call) (bank : BankTold) (bytes lines : List ℕ)
        (run : Bool) (status k : ℕ) (s : Serial) → Tells opening log bank → HoldsContainer opening bank k s bytes
        → bank.faults k ≡ 0 → HasLine lines (refused_says (codes "none" ∷ [])) → Assembles run bank lines status → ⊥ }
{}
