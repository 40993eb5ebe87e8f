//! Runs of `assemble` that look at disks otherwise than they are to, and that there is one right run.
ghost use Rattle.std.specs.Prelude.{◌≡◌, ◌≢◌, ◌<◌, ◌≤◌, ℕ, Bool, List, Contains, length, slice_get, slice_index, Some};
ghost use Rattle.units.specs.declared.bounds.TheConstants.{METADATA_SECTORS};
ghost use Rattle.units.specs.declared.disk.Sector.{Sector};
ghost use Rattle.device_log.specs.Log.{Call, IsReadCall, Read};
ghost use Rattle.image_outside.specs.Told.{BankTold};
ghost use Rattle.image_assemble.specs.Endings.{Assembles};
ghost use Rattle.refused_verdicts.specs.Told.{Tells, block_places};

/// No disk is written or synced, nothing is read but the places of the block at its end, none of them twice, and no
/// disk behind one with a higher number. No disk that has room for a block is left out.
pub fn wrong_looks_are_refused()
    ensures changed { (opening : List (List Sector)) (log : List Call) (bank : BankTold) (lines : List ℕ) (run : Bool)
        (status : ℕ) (call : Call) → Tells opening log bank → Contains log call → (IsReadCall call.what → ⊥)
        → Assembles run bank lines status → ⊥ }
    ensures elsewhere { (opening : List (List Sector)) (log : List Call) (bank : BankTold) (lines : List ℕ)
        (run : Bool) (status place : ℕ) (call : Call) → Tells opening log bank → Contains log call
        → call.what ≡ Read place → (Contains (block_places opening bank.sizes call.disk) place → ⊥)
        → Assembles run bank lines status → ⊥ }
    ensures twice { (opening : List (List Sector)) (log : List Call) (bank : BankTold) (lines : List ℕ) (run : Bool)
        (status i j : ℕ) (one other : Call) → Tells opening log bank → i < j → slice_get log i ≡ Some one
        → slice_get log j ≡ Some other → one.disk ≡ other.disk → one.what ≡ other.what
        → Assembles run bank lines status → ⊥ }
    ensures turned { (opening : List (List Sector)) (log : List Call) (bank : BankTold) (lines : List ℕ) (run : Bool)
        (status i j : ℕ) (one other : Call) → Tells opening log bank → i < j → slice_get log i ≡ Some one
        → slice_get log j ≡ Some other → other.disk < one.disk → Assembles run bank lines status → ⊥ }
    ensures left_out { (opening : List (List Sector)) (log : List Call) (bank : BankTold) (lines : List ℕ)
        (run : Bool) (status k : ℕ) → Tells opening log bank → k < length bank.serials
        → METADATA_SECTORS ≤ slice_index bank.sizes k
        → ((call : Call) → Contains log call → call.disk ≢ k) → Assembles run bank lines status → ⊥ }
{}

/// A bank that tells what stood on its disks has one assembly: whatever two programs print of it, if both keep the
/// promise, they print the same lines and end with the same status.
pub fn a_told_bank_has_one_assembly()
    ensures { (opening : List (List Sector)) (log : List Call) (bank : BankTold) (run : Bool) (lines others : List ℕ)
        (status other : ℕ) → Tells opening log bank → Assembles run bank lines status
        → Assembles run bank others other → (lines ≡ others) × (status ≡ other) }
{}
