//! Runs of `incremental`.
ghost use Rattle.std.specs.Prelude.{◌≡◌, ◌<◌, ◌++◌, ◌∷◌, ℕ, Bool, List, Contains, codes, slice_get, Some};
ghost use Rattle.units.specs.declared.disk.Sector.{Sector};
ghost use Rattle.units.specs.declared.disk.Serial.{Serial};
ghost use Rattle.device_log.specs.Log.{Call, IsReadCall};
ghost use Rattle.image_outside.specs.Told.{BankTold};
ghost use Rattle.image_assemble.specs.Endings.{Assembles};
ghost use Rattle.image_incremental.specs.Endings.{Arrives};
ghost use Rattle.verdict_lines_law.specs.Words.{words_in};
ghost use Rattle.refused_verdicts.specs.Arrivals.{late_says};
ghost use Rattle.refused_verdicts.specs.Told.{Tells};
ghost use Rattle.refused_verdicts.specs.Wrong.{HasLine};

/// No disk comes too late while disks are waited for, and none arrives behind the line of a disk of an opening.
pub fn hasty_openings_are_refused()
    ensures waiting { (run : Bool) (bank : BankTold) (lines : List ℕ) (s : Serial)
        → HasLine lines (late_says s) → Arrives run bank lines 2 → ⊥ }
    ensures behind { (run : Bool) (bank : BankTold) (lines : List ℕ) (status i j : ℕ) (role name : List (List ℕ))
        → i < j → slice_get (words_in lines) i ≡ Some (codes "disk" ∷ role)
        → slice_get (words_in lines) j ≡ Some (codes "arrive" ∷ name) → Arrives run bank lines status → ⊥ }
{}

/// A disk that is said to come too late isn't looked at, and none is written or synced.
pub fn late_looks_are_refused()
    ensures late { (opening : List (List Sector)) (log : List Call) (bank : BankTold) (lines : List ℕ) (run : Bool)
        (status k : ℕ) (s : Serial) (call : Call) → Tells opening log bank → slice_get bank.serials k ≡ Some s
        → HasLine lines (late_says s) → Contains log call → call.disk ≡ k → Arrives run bank lines status → ⊥ }
    ensures changed { (opening : List (List Sector)) (log : List Call) (bank : BankTold) (lines : List ℕ) (run : Bool)
        (status : ℕ) (call : Call) → Tells opening log bank → Contains log call → (IsReadCall call.what → ⊥)
        → Arrives run bank lines status → ⊥ }
{}

/// A bank that tells what stood on its disks has one arrival: whatever two programs print of it, if both keep the
/// promise, they print the same lines and end with the same status.
pub fn a_told_bank_has_one_arrival()
    ensures { (opening : List (List Sector)) (log : List Call) (bank : BankTold) (run : Bool) (lines others : List ℕ)
        (status other : ℕ) → Tells opening log bank → Arrives run bank lines status
        → Arrives run bank others other → (lines ≡ others) × (status ≡ other) }
{}

/// Where no disk comes too late, the lines end with those of an assembly, which has the same status.
pub fn arrivals_end_as_an_assembly()
    ensures { (run : Bool) (bank : BankTold) (lines : List ℕ) (status : ℕ) → Arrives run bank lines status
        → ((s : Serial) → HasLine lines (late_says s) → ⊥)
        → (front said : List ℕ) × (lines ≡ front ++ said) × Assembles run bank said status }
{}
