//! Runs of `assemble` that say what isn't so.
ghost use Rattle.std.specs.Prelude.{◌≡◌, ◌≢◌, ◌≤◌, ℕ, Bool, true, false, List, [], ◌∷◌, Contains, codes, slice_get, slice_index, Some};
ghost use Rattle.std.specs.Fmt.{decimal};
ghost use Rattle.units.specs.declared.disk.Sector.{Sector};
ghost use Rattle.units.specs.declared.disk.Serial.{Serial};
ghost use Rattle.imsm_base.specs.Fields.{Part};
ghost use Rattle.imsm_base.specs.Layout.{generation_of, serial_of, total_blocks_of};
ghost use Rattle.imsm_base.specs.Parts.{block_in};
ghost use Rattle.device_log.specs.Log.{Call};
ghost use Rattle.mpb_store.specs.declared.answer.Found.TheVariants.{Blank, Torn};
ghost use Rattle.mpb_store.specs.declared.answer.StoreFault.{StoreFault};
ghost use Rattle.fault_text.specs.Words.{torn_words};
ghost use Rattle.container.specs.declared.volume.VolumeVerdict.{VolumeVerdict};
ghost use Rattle.container.specs.Volumes.{starts};
ghost use Rattle.image_outside.specs.Told.{BankTold};
ghost use Rattle.image_assemble.specs.Endings.{Assembles};
ghost use Rattle.verdict_lines_law.specs.Words.{family_says, refused_says, volume_says};
ghost use Rattle.refused_verdicts.specs.Told.{Expects, Holds, HoldsContainer, HoldsNewest, HoldsSpare, IsAbsent, Tells};
ghost use Rattle.refused_verdicts.specs.Wrong.{HasLine, TellsByName, waits_line};

/// A disk that could be read is waited for as torn, with its fault, where it is torn, as blank where it is blank, as a
/// spare where it is one, and for no other cause; one of which a call failed, as unread. None is waited for where a
/// container's block stands on it and it is large enough. Where disks are waited for, an expected one that isn't there
/// is named as absent.
pub fn wrong_causes_are_refused()
    ensures torn { (opening : List (List Sector)) (log : List Call) (bank : BankTold) (bytes lines : List ℕ)
        (run : Bool) (status k : ℕ) (s : Serial) (fault : StoreFault) (cause : List (List ℕ)) → Tells opening log bank
        → HoldsNewest opening bank bytes → Holds opening bank k s (Torn fault) → bank.faults k ≡ 0
        → TellsByName bytes s → cause ≢ torn_words fault
        → HasLine lines (waits_line s cause) → Assembles run bank lines status → ⊥ }
    ensures blank { (opening : List (List Sector)) (log : List Call) (bank : BankTold) (bytes lines : List ℕ)
        (run : Bool) (status k : ℕ) (s : Serial) (cause : List (List ℕ)) → Tells opening log bank
        → HoldsNewest opening bank bytes → Holds opening bank k s Blank → bank.faults k ≡ 0
        → TellsByName bytes s → cause ≢ codes "blank" ∷ []
        → HasLine lines (waits_line s cause) → Assembles run bank lines status → ⊥ }
    ensures spare { (opening : List (List Sector)) (log : List Call) (bank : BankTold) (bytes lines : List ℕ)
        (run : Bool) (status k : ℕ) (s : Serial) (cause : List (List ℕ)) → Tells opening log bank
        → HoldsNewest opening bank bytes → HoldsSpare opening bank k s → bank.faults k ≡ 0 → TellsByName bytes s
        → cause ≢ codes "spare" ∷ []
        → HasLine lines (waits_line s cause) → Assembles run bank lines status → ⊥ }
    ensures unread { (opening : List (List Sector)) (log : List Call) (bank : BankTold) (bytes lines : List ℕ)
        (run : Bool) (status k : ℕ) (s : Serial) (call : Call) (cause : List (List ℕ)) → Tells opening log bank
        → HoldsNewest opening bank bytes → slice_get bank.serials k ≡ Some s → Contains log call → call.disk ≡ k
        → call.went ≡ false → TellsByName bytes s → cause ≢ codes "unread" ∷ []
        → HasLine lines (waits_line s cause) → Assembles run bank lines status → ⊥ }
    ensures whole { (opening : List (List Sector)) (log : List Call) (bank : BankTold) (bytes own lines : List ℕ)
        (run : Bool) (status k : ℕ) (s : Serial) (cause : List (List ℕ)) → Tells opening log bank
        → HoldsNewest opening bank bytes → HoldsContainer opening bank k s own → bank.faults k ≡ 0
        → TellsByName bytes s → ((i : ℕ) (entry : Part) → slice_get (block_in bytes).disks i ≡ Some entry
        → serial_of entry ≡ s.0 → total_blocks_of entry ≤ slice_index bank.sizes k)
        → HasLine lines (waits_line s cause) → Assembles run bank lines status → ⊥ }
    ensures absent { (opening : List (List Sector)) (log : List Call) (bank : BankTold) (bytes lines : List ℕ)
        (run : Bool) (entry : Part) → Tells opening log bank → HoldsNewest opening bank bytes → Expects bytes entry
        → IsAbsent bank (serial_of entry)
        → (HasLine lines (waits_line (record { 0 = serial_of entry }) (codes "absent" ∷ [])) → ⊥)
        → Assembles run bank lines 2 → ⊥ }
{}

/// No family line has another generation than the newest block that stands on the disks.
pub fn stale_verdicts_are_refused()
    ensures { (opening : List (List Sector)) (log : List Call) (bank : BankTold) (bytes lines : List ℕ) (run : Bool)
        (status family generation : ℕ) → Tells opening log bank → HoldsNewest opening bank bytes
        → decimal generation ≢ decimal (generation_of (block_in bytes))
        → HasLine lines (family_says family generation) → Assembles run bank lines status → ⊥ }
{}

/// Whatever the bank tells, the status is 2 where a disk is waited for, 3 where the container is refused, and 0 where a
/// volume starts.
pub fn wrong_statuses_are_refused()
    ensures waiting { (run : Bool) (bank : BankTold) (lines : List ℕ) (status : ℕ) (words : List (List ℕ))
        → HasLine lines (codes "waiting" ∷ words) → status ≢ 2 → Assembles run bank lines status → ⊥ }
    ensures refused { (run : Bool) (bank : BankTold) (lines : List ℕ) (status : ℕ) (words : List (List ℕ))
        → HasLine lines (refused_says words) → status ≢ 3 → Assembles run bank lines status → ⊥ }
    ensures started { (run : Bool) (bank : BankTold) (lines : List ℕ) (status k : ℕ) (says : VolumeVerdict)
        → HasLine lines (volume_says k says) → starts says ≡ true → status ≢ 0 → Assembles run bank lines status → ⊥ }
{}
