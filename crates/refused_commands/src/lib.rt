//! What the promise of a command refuses: runs that a careless or a lazy command would leave, each with the proof that
//! the promise doesn't admit it, and right ones beside them that it admits; and that what `create` is said to have made
//! is sound. They are proved, not run.
//!
//! Nothing stands on it: it shows of the definitions that `image_run` promises by that they are not too weak. A wrong
//! run that is found to be admitted belongs here, once the definitions refuse it.
#![tactic(auto)]

ghost use Rattle.std.specs.Prelude.{ℕ, ◌≡◌, ◌≢◌, Bool, false, List, [], ◌∷◌, ◌++◌, Some};
ghost use Rattle.std.specs.Option.{IsSomeAnd};
ghost use Rattle.device_log.specs.Log.{Call};
ghost use Rattle.units.specs.declared.disk.Sector.{Sector};
ghost use Rattle.units.specs.declared.disk.Serial.{Serial};
ghost use Rattle.units.specs.Places.{anchor_place};
ghost use Rattle.mpb_store.specs.Banks.{blank_sector};
ghost use Rattle.array_model.specs.Blocks.{Laid, Words};
ghost use Rattle.array_model.specs.Kept.{ScriptState};
ghost use Rattle.block_meaning.specs.Meaning.{ReadsBlocks, bytes_of_laid};
ghost use Rattle.new_container.specs.declared.container.NewContainer.{NewContainer};
ghost use Rattle.image_outside.specs.Endings.{EndsWithoutMemory};
ghost use Rattle.image_outside.specs.Shelves.{IsUncalled, IsUnused};
ghost use Rattle.image_outside.specs.Told.{BankTold};
ghost use Rattle.image_words.specs.Words.{ImageWord};
ghost use Rattle.image_assemble.specs.Endings.{Assembles};
ghost use Rattle.image_incremental.specs.Endings.{Arrives};
ghost use Rattle.image_verdict.specs.Endings.{Reports};
ghost use Rattle.image_verdict.specs.Text.{unbuilt_line};
ghost use Rattle.image_create.specs.Calls.{create_calls};
ghost use Rattle.image_create.specs.Creates.{CreatesBy, disks_in, rows_on};
ghost use Rattle.sound_images.specs.Images.{Image};
ghost use Rattle.sound_images.specs.Keeps.{Opens};
ghost use Rattle.sound_images.specs.Sound.{SoundImages};
ghost use Rattle.stop_images.specs.Left.{AreLeft};
ghost use Rattle.created_law.specs.OnBank.{IsCreatedOn, disks_told};
ghost use Rattle.image_replay.specs.Replays.{ReplaysBy};
ghost use Rattle.image_run.specs.Does.{Does};
ghost use Rattle.image_run.specs.Outside.{Outside};
ghost use Rattle.image_run.specs.Requests.{Request, Assemble, Incremental, Create, Replay};
ghost use Rattle.image_run.specs.Runs.{Carries};
ghost use Rattle.image_run.specs.Scripts.{TakesScript};
ghost use Rattle.refused_commands.specs.Wrong.{FailsAnchor, HoldsPair, LeavesAnchor, StandsStill, TellsChange, TellsOfFirst, TellsOfOne, images_of, read_of};

/// Two images whose files were opened in the other order are refused, whatever was asked for and however it ends. In
/// the order of the words they are admitted, with what is made or said of their bank.
pub fn swapped_files_are_refused()
    ensures swapped { (request : Request) (a b : ImageWord) (before after : Outside) (lines : List ℕ) (status : ℕ)
        → images_of request ≡ a ∷ b ∷ [] → a.file ≢ b.file
        → after.shelf.paths ≡ before.shelf.paths ++ b.file ∷ a.file ∷ [] → Does request before after lines status → ⊥ }
    ensures assembled { (run : Bool) (a b : ImageWord) (before after : Outside) (bank : BankTold)
        → (lines : List ℕ) (status : ℕ) → HoldsPair a b before.shelf after.shelf bank → after.source ≡ before.source
        → Assembles run bank lines status → Does (Assemble run (a ∷ b ∷ [])) before after lines status }
    ensures arrived { (run : Bool) (a b : ImageWord) (before after : Outside) (bank : BankTold)
        → (lines : List ℕ) (status : ℕ) → HoldsPair a b before.shelf after.shelf bank → after.source ≡ before.source
        → Arrives run bank lines status → Does (Incremental run (a ∷ b ∷ [])) before after lines status }
    ensures created { (made : NewContainer) (a b : ImageWord) (before after : Outside) (bank : BankTold)
        → (lines : List ℕ) (status : ℕ) → HoldsPair a b before.shelf after.shelf bank → after.source ≡ before.source
        → CreatesBy made bank lines status → Does (Create made (a ∷ b ∷ [])) before after lines status }
    ensures replayed { (limit : ℕ) (script : ScriptState) (a b : ImageWord) (before after : Outside) (bank : BankTold)
        → (lines : List ℕ) (status : ℕ) → HoldsPair a b before.shelf after.shelf bank
        → TakesScript before.source after.source script → ReplaysBy script limit bank lines status
        → Does (Replay limit (a ∷ b ∷ [])) before after lines status }
{}

/// Whatever a replay says of one image before it runs, it is refused where no call was made, where the anchor was read
/// twice, and where another place was read. One whose anchor couldn't be read is admitted as not built yet, behind that
/// one call.
pub fn misread_anchors_are_refused()
    ensures unread { (n : ℕ) (bank : BankTold) (lines : List ℕ) (status : ℕ)
        → TellsOfOne n [] bank → Reports bank lines status → ⊥ }
    ensures twice { (n : ℕ) (bank : BankTold) (lines : List ℕ) (status : ℕ)
        → TellsOfOne n (read_of (anchor_place n) ∷ read_of (anchor_place n) ∷ []) bank → Reports bank lines status → ⊥ }
    ensures elsewhere { (n place : ℕ) (bank : BankTold) (lines : List ℕ) (status : ℕ) → place ≢ anchor_place n
        → TellsOfOne n (read_of place ∷ []) bank → Reports bank lines status → ⊥ }
    ensures once { (own : Serial) (n : ℕ) (bank : BankTold)
        → FailsAnchor own n bank → Reports bank (unbuilt_line own) 14 }
{}

/// A container is refused as made where no call writes the place of the first disk's anchor, and where the calls are
/// those for a first disk whose anchor has another place: so where zeros and anchor are a sector lower.
pub fn misplaced_containers_are_refused()
    ensures unwritten { (made : NewContainer) (n : ℕ) (log : List Call) (bank : BankTold) (lines : List ℕ)
        → LeavesAnchor n log → TellsOfFirst n log bank → CreatesBy made bank lines 0 → ⊥ }
    ensures resized { (made : NewContainer) (n m : ℕ) (sizes bytes : List ℕ) (bank : BankTold) (lines : List ℕ)
        → anchor_place m ≢ anchor_place n → TellsOfFirst n (create_calls (m ∷ sizes) (rows_on made bank) bytes) bank
        → CreatesBy made bank lines 0 → ⊥ }
{}

/// A replay whose source didn't fail is refused as one that did, and a verdict that read from its source is refused
/// however it ends.
pub fn forged_read_faults_are_refused()
    ensures faultless { (limit : ℕ) (images : List ImageWord) (before after : Outside) (lines : List ℕ)
        → StandsStill before.source.faults after.source.faults → Does (Replay limit images) before after lines 5 → ⊥ }
    ensures greedy { (run : Bool) (images : List ImageWord) (before after : Outside) (lines : List ℕ) (status : ℕ)
        → after.source ≢ before.source → Does (Assemble run images) before after lines status → ⊥ }
    ensures greedy_arrival { (run : Bool) (images : List ImageWord) (before after : Outside) (lines : List ℕ)
        → (status : ℕ) → after.source ≢ before.source → Does (Incremental run images) before after lines status → ⊥ }
{}

/// Whatever was asked for, a write fault is refused where no write failed, and want of memory where a disk was written
/// or synced.
pub fn forged_ends_are_refused()
    ensures faultless { (request : Request) (before after : Outside)
        → StandsStill before.sink.faults after.sink.faults → Carries request before after 6 → ⊥ }
    ensures written { (request : Request) (before after : Outside) → IsSomeAnd before.shelf.bank IsUnused
        → IsSomeAnd after.shelf.bank TellsChange → Carries request before after 9 → ⊥ }
{}

/// Want of memory is refused behind a file that isn't the first image's, behind a source that was read while no image
/// was open, and behind an anchor that was read twice. Where both images are open and no call was made, it is admitted.
pub fn careless_wants_of_memory_are_refused()
    ensures elsewhere { (request : Request) (a : ImageWord) (rest : List ImageWord) (path : List ℕ)
        → (before after : Outside) → images_of request ≡ a ∷ rest → path ≢ a.file
        → after.shelf.paths ≡ before.shelf.paths ++ path ∷ []
        → Carries request before after 9 → ⊥ }
    ensures greedy { (limit : ℕ) (a : ImageWord) (rest : List ImageWord) (before after : Outside)
        → after.source ≢ before.source → after.shelf.paths ≡ before.shelf.paths
        → Carries (Replay limit (a ∷ rest)) before after 9 → ⊥ }
    ensures twice { (limit n : ℕ) (images : List ImageWord) (before after : Outside) (bank : BankTold)
        → TellsOfOne n (read_of (anchor_place n) ∷ read_of (anchor_place n) ∷ []) bank → after.shelf.bank ≡ Some bank
        → Carries (Replay limit images) before after 9 → ⊥ }
    ensures twice_assembled { (run : Bool) (n : ℕ) (images : List ImageWord) (before after : Outside) (bank : BankTold)
        → TellsOfOne n (read_of (anchor_place n) ∷ read_of (anchor_place n) ∷ []) bank → after.shelf.bank ≡ Some bank
        → Carries (Assemble run images) before after 9 → ⊥ }
    ensures twice_arrived { (run : Bool) (n : ℕ) (images : List ImageWord) (before after : Outside) (bank : BankTold)
        → TellsOfOne n (read_of (anchor_place n) ∷ read_of (anchor_place n) ∷ []) bank → after.shelf.bank ≡ Some bank
        → Carries (Incremental run images) before after 9 → ⊥ }
    ensures opened { (run : Bool) (a b : ImageWord) (before after : Outside) (bank : BankTold)
        → HoldsPair a b before.shelf after.shelf bank → IsUncalled bank → after.source ≡ before.source
        → EndsWithoutMemory before.sink after.sink → Carries (Assemble run (a ∷ b ∷ [])) before after 9 }
{}

/// A container that is said to be made is sound, whatever a stop leaves of its disks then: each sector of its volumes
/// is zeros, none is unsure, and the mark is 1. Its volumes start by the block, which is the newest on its disks.
pub fn what_is_made_is_sound()
    ensures sound { (W : Words) (made : NewContainer) (images : List ImageWord) (before after : Outside)
        (bank : BankTold) (opening : List (List Sector)) (log : List Call) (left : List Image) → ReadsBlocks W
        → after.shelf.bank ≡ Some bank → bank.opening ≡ Some opening → bank.log ≡ Some log
        → AreLeft (disks_told bank opening) log left → Carries (Create made images) before after 0
        → SoundImages W bytes_of_laid left (λ v s. blank_sector) (λ v s. false) 1 }
    ensures opens { (W : Words) (made : NewContainer) (images : List ImageWord) (before after : Outside)
        (bank : BankTold) (opening : List (List Sector)) (log : List Call) (left : List Image) → ReadsBlocks W
        → after.shelf.bank ≡ Some bank → bank.opening ≡ Some opening → bank.log ≡ Some log
        → AreLeft (disks_told bank opening) log left → Carries (Create made images) before after 0
        → (m : Laid) × IsCreatedOn W made (disks_in bank) left m × Opens W bytes_of_laid left m }
{}
