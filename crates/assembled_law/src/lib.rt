//! An assembly of disks that are sound keeps: what `assemble` prints of a bank that tells what it held is by the
//! newest block of all disks, absent ones included, reads trusted slots alone and gives the content; and where the
//! disks of the newest block are there, they are opened.
//!
//! It joins the promise of `image_assemble` with `verdict_law`. It has proofs alone.
#![tactic(auto)]

ghost use Rattle.std.specs.Prelude.{◌≡◌, ℕ, ◌<◌, ◌≤◌, Bool, false, List};
ghost use Rattle.units.specs.declared.bounds.TheConstants.{FIRST_GENERATION_REFUSED, MAX_BLOCK_BYTES};
ghost use Rattle.units.specs.declared.disk.Sector.{Sector};
ghost use Rattle.imsm_base.specs.Parts.{block_in};
ghost use Rattle.device_log.specs.Log.{Call};
ghost use Rattle.array_model.specs.Blocks.{Laid, Words};
ghost use Rattle.block_meaning.specs.Meaning.{ReadsBlocks, bytes_of_laid};
ghost use Rattle.container.specs.declared.verdict.Opening.{Opening};
ghost use Rattle.container.specs.declared.verdict.Verdict.TheVariants.{Ready};
ghost use Rattle.container.specs.Verdicts.{full_size};
ghost use Rattle.verdict_text.specs.Lines.{verdict_lines};
ghost use Rattle.image_outside.specs.Told.{BankTold};
ghost use Rattle.image_assemble.specs.Endings.{Assembles};
ghost use Rattle.sound_images.specs.Images.{AreAmong, Image, IsComplete, IsHeld, IsNewestOf};
ghost use Rattle.sound_images.specs.Keeps.{AreLargeEnough, Keeps, Opens};
ghost use Rattle.sound_images.specs.Sound.{SoundImages};
ghost use Rattle.verdict_law.specs.OnImages.{SaysBlockOf};
ghost use Rattle.assembled_law.specs.Present.{TellsWell, present_on};

/// Where some of the disks of sound images are assembled without `--run`, no call on them failed, and a volume is said
/// to start (status 0), the lines are those of an opening by the newest block of all images, which keeps what
/// `keep_law` says, and says of each volume what that block's words say.
///
/// Where these disks hold the newest block of all, each disk that it expects is one of them, holds a whole block of a
/// container and is large enough, the block fits with a second map for each volume, and its generation is none of the
/// last, the lines are those of an opening.
pub fn assembled_law()
    ensures keeps { (W : Words) (images : List Image) (content : ℕ → ℕ → Sector) (unsure : ℕ → ℕ → Bool) (mark : ℕ)
        (bank : BankTold) (opening : List (List Sector)) (log : List Call) (lines : List ℕ) → ReadsBlocks W
        → SoundImages W bytes_of_laid images content unsure mark → TellsWell opening log bank
        → AreAmong (present_on bank opening) images → Assembles false bank lines 0
        → (o : Opening) × (lines ≡ verdict_lines bank.serials bank.serials (Ready o))
        × (m : Laid) × Opens W bytes_of_laid (present_on bank opening) m
        × Keeps W images (present_on bank opening) content unsure mark m × SaysBlockOf W m o }
    ensures opens { (W : Words) (images : List Image) (content : ℕ → ℕ → Sector) (unsure : ℕ → ℕ → Bool) (mark : ℕ)
        (bank : BankTold) (opening : List (List Sector)) (log : List Call) (lines : List ℕ) (status : ℕ) (m : Laid)
        → ReadsBlocks W → SoundImages W bytes_of_laid images content unsure mark → TellsWell opening log bank
        → AreAmong (present_on bank opening) images → IsNewestOf W images m → IsHeld W (present_on bank opening) m
        → IsComplete W (present_on bank opening) m → AreLargeEnough W (present_on bank opening) m
        → full_size (block_in (bytes_of_laid m)) ≤ MAX_BLOCK_BYTES → W.generation m.anchor < FIRST_GENERATION_REFUSED
        → Assembles false bank lines status
        → (o : Opening) × (lines ≡ verdict_lines bank.serials bank.serials (Ready o)) }
{}
