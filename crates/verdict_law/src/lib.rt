//! The verdict on disks that stand on sound images: a Ready one keeps, and where the disks of the newest block are
//! there it is Ready.
//!
//! The one function has this as its contract and nothing to run. It joins the verdict of `container`, on disks seen as
//! `assembly` sees them, with what `keep_law` says of images, for words of blocks that are read from their bytes.
#![tactic(auto)]

ghost use Rattle.std.specs.Prelude.{◌≡◌, ℕ, ◌<◌, ◌≤◌, Bool, false, List};
ghost use Rattle.units.specs.declared.bounds.TheConstants.{FIRST_GENERATION_REFUSED, MAX_BLOCK_BYTES};
ghost use Rattle.units.specs.declared.disk.Sector.{Sector};
ghost use Rattle.imsm_base.specs.Parts.{block_in};
ghost use Rattle.array_model.specs.Blocks.{Laid, Words};
ghost use Rattle.block_meaning.specs.Meaning.{ReadsBlocks, bytes_of_laid};
ghost use Rattle.container.specs.declared.seen.Seen.{Seen};
ghost use Rattle.container.specs.declared.verdict.Opening.{Opening};
ghost use Rattle.container.specs.declared.verdict.Verdict.{Verdict};
ghost use Rattle.container.specs.declared.verdict.Verdict.TheVariants.{Ready};
ghost use Rattle.container.specs.Verdicts.{IsVerdict, full_size};
ghost use Rattle.sound_images.specs.Images.{AreAmong, Image, IsComplete, IsHeld, IsNewestOf};
ghost use Rattle.sound_images.specs.Keeps.{AreLargeEnough, Keeps, Opens};
ghost use Rattle.sound_images.specs.Sound.{SoundImages};
ghost use Rattle.verdict_law.specs.OnImages.{AreSeenOn, SaysBlockOf};

/// Where some of the disks of sound images were seen as they stand there, and the verdict on them, without a start that
/// does without disks, is that they are opened, it is by the newest block of all images, and keeps what `keep_law`
/// says. What is said of each volume is what that block's words say.
///
/// Where disks that are present hold the newest block of all, each disk that it expects is one of them, holds a whole
/// block of a container and is large enough, the block fits with a second map for each volume, and its generation is
/// none of the last, the verdict is that they are opened.
pub fn verdict_law()
    ensures keeps { (W : Words) (images present : List Image) (content : ℕ → ℕ → Sector) (unsure : ℕ → ℕ → Bool)
        (mark : ℕ) (seen : List Seen) (o : Opening) → ReadsBlocks W
        → SoundImages W bytes_of_laid images content unsure mark → AreAmong present images → AreSeenOn present seen
        → IsVerdict seen false (Ready o)
        → (m : Laid) × Opens W bytes_of_laid present m × Keeps W images present content unsure mark m
        × SaysBlockOf W m o }
    ensures ready { (W : Words) (images present : List Image) (content : ℕ → ℕ → Sector) (unsure : ℕ → ℕ → Bool)
        (mark : ℕ) (seen : List Seen) (m : Laid) (v : Verdict) → ReadsBlocks W
        → SoundImages W bytes_of_laid images content unsure mark → AreAmong present images → AreSeenOn present seen
        → IsNewestOf W images m → IsHeld W present m → IsComplete W present m → AreLargeEnough W present m
        → full_size (block_in (bytes_of_laid m)) ≤ MAX_BLOCK_BYTES → W.generation m.anchor < FIRST_GENERATION_REFUSED
        → IsVerdict seen false v → (o : Opening) × (v ≡ Ready o) }
{}
