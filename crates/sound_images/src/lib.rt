//! Sound images: what disks hold, present or not, so that any of them can be put together again without loss; when
//! disks that are present are opened, and what an opening keeps. Definitions, of all levels, in the words of blocks.
//!
//! It owes that the words of a block's bytes agree as the definitions ask, and give the verdict of `container`;
//! and for each level an example of sound images, and of each way to be unsound one that isn't. It has proofs alone.
//!
//! `keep_law` proves that sound images keep.
#![tactic(auto)]

ghost use Rattle.std.specs.Prelude.{◌≡◌, ℕ, Bool, List, slice_get, Some};
ghost use Rattle.units.specs.declared.disk.Sector.{Sector};
ghost use Rattle.imsm_base.specs.Layout.{Block, Volume};
ghost use Rattle.imsm_base.specs.Volumes.{members};
ghost use Rattle.imsm_base.specs.Whole.{standing};
ghost use Rattle.array_model.specs.Blocks.{Laid, Words, SaysAlike};
ghost use Rattle.container.specs.Volumes.{verdict_with};
ghost use Rattle.block_meaning.specs.Meaning.{bytes_of_laid, ReadsBlocks, SaysBlock};
ghost use Rattle.sound_images.specs.Images.{Image, IsHeld, AreOneContainer, block_on};
ghost use Rattle.sound_images.specs.Sound.{SoundImages};
ghost use Rattle.sound_images.specs.Volumes.{WordsAgree, verdict_in_words};

mod examples;

pub use examples::{
    example_of_old_blocks, example_of_one_container, example_of_openings, example_of_rows,
    example_of_sound_images, example_of_what_is_given,
};

/// Where the disks are of one container, by the bytes of their blocks, blocks of one generation that two of them hold say
/// alike, by the words that are read from those bytes: so of sound disks.
pub fn blocks_of_one_generation_say_alike()
    ensures container { (W : Words) (images : List Image) (a b : Laid) → ReadsBlocks W
        → AreOneContainer W bytes_of_laid images → IsHeld W images a → IsHeld W images b
        → W.generation a.anchor ≡ W.generation b.anchor → SaysAlike W a b }
    ensures sound { (W : Words) (images : List Image) (content : ℕ → ℕ → Sector) (unsure : ℕ → ℕ → Bool) (mark : ℕ)
        (a b : Laid) → ReadsBlocks W → SoundImages W bytes_of_laid images content unsure mark
        → IsHeld W images a → IsHeld W images b → W.generation a.anchor ≡ W.generation b.anchor → SaysAlike W a b }
{}

/// The words that are read from a block's bytes agree on the volumes of a whole block, and the verdict that they give
/// on a volume is that of its fields. The block that stands on a disk by them has the bytes that stand there.
pub fn words_of_bytes_agree()
    ensures agree { (W : Words) → ReadsBlocks W → WordsAgree W }
    ensures stands { (W : Words) (i : Image) → ReadsBlocks W → bytes_of_laid (block_on W i) ≡ standing i.sectors i.at }
    ensures verdict { (W : Words) (m : Laid) (b : Block) (v : ℕ) (x : Volume) → SaysBlock W m b
        → slice_get b.volumes v ≡ Some x → verdict_in_words W m v ≡ verdict_with b x (members x) }
{}
