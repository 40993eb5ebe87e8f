//! The words of metadata blocks that the laws of a run use, read from a block's bytes, and the edit of a round on
//! those bytes.
//!
//! It owes that these words are those of `imsm_base`, and that the edit makes of a container's block of one sector a
//! whole block with that generation and that dirty bit, which says all else as before. It has proofs alone.
//!
//! It is where the laws, which know no bytes, meet the format: `first_opening` and `control_state` stand on it.
#![tactic(auto)]

ghost use Rattle.std.specs.Prelude.{◌≡◌, ℕ, Bool, List, []};
ghost use Rattle.imsm_base.specs.Layout.{Block};
ghost use Rattle.imsm_base.specs.Whole.{IsWholeDisk};
ghost use Rattle.imsm_base.specs.FirstForm.{IsFirstForm};
ghost use Rattle.array_model.specs.Blocks.{Laid};
ghost use Rattle.block_meaning.specs.Meaning.{bytes_of_laid, ReadsBlocks};
ghost use Rattle.array_model.specs.Renewal.{FitsGeneration, IsRenewable, IsRenewed};
ghost use Rattle.block_meaning.specs.Reading.{block_words};
ghost use Rattle.block_meaning.specs.Renewed.{renewed};

/// The words that are read from a block's bytes are those of imsm_base.
pub fn words_are_those_of_the_bytes()
    ensures { ReadsBlocks block_words }
{}

/// The edit of a round makes of a container's block of one sector, whole on some disk, a block with that generation and
/// with volume 0 dirty or clean, which says all else as before and is whole wherever the old one was.
pub fn edit_of_a_round()
    ensures { (m : Laid) (g : ℕ) (y : Bool) → IsRenewable block_words m → FitsGeneration g
        → IsRenewed block_words m g y (renewed m g y) }
{}

/// A round may be edited from each block of the first form that is whole on a disk: what is started meets the condition
/// of the edit.
pub fn first_form_is_renewable()
    ensures { (m : Laid) (own : List ℕ) (n : ℕ) (b : Block) → m.extended ≡ [] → IsWholeDisk own n (bytes_of_laid m) b
        → IsFirstForm b → IsRenewable block_words m }
{}
