//! The opening of a bank of disks that holds a container of the first form meets what the laws on the machine's runs
//! take as given.
//!
//! It owes that, premise by premise, and a bank that opens so. It has proofs alone. `stage_law` stands on it, so that
//! its promises begin at what was found on the disks; `image_start` shows that images that start are such a bank.
#![tactic(auto)]

ghost use Rattle.std.specs.Prelude.{◌≡◌, ℕ, Bool, true, List, length, map};
ghost use Rattle.std.specs.List.{list_all};
ghost use Rattle.units.specs.declared.disk.Sector.{Sector};
ghost use Rattle.imsm_base.specs.Edits.{first_sector};
ghost use Rattle.array_model.specs.Script.{Asked};
ghost use Rattle.array_model.specs.Blocks.{SlotWords};
ghost use Rattle.block_meaning.specs.Meaning.{bytes_of_laid};
ghost use Rattle.array_model.specs.Renewal.{IsRenewable};
ghost use Rattle.block_meaning.specs.Reading.{block_words};
ghost use Rattle.block_meaning.specs.Renewed.{renewed, renewed_bytes};
ghost use Rattle.stage_machine.specs.Setting.{Renews};
ghost use Rattle.stage_machine.specs.Opens.{AsksFirst, StandsOnAll, IsFirstVolume, StartsFirstAlone, HoldsContent};
ghost use Rattle.first_opening.specs.Opened.{Opened, IsOpening, serial_at, newest_of, block_of, numbers_of, targets_of, members_of, setting_of, OfEachSetting, is_first_op};
ghost use Rattle.first_opening.specs.Copies.{HoldsCopies, first_copy, differs};
ghost use Rattle.first_opening.specs.Worked.{mirror_opened};

use imsm_base::example_of_a_whole_block;

/// The edit of a run's rounds is that of a round: on each block that a round may be edited from, and each generation of
/// four bytes, it changes the generation and the dirty bit of volume 0 alone, and the block stays whole. The newest
/// block of an opening is such a block. Its edit depends on the block's bytes alone, and zeros follow them in the new
/// anchor, whatever followed them in the old one.
pub fn each_round_renews()
    ensures renewable { (o : Opened) → IsOpening o → IsRenewable block_words (newest_of o) }
    ensures edited { (o : Opened) (g : ℕ) (y : Bool)
        → (renewed (newest_of o) g y).anchor.0 ≡ first_sector (renewed_bytes (block_of o) g y) }
    ensures renews { (o : Opened) → OfEachSetting o Renews }
{}

/// The newest block's bytes are those that the anchor begins with. It expects each disk of the bank, and is whole
/// there. On each stands, in one sector, what says all that it says, whatever bytes follow it there.
pub fn the_newest_block_stands_on_all()
    ensures bytes { (o : Opened) → bytes_of_laid (newest_of o) ≡ block_of o }
    ensures targets { (o : Opened) → IsOpening o → targets_of o ≡ numbers_of o }
    ensures stands { (o : Opened) → OfEachSetting o (λ S. IsOpening o → StandsOnAll S) }
{}

/// The volume is a started mirror, whose slots are in sync, and it ends before the sectors that are kept for metadata.
pub fn the_volume_is_a_started_mirror()
    ensures { (o : Opened) → OfEachSetting o (λ S. IsOpening o → IsFirstVolume S) }
{}

/// No other volume is started.
pub fn the_first_volume_starts_alone()
    ensures { (o : Opened) → OfEachSetting o StartsFirstAlone }
{}

/// The volume has two disks, which have the serials of its slots, in their order.
pub fn each_slot_has_its_disk()
    ensures serials { (o : Opened) → IsOpening o → map (serial_at o) (members_of o)
        ≡ map (λ (w : SlotWords). w.serial) (block_words.slots (newest_of o) 0) }
    ensures two { (o : Opened) → IsOpening o → length (members_of o) ≡ 2 }
{}

/// Where the contents are what both copies hold, but for unsure sectors, each member holds the content.
pub fn the_members_hold_the_content()
    ensures { (o : Opened) (asked : Asked) (content : ℕ → ℕ → Sector) (unsure : ℕ → ℕ → Bool) → IsOpening o
        → HoldsCopies o content unsure → HoldsContent (setting_of o asked content unsure) }
{}

/// The first disk's copies are such contents, where the sectors on which another disk differs are unsure.
pub fn the_first_copies_are_the_content()
    ensures { (o : Opened) → IsOpening o → HoldsCopies o (first_copy o) (differs o) }
{}

/// A script of clients below 16 and of volume 0 is one that the machine's runs take.
pub fn the_script_is_taken()
    ensures { (o : Opened) (asked : Asked) (content : ℕ → ℕ → Sector) (unsure : ℕ → ℕ → Bool)
        → list_all is_first_op asked.ops ≡ true → AsksFirst (setting_of o asked content unsure) }
{}

/// A bank of two disks that hold a new container of the first form opens so, whatever bytes follow the block in each
/// anchor.
pub fn the_worked_bank_opens()
    ensures { (behind other : List ℕ) → IsOpening (mirror_opened behind other) }
{
    example_of_a_whole_block();
}
