//! Laws on the edits of real blocks.
ghost use Rattle.std.specs.Prelude.{◌≡◌, ◌≢◌, ◌+◌, ◌≤◌, ◌<◌, ℕ, true, false, List, length};
ghost use Rattle.units.specs.declared.bounds.TheConstants.{METADATA_SECTORS};
ghost use Rattle.imsm_edit.specs.Meanings.{AreFacts};
ghost use Rattle.array_model.specs.Blocks.{Laid, sector_eq};
ghost use Rattle.array_model.specs.Start.{Start};
ghost use Rattle.block_meaning.specs.Reading.{parts_of};
ghost use Rattle.array_machine.specs.Setting.{Facts, Edit, ActivatesDisk, Setting};
ghost use Rattle.array_machine.specs.EditWords.{IsApt, EditsMean};
ghost use Rattle.array_edits.specs.RealEdits.{facts_in};
ghost use Rattle.array_edits.specs.Formed.{is_formed, IsEditable};
ghost use Rattle.array_edits.specs.RealSettings.{IsReal, HasOwnSerials, IsWholeOnExpected, HasMetadataSectors};

/// The edits of real blocks mean what the machine takes them to mean, on blocks of the form: a whole block in its
/// sectors, with its started volumes supported, and in its bounds with all second maps.
pub fn real_edits_mean()
    ensures { (S : Setting) → IsReal S → (mean : EditsMean S) × ((m : Laid) → mean.formed m ≡ is_formed S.start m) }
{}

/// A block of the form stays whole on each disk that it expects: on a disk where it was whole, and on one that is
/// activated and has the sectors that metadata takes. It has the extended sectors that belong to its anchor, they have
/// their place on a disk, and anchors of two generations differ.
pub fn edited_blocks_are_whole()
    ensures expected { (S : Setting) (f : Facts) (m : Laid) (e : Edit) → IsReal S → HasOwnSerials S
        → is_formed S.start m ≡ true → IsApt S m e → HasMetadataSectors S e → IsWholeOnExpected S m
        → IsWholeOnExpected S (S.edit f m e) }
    ensures stays { (S : Setting) (f : Facts) (m : Laid) (e : Edit) (serial : List ℕ) (n : ℕ) → IsReal S
        → is_formed S.start m ≡ true → IsApt S m e → S.start.words.expects (S.edit f m e) serial ≡ true
        → S.start.words.is_whole serial n m ≡ true → S.start.words.is_whole serial n (S.edit f m e) ≡ true }
    ensures activated { (S : Setting) (f : Facts) (m : Laid) (s : List ℕ) (i d : ℕ) → IsReal S → HasOwnSerials S
        → is_formed S.start m ≡ true → IsApt S m (ActivatesDisk s i) → d < S.start.disks.count
        → s ≡ S.start.disks.serial d → METADATA_SECTORS ≤ S.start.disks.sectors d
        → S.start.words.is_whole s (S.start.disks.sectors d) (S.edit f m (ActivatesDisk s i)) ≡ true }
    ensures placed { (S : Setting) (m : Laid) → IsReal S → is_formed S.start m ≡ true
        → (S.start.words.extra m.anchor ≡ length m.extended) × (length m.extended + 2 ≤ METADATA_SECTORS) }
    ensures anchors { (S : Setting) (m n : Laid) → IsReal S
        → S.start.words.generation m.anchor ≢ S.start.words.generation n.anchor
        → sector_eq m.anchor n.anchor ≡ false }
{}

/// The facts that an edit takes, by the numbers of a block's volumes and records, meet what the calls of `imsm_edit`
/// ask of facts.
pub fn facts_are_of_the_block()
    ensures { (start : Start) (f : Facts) (m : Laid) → IsEditable start → is_formed start m ≡ true
        → AreFacts (parts_of m) (facts_in start f (parts_of m)) }
{}
