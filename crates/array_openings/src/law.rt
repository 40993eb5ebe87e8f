//! Laws on what real disks meet, and on banks that open.
ghost use Rattle.array_base.specs.Premises.{IsSpareBlock, Premises};
ghost use Rattle.array_edits.specs.Formed.{is_formed};
ghost use Rattle.array_edits.specs.RealSettings.{IsReal};
ghost use Rattle.array_machine.specs.Setting.{Facts, Edit, Setting};
ghost use Rattle.array_machine.specs.Volumes.{Volume, volume_at};
ghost use Rattle.array_model.specs.Blocks.{Laid};
ghost use Rattle.array_model.specs.Script.{Asked};
ghost use Rattle.array_openings.specs.Banks.{Bank, setting_of_bank, IsAtRest};
ghost use Rattle.array_openings.specs.NewBanks.{new_bank, CanBeMade, edited_bank, CanBeEdited};
ghost use Rattle.array_openings.specs.Opens.{FindsContainer, opened_volumes, Opens};
ghost use Rattle.array_openings.specs.RealDisks.{IsOverRealDisks};
ghost use Rattle.array_openings.specs.Sound.{OpensSound, HasSoundVolumes};
ghost use Rattle.array_openings.specs.Spares.{spare_block};
ghost use Rattle.array_rest.specs.Seats.{OpensAble};
ghost use Rattle.array_units.specs.EditUnits.{EditsKeepUnits, RowsLieApart};
ghost use Rattle.array_values.specs.Values.{RowsOpen};
ghost use Rattle.block_meaning.specs.Reading.{block_words};
ghost use Rattle.new_container.specs.declared.container.NewContainer.{NewContainer};
ghost use Rattle.new_container.specs.declared.disk.NewDisk.{NewDisk};
ghost use Rattle.std.specs.Prelude.{◌≡◌, ◌<◌, ◌≤◌, ℕ, true, List};
ghost use Rattle.units.specs.declared.bounds.TheConstants.{METADATA_SECTORS};

/// A setting over real disks meets what laws take as given, where the newest block is of the form that edits keep: the
/// blocks that may be the book are those of this form.
pub fn real_disks_meet_the_premises()
    ensures { (S : Setting) → IsOverRealDisks S
        → (P : Premises S) × ((m : Laid) → P.edits.formed m ≡ is_formed S.start m) }
{}

/// What is written to a disk of the bank to make it a spare is a spare's block there.
pub fn spare_blocks_are_whole()
    ensures { (S : Setting) (d : ℕ) → IsReal S → d < S.start.disks.count
        → METADATA_SECTORS ≤ S.start.disks.sectors d
        → IsSpareBlock S d (spare_block (S.start.disks.serial d) (S.start.disks.sectors d)) }
{}

/// Where an opening over real disks finds a container there is all that laws over runs ask for: over the volumes and
/// the spares that the newest block and the disks say.
pub fn real_containers_open()
    ensures { (S : Setting) → IsOverRealDisks S → FindsContainer S → Opens S }
{}

/// A bank at rest opens, whatever its script asks for: the block of a container stands at the end of each disk that it
/// expects, a spare's block at the end of each spare, and nothing elsewhere.
pub fn containers_at_rest_open()
    ensures { (k : Bank) → IsAtRest k → Opens (setting_of_bank k) }
{}

/// A bank over which a container was made is at rest, and so is a bank at rest after edits of its block that fit: so
/// both open.
pub fn new_and_edited_containers_rest()
    ensures made { (made : NewContainer) (disks others : List NewDisk) (spares : List ℕ) (asked : Asked)
        → CanBeMade made disks others spares → IsAtRest (new_bank made disks others spares asked) }
    ensures edited { (k : Bank) (f : Facts) (es : List Edit) → IsAtRest k → CanBeEdited k f es
        → IsAtRest (edited_bank k f es) }
{}

/// Where a bank at rest has volumes that lie apart and can run, and all disks that its block expects, a run over it
/// begins with volumes that can run, and with rows that hold the content. Such volumes are as laws on runs that come to
/// rest ask for them.
pub fn sound_volumes_open()
    ensures sound { (k : Bank) → IsAtRest k → HasSoundVolumes k
        → OpensSound (setting_of_bank k) (opened_volumes (setting_of_bank k)) }
    ensures able { (S : Setting) (volumes : List Volume) → OpensSound S volumes
        → ((v : ℕ) → (volume_at volumes v).started ≡ true → S.start.is_started v ≡ true) → OpensAble S volumes }
{}

/// The volumes of a new container lie one behind the other and can run, and its disks are there; edits leave that so,
/// as long as the volumes can run.
pub fn new_and_edited_volumes_are_sound()
    ensures made { (made : NewContainer) (disks others : List NewDisk) (spares : List ℕ) (asked : Asked)
        → CanBeMade made disks others spares → HasSoundVolumes (new_bank made disks others spares asked) }
    ensures edited { (k : Bank) (f : Facts) (es : List Edit) → IsAtRest k → CanBeEdited k f es → HasSoundVolumes k
        → ((v : ℕ) → k.started v ≡ true → block_words.can_run (edited_bank k f es).block v ≡ true)
        → HasSoundVolumes (edited_bank k f es) }
{}

/// Edits of real blocks leave an open pass open with its unit, but for those that open it anew; a unit that is recorded
/// is the one asked for, where it lies in the volume's rows.
pub fn real_edits_keep_units()
    ensures { (S : Setting) → IsReal S → EditsKeepUnits S (is_formed S.start) }
{}

/// Sound volumes are also as laws on checkpoints and on what reads give ask for them.
pub fn sound_volumes_meet_laws_on_rows()
    ensures apart { (S : Setting) (volumes : List Volume) → OpensSound S volumes → RowsLieApart S }
    ensures rows { (k : Bank) → IsAtRest k → HasSoundVolumes k
        → RowsOpen (setting_of_bank k) (opened_volumes (setting_of_bank k)) }
{}
