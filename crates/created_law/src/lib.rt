//! The disks of a new container are sound, also those that a stop leaves: zeros stand on the rows of its volumes, and
//! each disk has its block.
//!
//! The law joins what `image_create` promises of a bank, where the bank tells what it held and its calls, with what
//! `sound_images` asks of disks, for words of blocks that are read from their bytes. So what is proved of sound images
//! holds of the first ones that a container has. It has proofs alone, and an example of such a bank.
#![tactic(auto)]

ghost use Rattle.std.specs.Prelude.{◌≡◌, ℕ, false, List, Some};
ghost use Rattle.units.specs.declared.disk.Sector.{Sector};
ghost use Rattle.imsm_base.specs.Layout.{family_of};
ghost use Rattle.device_log.specs.Log.{Call};
ghost use Rattle.mpb_store.specs.Banks.{blank_sector};
ghost use Rattle.array_model.specs.Blocks.{Laid, Words};
ghost use Rattle.block_meaning.specs.Meaning.{ReadsBlocks, bytes_of_laid};
ghost use Rattle.new_container.specs.declared.container.NewContainer.{NewContainer};
ghost use Rattle.new_container.specs.Created.{created_block};
ghost use Rattle.new_container.specs.Example.{mirror, mirror_disks};
ghost use Rattle.image_outside.specs.Told.{BankTold};
ghost use Rattle.image_create.specs.Creates.{Creates, created_line, disks_in};
ghost use Rattle.sound_images.specs.Images.{Image};
ghost use Rattle.sound_images.specs.Keeps.{Opens};
ghost use Rattle.sound_images.specs.Sound.{SoundImages};
ghost use Rattle.stop_images.specs.Left.{AreLeft, images_after};
ghost use Rattle.created_law.specs.Example.{mirror_bank};
ghost use Rattle.created_law.specs.OnBank.{IsCreatedOn, disks_told};

/// Where a container was made over the disks of a bank, and the bank tells what they held and all calls, whatever a
/// stop leaves of the disks is sound: each sector of a volume is zeros, none is unsure, and the mark is 1.
///
/// The block of the container is the newest that they hold, of generation 1. Each disk holds it, each of its volumes
/// starts, and the disks are opened by it. So it is with the disks as they stand, which are what a stop may leave.
pub fn created_law()
    ensures sound { (W : Words) (made : NewContainer) (bank : BankTold) (lines : List ℕ)
        (opening : List (List Sector)) (log : List Call) (images : List Image) → ReadsBlocks W
        → Creates made bank lines → bank.opening ≡ Some opening → bank.log ≡ Some log
        → AreLeft (disks_told bank opening) log images
        → SoundImages W bytes_of_laid images (λ v s. blank_sector) (λ v s. false) 1 }
    ensures opens { (W : Words) (made : NewContainer) (bank : BankTold) (lines : List ℕ)
        (opening : List (List Sector)) (log : List Call) (images : List Image) → ReadsBlocks W
        → Creates made bank lines → bank.opening ≡ Some opening → bank.log ≡ Some log
        → AreLeft (disks_told bank opening) log images
        → (m : Laid) × IsCreatedOn W made (disks_in bank) images m × Opens W bytes_of_laid images m }
    ensures stands { (W : Words) (made : NewContainer) (bank : BankTold) (lines : List ℕ)
        (opening : List (List Sector)) (log : List Call) → ReadsBlocks W
        → Creates made bank lines → bank.opening ≡ Some opening → bank.log ≡ Some log
        → (m : Laid) × IsCreatedOn W made (disks_in bank) (images_after (disks_told bank opening) log) m
        × SoundImages W bytes_of_laid (images_after (disks_told bank opening) log) (λ v s. blank_sector)
        (λ v s. false) 1 }
{}

/// There is a bank over whose disks a container was made, whatever they held, that tells this and its calls.
pub fn example_of_a_created_bank()
    ensures { (opening : List (List Sector)) → Creates mirror (mirror_bank opening)
        (created_line (family_of (created_block mirror mirror_disks))) }
{}
