//! Laws on the blocks of new containers.
ghost use Rattle.std.specs.Prelude.{◌≡◌, ◌<◌, ℕ, true, List, All};
ghost use Rattle.array_model.specs.Blocks.{Laid};
ghost use Rattle.array_model.specs.Start.{Start};
ghost use Rattle.block_meaning.specs.Meaning.{bytes_of_laid};
ghost use Rattle.new_container.specs.declared.container.NewContainer.{NewContainer};
ghost use Rattle.new_container.specs.declared.disk.NewDisk.{NewDisk};
ghost use Rattle.new_container.specs.Created.{CanCreate, IsDisk, created_bytes, volume_count};
ghost use Rattle.array_edits.specs.Laying.{laid_of};
ghost use Rattle.array_edits.specs.Formed.{is_formed, is_placed};
ghost use Rattle.array_edits.specs.RealSettings.{IsReal};
ghost use Rattle.array_edits.specs.Examples.{setting_over};

/// The block of a new container is of the form that edits keep, whichever of its volumes are started. In its sectors it
/// is read as it was made.
pub fn created_blocks_are_formed()
    ensures formed { (start : Start) (made : NewContainer) (disks : List NewDisk) (m : Laid) → CanCreate made disks
        → All IsDisk disks → bytes_of_laid m ≡ created_bytes made disks → is_placed m ≡ true
        → ((v : ℕ) → start.is_started v ≡ true → v < volume_count made) → is_formed start m ≡ true }
    ensures laid { (made : NewContainer) (disks : List NewDisk) → CanCreate made disks → All IsDisk disks
        → (bytes_of_laid (laid_of (created_bytes made disks)) ≡ created_bytes made disks)
        × (is_placed (laid_of (created_bytes made disks)) ≡ true) }
{}

/// There are settings of real blocks: runs over new containers and further disks.
pub fn settings_of_new_containers_are_real()
    ensures { (made : NewContainer) (disks others : List NewDisk) → All IsDisk disks → All IsDisk others
        → IsReal (setting_over made disks others) }
{}
