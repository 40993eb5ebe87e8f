//! Laws on the metadata block of a new container.
ghost use Rattle.std.specs.Prelude.{◌≡◌, ◌^◌, ◌<◌, ℕ, List, length, All, slice_get, Some};
ghost use Rattle.imsm_base.specs.Layout.{family_of, generation_of, orig_family_of};
ghost use Rattle.imsm_base.specs.Vector.{mirror_bytes};
ghost use Rattle.imsm_base.specs.Whole.{IsWholeBlock, IsWholeDisk};
ghost use Rattle.new_container.specs.declared.container.NewContainer.{NewContainer};
ghost use Rattle.new_container.specs.declared.disk.NewDisk.{NewDisk};
ghost use Rattle.new_container.specs.Created.{CanCreate, IsDisk, created_block, created_bytes};
ghost use Rattle.new_container.specs.Example.{mirror, mirror_disks};
ghost use Rattle.new_container.specs.Fresh.{HasVolumes};

/// The block is whole, of generation 1 and of the given family, and each of the disks is whole by it.
pub fn created_blocks_are_whole()
    ensures whole { (made : NewContainer) (disks : List NewDisk) → CanCreate made disks → All IsDisk disks
        → IsWholeBlock (created_bytes made disks) (created_block made disks) }
    ensures generation { (made : NewContainer) (disks : List NewDisk) → generation_of (created_block made disks) ≡ 1 }
    // Where a number of the family is given, it stands in both its fields.
    ensures family { (made : NewContainer) (disks : List NewDisk) (family : ℕ) → made.family ≡ Some family
        → family < 2 ^ 32
        → (family_of (created_block made disks) ≡ family) × (orig_family_of (created_block made disks) ≡ family) }
    ensures disks { (made : NewContainer) (disks : List NewDisk) → CanCreate made disks → All IsDisk disks
        → (i : ℕ) (d : NewDisk) → slice_get disks i ≡ Some d
        → IsWholeDisk d.serial.0 d.sectors (created_bytes made disks) (created_block made disks) }
{}

/// The block has the volumes that were asked for, and each starts as it is: supported, clean, without a pass, and with
/// every slot in sync.
pub fn created_volumes_start()
    ensures { (made : NewContainer) (disks : List NewDisk) → CanCreate made disks → All IsDisk disks
        → HasVolumes (created_block made disks) made (length disks) }
{}

/// Two disks and one volume of two copies make the bytes that are written out in `Vector` of imsm_base.
pub fn example_of_a_new_mirror()
    ensures can { CanCreate mirror mirror_disks }
    ensures bytes { created_bytes mirror mirror_disks ≡ mirror_bytes }
{}
