//! Right runs on a mirror.
ghost use Rattle.std.specs.Prelude.{List, [], ◌∷◌, true, false};
ghost use Rattle.units.specs.declared.disk.Sector.{Sector};
ghost use Rattle.imsm_base.specs.Vector.{mirror_bytes};
ghost use Rattle.image_assemble.specs.Endings.{Assembles};
ghost use Rattle.image_incremental.specs.Endings.{Arrives};
ghost use Rattle.refused_verdicts.specs.Mirror.{anchor_read, arrived_lines, both_disks, both_lines, early_lines, first_disk, first_lines, first_of_both, mirror_disk};
ghost use Rattle.refused_verdicts.specs.Told.{HoldsNewest, Tells};

use imsm_base::example_of_a_whole_block;

/// The bank of these two disks tells what stood on them, and the newest block is the one that was laid down.
pub fn the_mirror_is_told()
    ensures tells { Tells (mirror_disk ∷ mirror_disk ∷ []) (anchor_read 0 ∷ anchor_read 1 ∷ []) both_disks }
    ensures newest { HoldsNewest (mirror_disk ∷ mirror_disk ∷ []) both_disks mirror_bytes }
{
    example_of_a_whole_block();
}

/// The two disks of a new mirror are started, and the first of them alone waits for the other.
pub fn right_assemblies_are_admitted()
    ensures both { Assembles false both_disks both_lines 0 }
    ensures first { Assembles false first_disk first_lines 2 }
{
    example_of_a_whole_block();
}

/// Where they arrive one after the other, the first waits for the second, and the second starts it.
pub fn right_arrivals_are_admitted()
    ensures { Arrives false both_disks arrived_lines 0 }
{
    example_of_a_whole_block();
}

/// With `--run` the first disk of a mirror starts alone, whatever stands on the second, which then comes too late. So a
/// container may be opened by a block that isn't the newest of all disks of the words: which one it is lies in their
/// order, as it does for whoever starts what has arrived.
pub fn early_openings_are_admitted()
    ensures { (second : List Sector) → Arrives true (first_of_both second) early_lines 0 }
{
    example_of_a_whole_block();
}
