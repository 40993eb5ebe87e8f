//! Banks of real blocks that open.
ghost use Rattle.std.specs.Prelude.{◌≡◌, ℕ, true, false, List, [], ◌∷◌, length, Some};
ghost use Rattle.block_meaning.specs.Reading.{block_words};
ghost use Rattle.array_edits.specs.Examples.{serial_of_letter, slots_say};
ghost use Rattle.array_openings.specs.Banks.{setting_of_bank, pass_from_block};
ghost use Rattle.array_openings.specs.Opens.{opened_volumes, opened_spares, Opens};
ghost use Rattle.array_base.specs.Opening.{Opening};
ghost use Rattle.array_base.specs.Premises.{Premises};
ghost use Rattle.array_machine.specs.Volumes.{Volume};
ghost use Rattle.array_openings.specs.Refused.{of_one_serial, over_an_old_block};
ghost use Rattle.array_openings.specs.Sound.{OpensSound};
ghost use Rattle.array_openings.specs.Worked.{with_a_spare, of_two_sectors, of_two_volumes, without_a_disk, with_a_pass};

/// A mirror of disks A and B, with C as a spare.
pub fn example_of_a_spare()
    ensures opens { Opens (setting_of_bank with_a_spare) }
    ensures sound { OpensSound (setting_of_bank with_a_spare) (opened_volumes (setting_of_bank with_a_spare)) }
    ensures spare { opened_spares (setting_of_bank with_a_spare) ≡ 2 ∷ [] }
{}

/// A volume of level 5 over three disks; its block has an extended sector before the anchor.
pub fn example_of_an_extended_block()
    ensures opens { Opens (setting_of_bank of_two_sectors) }
    ensures sound { OpensSound (setting_of_bank of_two_sectors) (opened_volumes (setting_of_bank of_two_sectors)) }
    ensures extended { length of_two_sectors.block.extended ≡ 1 }
{}

/// Two mirrors over the same two disks.
pub fn example_of_two_volumes()
    ensures opens { Opens (setting_of_bank of_two_volumes) }
    ensures sound { OpensSound (setting_of_bank of_two_volumes) (opened_volumes (setting_of_bank of_two_volumes)) }
    ensures volumes { block_words.volumes of_two_volumes.block ≡ 2 }
{}

/// A mirror that goes on with A alone: B failed before, and what stands on it is no block any more.
pub fn example_of_a_degraded_mirror()
    ensures opens { Opens (setting_of_bank without_a_disk) }
    ensures sound { OpensSound (setting_of_bank without_a_disk) (opened_volumes (setting_of_bank without_a_disk)) }
    ensures slots { slots_say without_a_disk.block 0
        ≡ (serial_of_letter 0x41, true, true) ∷ (serial_of_letter 0x42, false, false) ∷ [] }
{}

/// A volume of level 10 that stopped dirty: it is clean, and a pass over its rows is to come, from the first row on.
pub fn example_of_an_unfinished_volume()
    ensures opens { Opens (setting_of_bank with_a_pass) }
    ensures sound { OpensSound (setting_of_bank with_a_pass) (opened_volumes (setting_of_bank with_a_pass)) }
    ensures clean { block_words.is_dirty with_a_pass.block 0 ≡ false }
    ensures pass { pass_from_block with_a_pass 0 ≡ Some 0 }
    ensures generation { block_words.generation with_a_pass.block.anchor ≡ 3 }
{}

/// A mirror over two disks of one serial doesn't meet what laws take as given, and a block that was edited since isn't
/// the newest of an opening.
pub fn example_of_refused_settings()
    ensures serials { Premises (setting_of_bank of_one_serial) → ⊥ }
    ensures old { (P : Premises over_an_old_block) (volumes : List Volume) (spares : List ℕ)
        → Opening over_an_old_block P volumes spares → ⊥ }
{}
