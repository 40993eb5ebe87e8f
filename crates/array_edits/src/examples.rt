//! Blocks of new containers after a few edits, computed.
ghost use Rattle.std.specs.Prelude.{◌≡◌, true, false, [], ◌∷◌, length};
ghost use Rattle.block_meaning.specs.Reading.{block_words};
ghost use Rattle.new_container.specs.Example.{disk_of, mirror, mirror_disks};
ghost use Rattle.array_machine.specs.Setting.{TakesGeneration, FailsDisk, CountsOut, MakesDirty, MakesClean, ClosesPass, StartsVolume, ActivatesDisk, RemovesDisk};
ghost use Rattle.array_edits.specs.Formed.{is_formed};
ghost use Rattle.array_edits.specs.RealEdits.{real_edit};
ghost use Rattle.array_edits.specs.Examples.{all_work, none_works, five, ten, two_mirrors, three_disks, four_disks, serial_of_letter, start_over, after_edits, slots_say, in_rebuild};

/// A mirror over disks A and B loses A; C takes its slot, is rebuilt, and A's record leaves.
pub fn example_of_a_replaced_disk()
    ensures taken { slots_say (after_edits mirror mirror_disks (disk_of 0x43 ∷ []) all_work
        (FailsDisk (serial_of_letter 0x41) ∷ ActivatesDisk (serial_of_letter 0x43) 0 ∷ [])) 0
        ≡ (serial_of_letter 0x43, true, false) ∷ (serial_of_letter 0x42, true, true) ∷ [] }
    ensures rebuilt { slots_say (after_edits mirror mirror_disks (disk_of 0x43 ∷ []) all_work
        (FailsDisk (serial_of_letter 0x41) ∷ ActivatesDisk (serial_of_letter 0x43) 0 ∷ ClosesPass 0
        ∷ RemovesDisk (serial_of_letter 0x41) ∷ [])) 0
        ≡ (serial_of_letter 0x43, true, true) ∷ (serial_of_letter 0x42, true, true) ∷ [] }
    ensures formed { is_formed (start_over mirror mirror_disks (disk_of 0x43 ∷ []))
        (after_edits mirror mirror_disks (disk_of 0x43 ∷ []) all_work
        (FailsDisk (serial_of_letter 0x41) ∷ ActivatesDisk (serial_of_letter 0x43) 0 ∷ ClosesPass 0
        ∷ RemovesDisk (serial_of_letter 0x41) ∷ [])) ≡ true }
{}

/// A volume of level 5 loses a disk: its block has two sectors, the disk isn't expected, and its slot is out of sync,
/// also behind a pass that closes.
pub fn example_of_a_degraded_container()
    ensures sectors { length (after_edits five three_disks [] all_work []).extended ≡ 1 }
    ensures formed { is_formed (start_over five three_disks [])
        (after_edits five three_disks [] all_work (FailsDisk (serial_of_letter 0x42) ∷ [])) ≡ true }
    ensures slots { slots_say (after_edits five three_disks [] all_work
        (FailsDisk (serial_of_letter 0x42) ∷ ClosesPass 0 ∷ [])) 0
        ≡ (serial_of_letter 0x41, true, true) ∷ (serial_of_letter 0x42, false, false)
        ∷ (serial_of_letter 0x43, true, true) ∷ [] }
    ensures generation { block_words.generation
        (after_edits five three_disks [] all_work (TakesGeneration 7 ∷ FailsDisk (serial_of_letter 0x42) ∷ [])).anchor
        ≡ 7 }
{}

/// A volume of level 10 that is dirty starts with a pass over its rows, which says so in place of the dirty bit. Of two
/// volumes one alone is made dirty.
pub fn example_of_an_unfinished_container()
    ensures dirty { block_words.is_dirty (after_edits ten four_disks [] all_work (MakesDirty 0 ∷ [])) 0 ≡ true }
    ensures started { block_words.is_dirty
        (after_edits ten four_disks [] all_work (MakesDirty 0 ∷ StartsVolume 0 ∷ [])) 0 ≡ false }
    ensures unfinished { block_words.is_unfinished
        (after_edits ten four_disks [] all_work (MakesDirty 0 ∷ StartsVolume 0 ∷ [])) 0 ≡ true }
    ensures formed { is_formed (start_over ten four_disks [])
        (after_edits ten four_disks [] all_work (MakesDirty 0 ∷ StartsVolume 0 ∷ [])) ≡ true }
    ensures other { block_words.is_dirty (after_edits two_mirrors mirror_disks [] all_work (MakesDirty 1 ∷ [])) 0
        ≡ false }
    ensures both { is_formed (start_over two_mirrors mirror_disks [])
        (after_edits two_mirrors mirror_disks [] all_work (MakesDirty 1 ∷ CountsOut (serial_of_letter 0x41) ∷ []))
        ≡ true }
{}

/// A rebuild that another system began calls its slot out of sync in the second map alone. The pass closes without the
/// disk, and the slot stays out of sync.
pub fn example_of_a_rebuild_of_another_system()
    ensures formed { is_formed (start_over mirror mirror_disks []) in_rebuild ≡ true }
    ensures before { slots_say in_rebuild 0
        ≡ (serial_of_letter 0x41, true, true) ∷ (serial_of_letter 0x42, true, false) ∷ [] }
    ensures after { slots_say (real_edit (start_over mirror mirror_disks []) none_works in_rebuild (ClosesPass 0)) 0
        ≡ (serial_of_letter 0x41, true, true) ∷ (serial_of_letter 0x42, true, false) ∷ [] }
{}
