//! For each level small disks that are sound, and for each part of the definition disks that aren't. They are proved,
//! not run.
ghost use Rattle.std.specs.Prelude.{◌≡◌, [], ◌∷◌};
ghost use Rattle.units.specs.declared.volume.Level.{Level};
ghost use Rattle.units.specs.declared.volume.Level.TheVariants.{One, Five};
ghost use Rattle.sound_images.specs.Volumes.{WordsAgree};
ghost use Rattle.sound_images.specs.Rows.{given};
ghost use Rattle.sound_images.specs.Keeps.{Opens};
ghost use Rattle.sound_images.specs.Small.{AreSoundAt, small_words, bytes_of, clean, dirty, failed_first, strange, passing, laid, disk, stopped_in_round, two_disks, without_first};

/// At each level, disks of which a stop has left the first with the block that makes the volume dirty, and the others
/// with the one before, are sound. So is a parity volume that has lost a disk, where the others give that one's
/// sectors.
pub fn example_of_sound_images()
    ensures stopped { (level : Level) → AreSoundAt level (stopped_in_round level) 1 }
    ensures degraded { AreSoundAt Five (without_first 7) 1 }
{}

/// A sector is given from its own slot where that is in sync, and at level five otherwise from all others: 3 is the xor
/// of 7 and 4. Of two copies it is given from the first in sync.
pub fn example_of_what_is_given()
    ensures own { given (small_words Five) (without_first 7) (laid (failed_first 1)) 0
        (record { main = 2; other = 1; row = 1 }) ≡ 4 ∷ [] }
    ensures others { given (small_words Five) (without_first 7) (laid (failed_first 1)) 0
        (record { main = 0; other = 1; row = 1 }) ≡ 3 ∷ [] }
    ensures first { given (small_words One) (two_disks (dirty 1) (dirty 1) 1 9) (laid (dirty 1)) 0
        (record { main = 0; other = 1; row = 1 }) ≡ 2 ∷ [] }
    ensures second { given (small_words One) (two_disks (dirty 1) (failed_first 2) 1 9) (laid (failed_first 2)) 0
        (record { main = 0; other = 1; row = 1 }) ≡ 9 ∷ [] }
{}

/// Two disks of two families aren't sound, nor are two with blocks of one generation and of other bytes.
pub fn example_of_one_container()
    ensures families { AreSoundAt One (two_disks (clean 1) (strange 2) 1 2) 1 → ⊥ }
    ensures twins { AreSoundAt One (two_disks (clean 1) (dirty 1) 1 2) 1 → ⊥ }
{}

/// A block that expects its own disk alone isn't sound below the one of another disk. Nor is one below the mark, where
/// each disk that it expects holds it.
pub fn example_of_old_blocks()
    ensures below_another { AreSoundAt One (two_disks (clean 2) (failed_first 1) 1 2) 1 → ⊥ }
    ensures below_the_mark { AreSoundAt One (two_disks (clean 1) (clean 1) 1 2) 2 → ⊥ }
{}

/// A copy with another value isn't sound, though the other copy is given. Nor is a parity by which another value is
/// given for a sector of a disk that failed. Copies that differ in a row aren't sound where the volume is clean, or
/// where a pass has left the row behind, though its sector is unsure.
pub fn example_of_rows()
    ensures copy { AreSoundAt One (two_disks (dirty 1) (dirty 1) 1 9) 1 → ⊥ }
    ensures gives { AreSoundAt Five (without_first 9) 1 → ⊥ }
    ensures finished { AreSoundAt One (two_disks (clean 1) (clean 1) 9 2) 1 → ⊥ }
    ensures behind_pass { AreSoundAt One (two_disks (passing 1) (passing 1) 9 2) 1 → ⊥ }
{}

/// At each level the disks of such a stop are opened by the block of the first, whose words agree. The second of two
/// alone isn't opened by its own.
pub fn example_of_openings()
    ensures agree { (level : Level) → WordsAgree (small_words level) }
    ensures opens { (level : Level) → Opens (small_words level) bytes_of (stopped_in_round level) (laid (dirty 2)) }
    ensures alone { Opens (small_words One) bytes_of (disk 2 (clean 1) 1 2 ∷ []) (laid (clean 1)) → ⊥ }
{}
