//! Sound images keep: whichever of the disks are opened, in whatever order they came, the opening is by the newest
//! block of all disks, reads trusted slots alone, and gives the content of every sector that isn't unsure.
//!
//! The one function has this as its contract and nothing to run. It is proved of the definitions of `sound_images`
//! alone, for any words of blocks that agree on their volumes, as those of a block's bytes do.
#![tactic(auto)]

ghost use Rattle.std.specs.Prelude.{◌≡◌, ℕ, Bool, true, List};
ghost use Rattle.units.specs.declared.disk.Sector.{Sector};
ghost use Rattle.array_model.specs.Blocks.{Laid, Words};
ghost use Rattle.sound_images.specs.Images.{Image, AreAmong, IsHeld, IsHeldOn, IsNewestOf, IsComplete};
ghost use Rattle.sound_images.specs.Volumes.{WordsAgree};
ghost use Rattle.sound_images.specs.Sound.{SoundImages};
ghost use Rattle.sound_images.specs.Keeps.{AreLargeEnough, Opens, Keeps};

/// Where some of the disks of sound images are opened, in whatever order they came, the opening keeps: its block is the
/// newest of all images and not below the mark, the slots that a started volume is read from are expected and in sync,
/// an unfinished volume has a pass, and what is given is the content of each sector that isn't unsure.
///
/// Where the disks that are present hold the newest block of all, and each disk that it expects is one of them, holds a
/// whole block of a container and is large enough, they are opened by it. They hold it where it stands on a disk that
/// it expects. Whether disks are opened, and by which block, is the same in whatever order they came.
pub fn keep_law()
    ensures keeps { (W : Words) (bytes : Laid → List ℕ) (images present : List Image) (content : ℕ → ℕ → Sector)
        (unsure : ℕ → ℕ → Bool) (mark : ℕ) (m : Laid) → WordsAgree W
        → SoundImages W bytes images content unsure mark → AreAmong present images → Opens W bytes present m
        → Keeps W images present content unsure mark m }
    ensures starts { (W : Words) (bytes : Laid → List ℕ) (images present : List Image) (content : ℕ → ℕ → Sector)
        (unsure : ℕ → ℕ → Bool) (mark : ℕ) (m : Laid)
        → SoundImages W bytes images content unsure mark → AreAmong present images → IsNewestOf W images m
        → IsHeld W present m → IsComplete W present m → AreLargeEnough W present m → Opens W bytes present m }
    ensures stands { (W : Words) (bytes : Laid → List ℕ) (images present : List Image) (content : ℕ → ℕ → Sector)
        (unsure : ℕ → ℕ → Bool) (mark : ℕ) (m : Laid) (serial : List ℕ)
        → SoundImages W bytes images content unsure mark → AreAmong present images → IsComplete W present m
        → W.expects m serial ≡ true → IsHeldOn W images serial m → IsHeld W present m }
    ensures order { (W : Words) (bytes : Laid → List ℕ) (present other : List Image) (m : Laid)
        → AreAmong present other → AreAmong other present → Opens W bytes present m → Opens W bytes other m }
{}
