//! What a stop leaves of disks, as images: the disks of a bank after some calls, each place as `device_log` lets it be.
//! Definitions, with that of images on which no block stands by chance.
//!
//! It owes that the disks as they stand may be left, how calls change what may be left, and examples: images that a
//! stop in a write may leave, and such that none leaves. It has proofs alone. `created_law` says by it what a stop
//! behind `create` leaves; what one in a run leaves no law says yet.
#![tactic(auto)]

ghost use Rattle.std.specs.Prelude.{◌≡◌, ◌≢◌, ◌↔◌, ℕ, ◌⊎◌, Bool, true, false, [], ◌∷◌, ◌++◌, List, slice_get, Some};
ghost use Rattle.units.specs.declared.disk.Sector.{Sector};
ghost use Rattle.device_log.specs.Log.{Call, OnlyReads, Sync};
ghost use Rattle.array_model.specs.Start.{Disks};
ghost use Rattle.array_model.specs.Blocks.{Words};
ghost use Rattle.sound_images.specs.Images.{Image, block_on};
ghost use Rattle.stop_images.specs.Candidates.{HoldCandidates};
ghost use Rattle.stop_images.specs.Left.{AreLeft, StopLeaves, image_after, images_after};
ghost use Rattle.stop_images.specs.Small.{images, sync, two_disks, write};

/// A stop may leave the disks as they stand.
pub fn what_stands_may_be_left()
    ensures { (disks : Disks) (log : List Call) → AreLeft disks log (images_after disks log) }
{}

/// Behind a sync a stop leaves no more than before it, and behind reads just what it does before them. What a stop in a
/// run of calls leaves, one in a run of these and more leaves too.
pub fn what_calls_change()
    ensures sync { (disks : Disks) (log : List Call) (images : List Image) (d : ℕ) (went : Bool)
        → AreLeft disks (log ++ record { disk = d; what = Sync; went = went } ∷ []) images → AreLeft disks log images }
    ensures reads { (disks : Disks) (log : List Call) (images : List Image) (reads : List Call) → OnlyReads reads
        → AreLeft disks (log ++ reads) images ↔ AreLeft disks log images }
    ensures more { (disks : Disks) (calls more : List Call) (images : List Image)
        → StopLeaves disks calls images → StopLeaves disks (calls ++ more) images }
{}

/// Both sectors of a disk were written. A stop may leave each as it was or as it was written; and where what was
/// written is new, anything. Behind a sync it leaves what was written. On another disk it leaves what stood there, and
/// it takes no disk away.
pub fn example_of_a_stop_in_a_write()
    ensures part { (a b c d x y first second : Sector) → (first ≡ a) ⊎ (first ≡ x) → (second ≡ b) ⊎ (second ≡ y)
        → AreLeft (two_disks a b c d) (write x y ∷ []) (images first second c d) }
    ensures loose { (a b c d x y first second : Sector) → x ≢ a → y ≢ b
        → AreLeft (two_disks a b c d) (write x y ∷ []) (images first second c d) }
    ensures before { (a b c d x y : Sector)
        → StopLeaves (two_disks a b c d) (write x y ∷ sync ∷ []) (images a b c d) }
    ensures synced { (a b c d x y first second e f : Sector)
        → AreLeft (two_disks a b c d) (write x y ∷ sync ∷ []) (images first second e f)
        → (first ≡ x) × (second ≡ y) }
    ensures others { (a b c d x y first second e f : Sector)
        → StopLeaves (two_disks a b c d) (write x y ∷ sync ∷ []) (images first second e f)
        → (e ≡ c) × (f ≡ d) }
    ensures all { (a b c d x y : Sector) → AreLeft (two_disks a b c d) (write x y ∷ []) [] → ⊥ }
{}

/// Where no call was made, the disks as they were opened hold candidates alone. An image with a whole block, of a disk
/// that had none at opening and on which none was written, doesn't.
pub fn example_of_candidates()
    ensures opened { (W : Words) (disks : Disks) → HoldCandidates W disks [] (images_after disks []) }
    ensures strange { (W : Words) (disks : Disks) (images : List Image) (d : ℕ) (i : Image)
        → slice_get images d ≡ Some i
        → W.is_whole (disks.serial d) (disks.sectors d) (block_on W (image_after disks [] d)) ≡ false
        → W.is_whole i.serial i.sectors (block_on W i) ≡ true → HoldCandidates W disks [] images → ⊥ }
{}
