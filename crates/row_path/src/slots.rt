//! Which of a volume's slots are marked.
ghost use Rattle.std.specs.Prelude.{◌≡◌, ◌<◌, false, ℕ, List, [], ◌∷◌, ◌++◌, slice_index_or};
ghost use Rattle.row_path.specs.Marks.{AreMarksOf};

use units::Slot;

/// A mark for each of eight slots.
#[derive(Clone, Copy, Debug, PartialEq, Eq)]
pub struct Slots {
    pub marks: [bool; 8],
}

impl Slots {
    /// No slot is marked.
    pub fn none() -> Slots
        ensures { AreMarksOf result.marks [] }
    {
        Slots { marks: [false; 8] }
    }

    /// Whether a slot is marked.
    pub fn has(&self, slot: Slot) -> bool
        ensures { result ≡ slice_index_or self.now.marks slot.0 false }
    {
        match self.marks.get(slot.0 as usize) {
            Some(marked) => *marked,
            None => false,
        }
    }

    /// Marks a slot more.
    pub fn add(&mut self, slot: Slot)
        requires { slot.0 < 8 }
        ensures { (slots : List ℕ) → AreMarksOf self.old.marks slots
            → AreMarksOf self.new.marks (slots ++ slot.0 ∷ []) }
    {
        self.marks[slot.0 as usize] = true;
    }
}
