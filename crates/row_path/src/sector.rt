//! The sectors of a job: the sum of what it reads, what it writes, and the value that it read.
use crate::job::{JobKind, RowJob};
use raid_map::xor_into;
use units::{Level, Sector, Slot};

impl JobKind {
    ghost use Rattle.std.specs.Prelude.{◌≡◌, ℕ, List, [], ◌∷◌, ◌++◌};
    ghost use Rattle.array_machine.specs.Setting.{Setting};
    ghost use Rattle.array_machine.specs.Volumes.{Got};
    ghost use Rattle.row_path.specs.Jobs.{AddsBytes, sum_of, some_got};

    /// The sum before anything was read: the value of a write.
    pub fn first_sum(&self) -> Sector
        ensures { (S : Setting) → sum_of S self.now [] ≡ result }
    {
        match self {
            JobKind::Read => Sector([0; 512]),
            JobKind::Write(value) => *value,
        }
    }

    /// Adds what was read to the sum.
    pub fn add(&self, has_read: bool, sum: &mut Sector, x: &Sector)
        ensures { (S : Setting) → (got : List Got) → (slot : ℕ) → AddsBytes S → some_got got ≡ has_read
            → sum_of S self.now got ≡ sum.old
            → sum_of S self.now (got ++ record { slot = slot; sector = x.now } ∷ []) ≡ sum.new }
    {
        match self {
            JobKind::Write(_) => xor_into(sum, x),
            JobKind::Read => {
                if has_read {
                    xor_into(sum, x);
                } else {
                    *sum = *x;
                }
            }
        }
    }
}

impl RowJob {
    ghost use Rattle.std.specs.Prelude.{◌≡◌, true, false};
    ghost use Rattle.array_machine.specs.Setting.{Setting};
    ghost use Rattle.array_machine.specs.Clients.{Row};
    ghost use Rattle.array_machine.specs.RowJobs.{sector_to, xor_got};
    ghost use Rattle.row_path.specs.Jobs.{StandsFor, is_write, value_of, shape_for, place_for};

    /// What a write brings to a slot.
    pub fn sector_for(&self, slot: Slot) -> Sector
        requires { is_write self.now.kind ≡ true }
        ensures { (S : Setting) → (r : Row) → StandsFor S self.now r
            → result ≡ sector_to S (shape_for self.now).level (place_for self.now) (value_of self.now.kind)
            r.got slot.0 }
    {
        match &self.kind {
            JobKind::Write(value)
                if self.geometry.level != Level::Five || slot != self.place.other => *value,
            JobKind::Read | JobKind::Write(_) => self.sum,
        }
    }

    /// The value that a read gave.
    pub fn value(&self) -> Sector
        requires { is_write self.now.kind ≡ false }
        ensures { (S : Setting) → (r : Row) → StandsFor S self.now r → result ≡ xor_got S r.got }
    {
        self.sum
    }
}
