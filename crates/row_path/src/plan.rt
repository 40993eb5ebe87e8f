//! What a job reads: the plan by its members, and the first slot of it that wasn't read yet.
use crate::job::{JobKind, Plan, RowJob};
use crate::members::Members;
use units::{Level, Slot};

impl RowJob {
    ghost use Rattle.std.specs.Prelude.{◌≡◌, ◌<◌, ℕ, List, Bool, IfSome, Some, None, [], ◌∷◌, filter, ◌⊎◌};
    ghost use Rattle.std.specs.List.{range_with_len};
    ghost use Rattle.std.specs.Option.{option_map};
    ghost use Rattle.array_machine.specs.Numbers.{first_of, has};
    ghost use Rattle.array_machine.specs.Setting.{Setting};
    ghost use Rattle.array_machine.specs.Clients.{Row};
    ghost use Rattle.array_machine.specs.RowJobs.{pair_of, planned, read_plan, parity_plan, plan_or, write_plan};
    ghost use Rattle.units.specs.declared.volume.Level.TheVariants.{One, Ten};
    ghost use Rattle.row_path.specs.Seen.{members_seen};
    ghost use Rattle.row_path.specs.Plans.{slots_of, number_of, is_planned, unmarked};
    ghost use Rattle.row_path.specs.Jobs.{StandsFor, is_write, shape_for, place_for, plan_by};

    /// The slots of the data and of the mirror or the parity, in order.
    pub fn pair(&self) -> (Slot, Slot)
        ensures pair { pair_of (place_for self.now) ≡ result.0.0 ∷ result.1.0 ∷ [] }
        ensures first { result.0.0 < self.now.geometry.members }
        ensures second { result.1.0 < self.now.geometry.members }
    {
        if self.place.main.0 < self.place.other.0 {
            (self.place.main, self.place.other)
        } else {
            (self.place.other, self.place.main)
        }
    }

    /// A read of a mirror: its first slot that may be read.
    fn mirror_plan(&self, members: &Members) -> Plan
        requires { (self.now.geometry.level ≡ One) ⊎ (self.now.geometry.level ≡ Ten) }
        ensures { slots_of (shape_for self.now) (place_for self.now) result
            ≡ read_plan (Some self.now.geometry.level) (shape_for self.now) (place_for self.now)
            (members_seen members.now) }
    {
        let main = members.is_usable(self.place.main);
        let other = members.is_usable(self.place.other);
        if main && (self.place.main.0 < self.place.other.0 || !other) {
            Plan::Main
        } else if other {
            Plan::Other
        } else {
            Plan::Nothing
        }
    }

    /// What a read reads.
    fn read_plan(&self, members: &Members) -> Plan
        ensures { slots_of (shape_for self.now) (place_for self.now) result
            ≡ read_plan (Some self.now.geometry.level) (shape_for self.now) (place_for self.now)
            (members_seen members.now) }
    {
        match self.geometry.level {
            Level::One | Level::Ten => self.mirror_plan(members),
            Level::Five => {
                if members.is_usable(self.place.main) {
                    Plan::Main
                } else {
                    Plan::Others
                }
            }
        }
    }

    /// What a write with parity reads.
    fn parity_plan(&self, members: &Members) -> Plan
        ensures { slots_of (shape_for self.now) (place_for self.now) result
            ≡ parity_plan (shape_for self.now) (place_for self.now)
            (members_seen members.now) }
    {
        if members.is_usable(self.place.main) && members.is_usable(self.place.other) {
            Plan::Pair
        } else if members.is_working(self.place.other) {
            Plan::OtherData
        } else {
            Plan::Nothing
        }
    }

    /// What a write reads.
    fn write_plan(&self, members: &Members) -> Plan
        ensures { slots_of (shape_for self.now) (place_for self.now) result
            ≡ write_plan (Some self.now.geometry.level) (shape_for self.now) (place_for self.now)
            (members_seen members.now) }
    {
        match self.geometry.level {
            Level::One | Level::Ten => Plan::Nothing,
            Level::Five => self.parity_plan(members),
        }
    }

    /// What a job without a plan reads.
    pub fn new_plan(&self, members: &Members) -> Plan
        ensures { slots_of (shape_for self.now) (place_for self.now) result ≡ plan_by self.now members.now }
    {
        match &self.kind {
            JobKind::Read => self.read_plan(members),
            JobKind::Write(_) => self.write_plan(members),
        }
    }

    /// What a job reads: by the plan that it has, or else by a new one.
    pub fn plan_now(&self, members: &Members) -> Plan
        ensures { (S : Setting) → (r : Row) → StandsFor S self.now r
            → slots_of (shape_for self.now) (place_for self.now) result
            ≡ plan_or r.plan (plan_by self.now members.now) }
    {
        match self.plan {
            Some(plan) => plan,
            None => self.new_plan(members),
        }
    }

    /// Whether a plan over all other slots has a slot.
    fn is_planned(&self, data_alone: bool, slot: u8) -> bool
        ensures { result ≡ is_planned (place_for self.now) data_alone slot }
    {
        slot != self.place.main.0 && !(data_alone && slot == self.place.other.0)
    }

    /// The first slot of a plan over all other slots that wasn't read yet.
    fn unread_among(&self, data_alone: bool) -> Option<Slot>
        ensures slot { option_map number_of result
            ≡ first_of (unmarked self.now.read.marks (filter (is_planned (place_for self.now) data_alone)
            (range_with_len 0 self.now.geometry.members))) }
        ensures below { IfSome result (λ s. s.0 < self.now.geometry.members) }
    {
        for slot in 0..self.geometry.members {
            if self.is_planned(data_alone, slot) && !self.read.has(Slot(slot)) {
                return Some(Slot(slot));
            }
        }
        None
    }

    /// A slot, unless it was read.
    fn unless_read(&self, slot: Slot) -> Option<Slot>
        requires { slot.0 < self.now.geometry.members }
        ensures slot { option_map number_of result ≡ first_of (unmarked self.now.read.marks (slot.0 ∷ [])) }
        ensures below { IfSome result (λ s. s.0 < self.now.geometry.members) }
    {
        if self.read.has(slot) {
            None
        } else {
            Some(slot)
        }
    }

    /// The first of the pair that wasn't read yet.
    fn unread_of_pair(&self) -> Option<Slot>
        ensures slot { option_map number_of result
            ≡ first_of (unmarked self.now.read.marks (pair_of (place_for self.now))) }
        ensures below { IfSome result (λ s. s.0 < self.now.geometry.members) }
    {
        let (first, second) = self.pair();
        if !self.read.has(first) {
            Some(first)
        } else {
            self.unless_read(second)
        }
    }

    /// The first slot of a plan that wasn't read yet.
    pub fn next_read(&self, plan: Plan) -> Option<Slot>
        ensures slot { option_map number_of result
            ≡ first_of (unmarked self.now.read.marks (slots_of (shape_for self.now) (place_for self.now) plan)) }
        ensures below { IfSome result (λ s. s.0 < self.now.geometry.members) }
    {
        match plan {
            Plan::Nothing => None,
            Plan::Main => self.unless_read(self.place.main),
            Plan::Other => self.unless_read(self.place.other),
            Plan::Pair => self.unread_of_pair(),
            Plan::Others => self.unread_among(false),
            Plan::OtherData => self.unread_among(true),
        }
    }
}
