//! What came of a job's calls, and of the members of its volume.
use crate::job::{Need, Plan, RowJob};
use crate::members::{Fed, Members};
use crate::slots::Slots;
use units::{Sector, Slot};

impl RowJob {
    ghost use Rattle.std.specs.Prelude.{◌≡◌, ◌<◌, ℕ, List, Some};
    ghost use Rattle.array_model.specs.Script.{sector_of};
    ghost use Rattle.array_machine.specs.Setting.{Setting};
    ghost use Rattle.array_machine.specs.Volumes.{Slot as MachineSlot};
    ghost use Rattle.array_machine.specs.Clients.{Row};
    ghost use Rattle.array_machine.specs.RowJobs.{Reads, Writes, Syncs, went_on, lost_row};
    ghost use Rattle.row_path.specs.declared.members.Fed.TheVariants as told;
    ghost use Rattle.row_path.specs.Jobs.{AddsBytes, StandsFor, IsSameJob, need_of, row_tried, read_anew, fed_by};

    /// A call was made, whatever came of it: the job has begun, and has a plan.
    pub fn called(&mut self, members: &Members)
        ensures row { (S : Setting) → (slots : List MachineSlot) → (r : Row) → StandsFor S self.old r
            → StandsFor S self.new (row_tried self.old members.now slots r) }
        ensures same { IsSameJob self.old self.new }
    {
        self.plan = Some(self.plan_now(members));
        self.begun = true;
    }

    /// A read went through.
    fn took(&mut self, slot: Slot, x: &Sector)
        requires { slot.0 < self.old.geometry.members }
        ensures row { (S : Setting) → (r : Row) → AddsBytes S → StandsFor S self.old r
            → StandsFor S self.new (went_on (Reads slot.0) x.now r) }
        ensures same { IsSameJob self.old self.new }
    {
        self.kind.add(self.has_read, &mut self.sum, x);
        self.read.add(slot);
        self.has_read = true;
    }

    /// A write went through.
    fn wrote(&mut self, slot: Slot)
        requires { slot.0 < self.old.geometry.members }
        ensures row { (S : Setting) → (r : Row) → StandsFor S self.old r
            → StandsFor S self.new (went_on (Writes slot.0) (sector_of 0) r) }
        ensures same { IsSameJob self.old self.new }
    {
        self.written.add(slot);
    }

    /// A sync went through.
    fn synced(&mut self, slot: Slot)
        requires { slot.0 < self.old.geometry.members }
        ensures row { (S : Setting) → (r : Row) → StandsFor S self.old r
            → StandsFor S self.new (went_on (Syncs slot.0) (sector_of 0) r) }
        ensures same { IsSameJob self.old self.new }
    {
        self.synced.add(slot);
    }

    /// The job reads again from the start, by a new plan.
    fn read_anew(&mut self)
        ensures row { (S : Setting) → (r : Row) → StandsFor S self.old r → StandsFor S self.new (read_anew r) }
        ensures same { IsSameJob self.old self.new }
    {
        self.plan = None;
        self.has_read = false;
        self.read = Slots::none();
        self.sum = self.kind.first_sum();
    }

    /// A job with a plan reads again from the start where slots of it are left to read.
    fn lost_of(&mut self, plan: Plan)
        requires { self.old.plan ≡ Some plan }
        ensures row { (S : Setting) → (r : Row) → StandsFor S self.old r → StandsFor S self.new (lost_row r.plan r) }
        ensures same { IsSameJob self.old self.new }
    {
        match self.next_read(plan) {
            Some(_) => self.read_anew(),
            None => {}
        }
    }

    /// A member failed: a job that has slots of its plan left to read reads again from the start.
    fn lost(&mut self)
        ensures row { (S : Setting) → (r : Row) → StandsFor S self.old r → StandsFor S self.new (lost_row r.plan r) }
        ensures same { IsSameJob self.old self.new }
    {
        match self.plan {
            Some(plan) => self.lost_of(plan),
            None => {}
        }
    }

    /// A read went through, if the job needed one.
    fn read_went(&mut self, members: &Members, x: &Sector)
        ensures row { (S : Setting) → (slots : List MachineSlot) → (r : Row) → AddsBytes S → StandsFor S self.old r
            → StandsFor S self.new
            (fed_by (told.Got x.now) (need_of S self.old members.now r) (row_tried self.old members.now slots r) r) }
        ensures same { IsSameJob self.old self.new }
    {
        if let Need::Read(slot) = self.need(members) {
            self.called(members);
            self.took(slot, x);
        }
    }

    /// A write or a sync went through, if the job needed one.
    fn call_went(&mut self, members: &Members)
        ensures row { (S : Setting) → (slots : List MachineSlot) → (r : Row) → StandsFor S self.old r
            → StandsFor S self.new
            (fed_by told.Went (need_of S self.old members.now r) (row_tried self.old members.now slots r) r) }
        ensures same { IsSameJob self.old self.new }
    {
        match self.need(members) {
            Need::Write(slot) => {
                self.called(members);
                self.wrote(slot);
            }
            Need::Sync(slot) => {
                self.called(members);
                self.synced(slot);
            }
            _ => {}
        }
    }

    /// What came of the call that the job needed, or that a member failed. After a call that failed, `called` comes
    /// before this.
    pub fn fed(&mut self, members: &Members, got: Fed)
        ensures row { (S : Setting) → (slots : List MachineSlot) → (r : Row) → AddsBytes S → StandsFor S self.old r
            → StandsFor S self.new
            (fed_by got (need_of S self.old members.now r) (row_tried self.old members.now slots r) r) }
        ensures same { IsSameJob self.old self.new }
    {
        match got {
            Fed::Got(x) => self.read_went(members, &x),
            Fed::Went => self.call_went(members),
            Fed::Lost(_) => self.lost(),
        }
    }
}
