//! The row jobs of clients: a write goes to each member and is then synced on each; a read is of the first member.
ghost use Rattle.std.specs.Prelude.{◌≡◌, ◌≤◌, length, drop, slice_get};
ghost use Rattle.units.specs.declared.disk.Sector.{Sector};
ghost use Rattle.array_model.specs.Script.{kind_at};
ghost use Rattle.stage_machine.specs.Jobs as machine;
ghost use Rattle.control_state.specs.Seen.{numbers, plan_setting, client_of, step_of, need_of};

use crate::client::Client;
use crate::plan::Plan;
use array_model::OpKind;
use units::DiskNo;

/// Where a job stands: no call was made; the members from a place on are left to write, or to sync; all is done; a
/// value was read, which stands with the client.
#[derive(Clone, Copy, Debug, PartialEq, Eq)]
pub enum JobStep {
    Waiting,
    Writing(u8),
    Syncing(u8),
    Written,
    Got,
}

/// The job of an operation.
#[derive(Clone, Copy, Debug, PartialEq, Eq)]
pub struct Work {
    pub op: u64,
    pub step: JobStep,
}

/// What a job needs next: a call on a disk, after which the members from a place on are left, or its answer, which of a
/// read is the value that stands with the client.
#[derive(Clone, Copy, Debug, PartialEq, Eq)]
pub enum Need {
    Nothing,
    Read(DiskNo),
    Write(DiskNo, u8),
    Sync(DiskNo, u8),
    Done,
    Value,
}

fn member_at(members: &[DiskNo], at: u8) -> Option<DiskNo>
    ensures { result ≡ slice_get members.now at }
{
    members.get(at as usize).copied()
}

fn read_need(members: &[DiskNo]) -> Need
    ensures { (read : Sector) → need_of (numbers members.now) read result ≡ machine.read_need (numbers members.now) }
{
    match member_at(members, 0) {
        Some(disk) => Need::Read(disk),
        None => Need::Nothing,
    }
}

fn write_need(members: &[DiskNo], at: u8) -> Need
    requires { length members.now ≤ 16 }
    ensures { (read : Sector) → need_of (numbers members.now) read result ≡ machine.write_need (drop at (numbers members.now)) }
{
    match member_at(members, at) {
        Some(disk) => Need::Write(disk, at + 1),
        None => Need::Nothing,
    }
}

fn sync_need(members: &[DiskNo], at: u8) -> Need
    requires { length members.now ≤ 16 }
    ensures { (read : Sector) → need_of (numbers members.now) read result ≡ machine.sync_need (drop at (numbers members.now)) }
{
    match member_at(members, at) {
        Some(disk) => Need::Sync(disk, at + 1),
        None => Need::Nothing,
    }
}

impl Plan {
    /// What the job of an operation needs where no call was made yet.
    fn first_need(&self, op: u64) -> Need
        ensures { (read : Sector) → need_of (numbers self.now.members.items) read result
            ≡ machine.first_need (plan_setting self.now) (kind_at self.now.ops.items op) }
    {
        let members = self.members.as_slice();
        match self.kind(op) {
            Some(OpKind::Write(_, _, _)) => write_need(members, 0),
            Some(OpKind::Read(_, _)) => read_need(members),
            Some(OpKind::Whole(_)) | None => Need::Nothing,
        }
    }

    /// What a job needs where nothing holds it.
    pub fn need(&self, work: &Work) -> Need
        ensures { (read : Sector) → need_of (numbers self.now.members.items) read result
            ≡ machine.need_of (plan_setting self.now) work.now.op
            (step_of (numbers self.now.members.items) read work.now.step) }
    {
        let members = self.members.as_slice();
        match work.step {
            JobStep::Waiting => self.first_need(work.op),
            JobStep::Writing(at) => write_need(members, at),
            JobStep::Syncing(at) => sync_need(members, at),
            JobStep::Written => Need::Done,
            JobStep::Got => Need::Value,
        }
    }

    /// Where a job stands once the members before a place were written.
    pub fn after_write(&self, rest: u8) -> JobStep
        ensures { (read : Sector) → step_of (numbers self.now.members.items) read result
            ≡ machine.after_write (plan_setting self.now) (drop rest (numbers self.now.members.items)) }
    {
        if (rest as usize) < self.members.len() {
            JobStep::Writing(rest)
        } else {
            JobStep::Syncing(0)
        }
    }

    /// Where a job stands once the members before a place were synced.
    pub fn after_sync(&self, rest: u8) -> JobStep
        ensures { (read : Sector) → step_of (numbers self.now.members.items) read result
            ≡ machine.after_sync (drop rest (numbers self.now.members.items)) }
    {
        if (rest as usize) < self.members.len() {
            JobStep::Syncing(rest)
        } else {
            JobStep::Written
        }
    }

    /// Whether a client's job holds a row: it does from its first call on.
    pub fn holds(&self, row: u64, client: &Client) -> bool
        ensures { result ≡ machine.holds (plan_setting self.now) row (client_of self.now client.now).job }
    {
        match &client.work {
            None => false,
            Some(work) => !matches!(work.step, JobStep::Waiting) && self.row(work.op) == row,
        }
    }

    /// Whether a client's job is a write without an answer.
    pub fn is_writing(&self, client: &Client) -> bool
        ensures { result ≡ machine.is_writing (plan_setting self.now) (client_of self.now client.now).job }
    {
        match &client.work {
            None => false,
            Some(work) => self.is_write(work.op),
        }
    }
}
