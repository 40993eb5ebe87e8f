//! What a client does in its turn, but for the entries.
ghost use Rattle.std.specs.Prelude.{◌≡◌, ◌+◌, ◌^◌, ◌<◌, ℕ, None, []};
ghost use Rattle.units.specs.declared.disk.Sector.{Sector as SectorBytes};
ghost use Rattle.member_bank.specs.Told.{Keeps};
ghost use Rattle.array_model.specs.Blocks.{Laid};
ghost use Rattle.stage_machine.specs.Jobs.{client_at, Busy, Got};
ghost use Rattle.stage_machine.specs.Rounds.{Ended};
ghost use Rattle.stage_machine.specs.Machine.{Asks, put_client, dropped};
ghost use Rattle.control_state.specs.declared.plan.Plan.{Plan as PlanSeen};
ghost use Rattle.control_state.specs.Events.{read_of};
ghost use Rattle.control_state.specs.Seen.{numbers, step_of};
ghost use Rattle.control_state.specs.Controls.{control_of, out_of, failed_of};
ghost use Rattle.stage.specs.Runs.{run_setting, FitsBank, MakesTrue};
ghost use Rattle.stage.specs.Causes.{Counts, Grows};

use crate::calls::{read_row, write_row};
use control_state::{Control, Events, JobStep, Need, Plan, Work};
use member_bank::{Bank, Failed};
use units::{DiskNo, Sector};

/// A client's job stands at its next step.
fn step_to(control: &mut Control, k: u8, op: u64, step: JobStep) -> Events
    requires { k < 16 }
    ensures { (p : PlanSeen) → out_of p control.new result ≡ record {
      next = put_client (control_of p control.old) k (client_at (control_of p control.old).clients k).left
          (Busy op (step_of (numbers p.members.items) (read_of control.old.clients k) step));
      events = [];
    } }
{
    control.settle(k, Some(Work { op, step }));
    Events::Zero
}

/// A client's read gave a sector.
fn take_in(control: &mut Control, k: u8, op: u64, read: Sector) -> Events
    requires { k < 16 }
    ensures { (p : PlanSeen) → out_of p control.new result ≡ record {
      next = put_client (control_of p control.old) k (client_at (control_of p control.old).clients k).left
          (Busy op (Got read));
      events = [];
    } }
{
    control.take_in(k, op, read);
    Events::Zero
}

/// A disk's call failed.
fn drop_disk(control: &mut Control, disk: DiskNo) -> Events
    ensures { (p : PlanSeen) → out_of p control.new result ≡ dropped disk.0 (control_of p control.old) }
{
    control.fail(disk);
    Events::Zero
}

/// A job's turn: the next call of its row, its answer, or nothing where something holds it.
fn meet<B: Bank>(
    bank: &mut B,
    control: &mut Control,
    plan: &Plan,
    calls: &mut u64,
    k: u8,
    work: &Work,
) -> Events
    requires client { k < 16 }
    requires live { control.old.failed ≡ None }
    requires calls { calls.old + 1 < 2 ^ 64 }
    requires fits { FitsBank plan.now (B.sizes bank.old) }
    requires job { (client_at (control_of plan.now control.old).clients k).job
        ≡ Busy work.now.op (step_of (numbers plan.now.members.items)
        (read_of control.old.clients k) work.now.step) }
    ensures made { (newest : Laid) → (x : Ended) × (got : SectorBytes)
        × MakesTrue (run_setting plan.now newest (B.sizes bank.old)) (B.log bank.old)
        (control_of plan.now control.old) calls.old (Asks k x got) (out_of plan.now control.new result) calls.new
        (B.opening bank.new) (B.log bank.new) }
    ensures opening { Keeps (B.opening bank.old) (B.opening bank.new) }
    ensures sizes { B.sizes bank.new ≡ B.sizes bank.old }
    ensures serials { B.serials bank.new ≡ B.serials bank.old }
    ensures grows { Grows (B.log bank.old) calls.old (B.log bank.new) calls.new }
    ensures cause { Counts (B.faults_of bank.old) (B.faults_of bank.new) (failed_of control.new.failed) }
{
    match control.need(plan, k, work) {
        Need::Nothing => Events::Zero,
        Need::Done => control.answer(k, work.op),
        Need::Value => control.give(k, work.op),
        Need::Read(disk) => {
            *calls += 1;
            match read_row(bank, plan, work.op, disk) {
                Ok(read) => take_in(control, k, work.op, read),
                Err(Failed) => drop_disk(control, disk),
            }
        }
        Need::Write(disk, rest) => {
            *calls += 1;
            if write_row(bank, plan, work.op, disk) {
                step_to(control, k, work.op, plan.after_write(rest))
            } else {
                drop_disk(control, disk)
            }
        }
        Need::Sync(disk, rest) => {
            *calls += 1;
            match bank.sync(disk) {
                Ok(()) => step_to(control, k, work.op, plan.after_sync(rest)),
                Err(Failed) => drop_disk(control, disk),
            }
        }
    }
}

/// A client's turn: it submits its next operation, or its job goes on.
pub fn client_part<B: Bank>(
    bank: &mut B,
    control: &mut Control,
    plan: &Plan,
    calls: &mut u64,
    k: u8,
) -> Events
    requires client { k < 16 }
    requires live { control.old.failed ≡ None }
    requires calls { calls.old + 1 < 2 ^ 64 }
    requires fits { FitsBank plan.now (B.sizes bank.old) }
    ensures made { (newest : Laid) → (x : Ended) × (got : SectorBytes)
        × MakesTrue (run_setting plan.now newest (B.sizes bank.old)) (B.log bank.old)
        (control_of plan.now control.old) calls.old (Asks k x got) (out_of plan.now control.new result) calls.new
        (B.opening bank.new) (B.log bank.new) }
    ensures opening { Keeps (B.opening bank.old) (B.opening bank.new) }
    ensures sizes { B.sizes bank.new ≡ B.sizes bank.old }
    ensures serials { B.serials bank.new ≡ B.serials bank.old }
    ensures grows { Grows (B.log bank.old) calls.old (B.log bank.new) calls.new }
    ensures cause { Counts (B.faults_of bank.old) (B.faults_of bank.new) (failed_of control.new.failed) }
{
    match control.work(k) {
        None => control.submit(plan, k),
        Some(work) => meet(bank, control, plan, calls, k, &work),
    }
}
