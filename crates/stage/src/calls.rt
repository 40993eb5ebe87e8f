//! The device calls of a turn.
ghost use Rattle.std.specs.Prelude.{◌≡◌, ◌+◌, ◌^◌, ◌≤◌, ◌<◌, [], ◌∷◌, length, slice_index, is_ok, IfOk, ℕ, if◌then◌else◌};
ghost use Rattle.units.specs.declared.bounds.TheConstants.{METADATA_SECTORS};
ghost use Rattle.units.specs.Places.{anchor_place};
ghost use Rattle.device_log.specs.Log.{Call, Read, Write};
ghost use Rattle.member_bank.specs.Told.{Keeps, Logs, LogsWrite, Gives};
ghost use Rattle.member_bank.specs.Faults.{HasCause};
ghost use Rattle.stage_machine.specs.Jobs.{row_at, value_at};
ghost use Rattle.control_state.specs.Book.{laid_at};
ghost use Rattle.control_state.specs.Seen.{plan_setting};
ghost use Rattle.stage.specs.Asked.{asked_of};
ghost use Rattle.stage.specs.Causes.{Counts, failed_on};

use control_state::{Ask, Book, Plan, Step};
use member_bank::{Bank, Failed};
use units::{DiskNo, SECTOR_BYTES, Sector};

/// Makes a round's call: whether it went through.
pub fn round_call<B: Bank>(bank: &mut B, next: &Book, ask: Ask) -> bool
    requires disk { ask.disk.0 < length (B.sizes bank.old) }
    requires room { METADATA_SECTORS ≤ slice_index (B.sizes bank.old) ask.disk.0 }
    ensures logs { (stored : ℕ) × Logs (B.log bank.old) (B.log bank.new) (record {
      disk = ask.disk.0;
      what = asked_of (slice_index (B.sizes bank.old) ask.disk.0) (laid_at next.now.anchor) ask.step
          (if result then 1 else stored);
      went = result;
    }) }
    ensures opening { Keeps (B.opening bank.old) (B.opening bank.new) }
    ensures sizes { B.sizes bank.new ≡ B.sizes bank.old }
    ensures serials { B.serials bank.new ≡ B.serials bank.old }
    ensures cause { Counts (B.faults_of bank.old) (B.faults_of bank.new) (failed_on ask.disk.0 result) }
{
    match ask.step {
        Step::Anchor => {
            let place = bank.sectors(ask.disk) - 2;
            bank.write(ask.disk, place, &[next.anchor]).is_ok()
        }
        Step::Sync => bank.sync(ask.disk).is_ok(),
    }
}

/// Reads the row of an operation on a member.
pub fn read_row<B: Bank>(bank: &mut B, plan: &Plan, op: u64, disk: DiskNo) -> Result<Sector, Failed>
    requires disk { disk.0 < length (B.sizes bank.old) }
    requires room { plan.now.pba + row_at (plan_setting plan.now) op < slice_index (B.sizes bank.old) disk.0 }
    requires fits { plan.now.pba + row_at (plan_setting plan.now) op < 2 ^ 64 }
    ensures logs { Logs (B.log bank.old) (B.log bank.new) (record {
      disk = disk.0;
      what = Read (plan.now.pba + row_at (plan_setting plan.now) op);
      went = is_ok result;
    }) }
    ensures opening { Keeps (B.opening bank.old) (B.opening bank.new) }
    ensures gives { IfOk result (λ s. Gives (B.opening bank.new) (B.log bank.new) disk.0
        (plan.now.pba + row_at (plan_setting plan.now) op) s) }
    ensures sizes { B.sizes bank.new ≡ B.sizes bank.old }
    ensures serials { B.serials bank.new ≡ B.serials bank.old }
    ensures cause { HasCause (B.faults_of bank.old) (B.faults_of bank.new) disk.0 result }
{
    let mut into = Sector([0; SECTOR_BYTES]);
    bank.read(disk, plan.pba + plan.row(op), &mut into)?;
    Ok(into)
}

/// Writes the row of an operation on a member: whether it went through.
pub fn write_row<B: Bank>(bank: &mut B, plan: &Plan, op: u64, disk: DiskNo) -> bool
    requires disk { disk.0 < length (B.sizes bank.old) }
    requires room { plan.now.pba + row_at (plan_setting plan.now) op < slice_index (B.sizes bank.old) disk.0 }
    requires fits { plan.now.pba + row_at (plan_setting plan.now) op < 2 ^ 64 }
    ensures logs { (stored : ℕ) × Logs (B.log bank.old) (B.log bank.new) (record {
      disk = disk.0;
      what = Write (plan.now.pba + row_at (plan_setting plan.now) op) (value_at (plan_setting plan.now) op ∷ [])
          (if result then 1 else stored);
      went = result;
    }) }
    ensures opening { Keeps (B.opening bank.old) (B.opening bank.new) }
    ensures sizes { B.sizes bank.new ≡ B.sizes bank.old }
    ensures serials { B.serials bank.new ≡ B.serials bank.old }
    ensures cause { Counts (B.faults_of bank.old) (B.faults_of bank.new) (failed_on disk.0 result) }
{
    bank.write(disk, plan.pba + plan.row(op), &[plan.value(op)])
        .is_ok()
}
