//! What the monitor does in its turn, but for the entries.
ghost use Rattle.std.specs.Prelude.{◌≡◌, ◌+◌, ◌^◌, ◌<◌, ℕ, None};
ghost use Rattle.units.specs.declared.disk.Sector.{Sector as SectorBytes};
ghost use Rattle.member_bank.specs.Told.{Keeps};
ghost use Rattle.array_model.specs.Blocks.{Laid};
ghost use Rattle.stage_machine.specs.Rounds.{Ended};
ghost use Rattle.stage_machine.specs.Machine.{Monitors};
ghost use Rattle.control_state.specs.Controls.{control_of, out_of, failed_of};
ghost use Rattle.stage.specs.Runs.{run_setting, FitsBank, Makes};
ghost use Rattle.stage.specs.Causes.{Counts, Grows};

use crate::calls::round_call;
use control_state::{Control, Events, Plan};
use member_bank::Bank;

/// The monitor's turn: the round's next call, or what there is to do without one.
pub fn monitor_part<B: Bank>(
    bank: &mut B,
    control: &mut Control,
    plan: &Plan,
    calls: &mut u64,
) -> Events
    requires live { control.old.failed ≡ None }
    requires calls { calls.old + 1 < 2 ^ 64 }
    requires room { control.old.round.note + 1 < 2 ^ 32 }
    requires fits { FitsBank plan.now (B.sizes bank.old) }
    ensures made { (newest : Laid) → (x : Ended)
        × Makes (run_setting plan.now newest (B.sizes bank.old)) (B.log bank.old)
        (control_of plan.now control.old) calls.old (Monitors x) (out_of plan.now control.new result) calls.new
        (B.log bank.new) }
    ensures opening { Keeps (B.opening bank.old) (B.opening bank.new) }
    ensures sizes { B.sizes bank.new ≡ B.sizes bank.old }
    ensures serials { B.serials bank.new ≡ B.serials bank.old }
    ensures grows { Grows (B.log bank.old) calls.old (B.log bank.new) calls.new }
    ensures cause { Counts (B.faults_of bank.old) (B.faults_of bank.new) (failed_of control.new.failed) }
{
    match control.round.ask(plan) {
        None => control.monitor_rest(plan),
        Some(ask) => {
            *calls += 1;
            if round_call(bank, &control.round.next, ask) {
                control.round_went(plan)
            } else {
                control.fail(ask.disk);
                Events::Zero
            }
        }
    }
}
