//! How a client's next operation is submitted.
ghost use Rattle.std.specs.Prelude.{◌≡◌, ◌+◌, ◌^◌, ◌<◌, length};
ghost use Rattle.stage_machine.specs.Jobs.{client_at, placement_at};
ghost use Rattle.stage_machine.specs.States.{is_readonly};
ghost use Rattle.stage_machine.specs.Machine as machine;
ghost use Rattle.control_state.specs.declared.job.JobStep.TheVariants.{Waiting};
ghost use Rattle.control_state.specs.Seen.{plan_setting, state_of, left_from, number_of};
ghost use Rattle.control_state.specs.Controls.{control_of, out_of};

use crate::client::next_op;
use crate::control::Control;
use crate::event::{Events, ShortEvent};
use crate::job::{JobStep, Work};
use crate::plan::Plan;
use array_model::OpKind;

/// The job of an operation on whose row no call was made.
fn work_of(op: u64) -> Work
    ensures { result ≡ record { op = op; step = Waiting } }
{
    let step = JobStep::Waiting;
    Work { op, step }
}

impl Control {
    /// The operation lies past the volume's end.
    fn past(&mut self, plan: &Plan, k: u8, op: u64) -> Events
        requires client { k < 16 }
        requires op { op < length plan.now.ops.items }
        ensures { out_of plan.now self.new result
            ≡ machine.past (control_of plan.now self.old) k op (left_from plan.now.ops.items (number_of self.old.clients k) (op + 1)) }
    {
        self.submit_at(k, op, None);
        Events::Two(ShortEvent::Submit(op), ShortEvent::Past(op))
    }

    fn submit_write(&mut self, plan: &Plan, k: u8, op: u64) -> Events
        requires client { k < 16 }
        requires op { op < length plan.now.ops.items }
        ensures { out_of plan.now self.new result
            ≡ machine.submit_write (control_of plan.now self.old) k op (left_from plan.now.ops.items (number_of self.old.clients k) (op + 1))
            (placement_at (plan_setting plan.now) op) }
    {
        if !plan.is_placed(op) {
            return self.past(plan, k, op);
        }
        self.submit_at(k, op, Some(work_of(op)));
        let woken = self.state.is_woken();
        self.state = self.state.asked();
        if woken {
            Events::Two(ShortEvent::Submit(op), ShortEvent::Pending)
        } else {
            Events::One(ShortEvent::Submit(op))
        }
    }

    fn submit_read(&mut self, plan: &Plan, k: u8, op: u64) -> Events
        requires client { k < 16 }
        requires op { op < length plan.now.ops.items }
        ensures { out_of plan.now self.new result
            ≡ machine.submit_read (control_of plan.now self.old) k op (left_from plan.now.ops.items (number_of self.old.clients k) (op + 1))
            (placement_at (plan_setting plan.now) op) }
    {
        if !plan.is_placed(op) {
            return self.past(plan, k, op);
        }
        self.submit_at(k, op, Some(work_of(op)));
        Events::One(ShortEvent::Submit(op))
    }

    fn submit_op(&mut self, plan: &Plan, k: u8, op: u64) -> Events
        requires client { k < 16 }
        requires op { op < length plan.now.ops.items }
        ensures { out_of plan.now self.new result
            ≡ machine.submit_unless (plan_setting plan.now) (control_of plan.now self.old) k op
            (left_from plan.now.ops.items (number_of self.old.clients k) (op + 1)) (is_readonly (state_of self.old.state)) }
    {
        if self.state.is_readonly() {
            return Events::Zero;
        }
        match plan.kind(op) {
            Some(OpKind::Write(_, _, _)) => self.submit_write(plan, k, op),
            Some(OpKind::Read(_, _)) => self.submit_read(plan, k, op),
            Some(OpKind::Whole(_)) | None => Events::Zero,
        }
    }

    /// A client's next operation is submitted, where there is one and the volume isn't readonly.
    pub fn submit(&mut self, plan: &Plan, k: u8) -> Events
        requires { k < 16 }
        ensures { out_of plan.now self.new result
            ≡ machine.submit_next (plan_setting plan.now) (control_of plan.now self.old) k
            (client_at (control_of plan.now self.old).clients k).left }
    {
        let client = &self.clients[k as usize];
        match next_op(&plan.ops, client.number, client.next) {
            None => Events::Zero,
            Some(op) => self.submit_op(plan, k, op),
        }
    }
}
