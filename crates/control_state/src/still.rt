//! Whether an actor has nothing to do: its turn would make no call and enter nothing. Once a call has failed, no actor
//! has anything to do.
ghost use Rattle.std.specs.Prelude.{◌≡◌, ◌<◌, false, ℕ, List, None};
ghost use Rattle.units.specs.declared.disk.Sector.{Sector as SectorBytes};
ghost use Rattle.stage_machine.specs.Jobs.{client_at};
ghost use Rattle.stage_machine.specs.Rounds.{Ended};
ghost use Rattle.stage_machine.specs.Machine as machine;
ghost use Rattle.stage_machine.specs.States.{is_readonly};
ghost use Rattle.control_state.specs.Seen.{plan_setting, move_of, state_of};
ghost use Rattle.control_state.specs.Rounds.{round_of, next_ask};
ghost use Rattle.control_state.specs.Controls.{control_of};
ghost use Rattle.control_state.specs.Still.{is_silent, turn_does_nothing, is_still};

use crate::client::{has_write, next_op};
use crate::control::Control;
use crate::job::Need;
use crate::plan::Plan;
use crate::round::Phase;
use crate::state::{Move, State, decide};
use array_model::OpKind;
use units::CLIENTS;

impl Control {
    /// Whether what the monitor does enters nothing.
    fn is_silent_move(&self, plan: &Plan, what: Move) -> bool
        ensures { result
            ≡ is_silent (machine.moved (plan_setting plan.now) (control_of plan.now self.now) (move_of what)).events }
    {
        match what {
            Move::Nothing => true,
            Move::Starts => plan.targets.is_empty(),
            Move::Makes(_, _) => false,
        }
    }

    /// Whether the monitor's turn enters nothing where its round makes no call.
    fn is_silent_rest(&self, plan: &Plan) -> bool
        requires rest { next_ask (round_of plan.now self.now.round).phase ≡ None }
        ensures { (x : Ended) → result
            ≡ is_silent (machine.monitor_at (plan_setting plan.now) (control_of plan.now self.now) x
            (round_of plan.now self.now.round).phase).events }
    {
        match self.round.phase {
            Phase::Going(_, _) => true,
            Phase::Rest => {
                let dirty = self.round.book.is_dirty();
                self.is_silent_move(plan, decide(self.round.started, self.state, dirty, dirty))
            }
        }
    }

    /// Whether the monitor has nothing to do while no call has failed.
    fn monitor_waits(&self, plan: &Plan) -> bool
        ensures { (x : Ended) → result
            ≡ turn_does_nothing (plan_setting plan.now) (control_of plan.now self.now) (machine.Monitors x) }
    {
        match self.round.ask(plan) {
            Some(_) => false,
            None => self.is_silent_rest(plan),
        }
    }

    /// Whether the monitor has nothing to do: no round goes on, none is due that has a target, and the volume's state
    /// stays.
    pub fn monitor_is_still(&self, plan: &Plan) -> bool
        ensures { (x : Ended) → result
            ≡ is_still (plan_setting plan.now) (control_of plan.now self.now) (machine.Monitors x) }
    {
        self.failed.is_some() || self.monitor_waits(plan)
    }

    /// Whether an operation that comes next isn't submitted.
    fn is_silent_op(&self, plan: &Plan, op: u64) -> bool
        ensures { (k : ℕ) → (rest : List ℕ) → result
            ≡ is_silent (machine.submit_unless (plan_setting plan.now) (control_of plan.now self.now) k op rest
            (is_readonly (state_of self.now.state))).events }
    {
        self.state.is_readonly()
            || match plan.kind(op) {
                Some(OpKind::Write(_, _, _)) | Some(OpKind::Read(_, _)) => false,
                Some(OpKind::Whole(_)) | None => true,
            }
    }

    /// Whether a client without a job submits nothing.
    fn is_silent_submit(&self, plan: &Plan, k: u8) -> bool
        requires { k < 16 }
        ensures { result
            ≡ is_silent (machine.submit_next (plan_setting plan.now) (control_of plan.now self.now) k
            (client_at (control_of plan.now self.now).clients k).left).events }
    {
        let client = &self.clients[k as usize];
        match next_op(&plan.ops, client.number, client.next) {
            None => true,
            Some(op) => self.is_silent_op(plan, op),
        }
    }

    /// Whether a client has nothing to do while no call has failed.
    fn client_waits(&self, plan: &Plan, k: u8) -> bool
        requires { k < 16 }
        ensures { (x : Ended) → (got : SectorBytes)
            → result ≡ turn_does_nothing (plan_setting plan.now) (control_of plan.now self.now) (machine.Asks k x got) }
    {
        match self.work(k) {
            None => self.is_silent_submit(plan, k),
            Some(work) => matches!(self.need(plan, k, &work), Need::Nothing),
        }
    }

    /// Whether a client has nothing to do: its job is held, or it has none and submits nothing. No client stands at a
    /// place of 16 or above, and there nothing is to do.
    pub fn client_is_still(&self, plan: &Plan, k: u8) -> bool
        ensures there { result ≡ false → k < 16 }
        ensures still { (x : Ended) → (got : SectorBytes)
            → result ≡ is_still (plan_setting plan.now) (control_of plan.now self.now) (machine.Asks k x got) }
    {
        if k as usize >= CLIENTS {
            return true;
        }
        self.failed.is_some() || self.client_waits(plan, k)
    }

    /// Whether a quiet time changes nothing: the volume isn't active, or a write has no answer.
    pub fn quiet_is_still(&self, plan: &Plan) -> bool
        ensures { result ≡ is_still (plan_setting plan.now) (control_of plan.now self.now) machine.Quiets }
    {
        self.failed.is_some() || self.state != State::Active || has_write(plan, &self.clients)
    }
}
