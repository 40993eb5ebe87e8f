//! The control state of a stage, and the parts of its turns.
ghost use Rattle.std.specs.Prelude.{◌≡◌, ◌+◌, ◌^◌, ◌<◌, None, Some, [], ◌∷◌};
ghost use Rattle.units.specs.declared.disk.Sector.{Sector as SectorBytes};
ghost use Rattle.array_model.specs.declared.journal.Answer.TheVariants.{Done, Value};
ghost use Rattle.array_model.specs.declared.journal.Event.TheVariants.{Ack};
ghost use Rattle.stage_machine.specs.Jobs as jobs;
ghost use Rattle.stage_machine.specs.Jobs.{client_at};
ghost use Rattle.stage_machine.specs.Rounds.{Ended};
ghost use Rattle.stage_machine.specs.Machine as machine;
ghost use Rattle.control_state.specs.declared.plan.Plan.{Plan as PlanSeen};
ghost use Rattle.control_state.specs.Events.{read_of};
ghost use Rattle.control_state.specs.Seen.{numbers, plan_setting, state_of, move_of, job_of, left_from, number_of, step_of, need_of};
ghost use Rattle.control_state.specs.Rounds.{round_of, next_ask, gone};
ghost use Rattle.control_state.specs.Controls.{control_of, out_of};

use crate::client::{Client, has_write, is_locked, next_place};
use crate::event::{Events, ShortEvent};
use crate::job::{JobStep, Need, Work};
use crate::plan::Plan;
use crate::round::{Phase, Round};
use crate::state::{Move, State, decide};
use units::{CLIENTS, DiskNo, Sector};

/// The round, the state of the volume, the clients, and the disk whose call failed.
#[derive(Drop)]
pub struct Control {
    pub round: Round,
    pub state: State,
    pub clients: [Client; CLIENTS],
    pub failed: Option<DiskNo>,
}

impl Control {
    /// What the monitor does where it makes no call.
    fn moved(&mut self, plan: &Plan, what: Move) -> Events
        requires { self.old.round.note + 1 < 2 ^ 32 }
        ensures { out_of plan.now self.new result
            ≡ machine.moved (plan_setting plan.now) (control_of plan.now self.old) (move_of what) }
    {
        match what {
            Move::Nothing => Events::Zero,
            Move::Starts => match self.round.begin(plan, self.state.next_dirty()) {
                None => Events::Zero,
                Some(generation) => Events::One(ShortEvent::Begin(generation)),
            },
            Move::Makes(to, event) => {
                self.state = to;
                Events::One(event)
            }
        }
    }

    /// The monitor's turn where its round makes no call.
    pub fn monitor_rest(&mut self, plan: &Plan) -> Events
        requires room { self.old.round.note + 1 < 2 ^ 32 }
        requires rest { next_ask (round_of plan.now self.old.round).phase ≡ None }
        ensures { (x : Ended) → out_of plan.now self.new result
            ≡ machine.monitor_at (plan_setting plan.now) (control_of plan.now self.old) x
            (round_of plan.now self.old.round).phase }
    {
        match self.round.phase {
            Phase::Going(_, _) => Events::Zero,
            Phase::Rest => {
                let dirty = self.round.book.is_dirty();
                self.moved(plan, decide(self.round.started, self.state, dirty, dirty))
            }
        }
    }

    /// The round's call went through.
    pub fn round_went(&mut self, plan: &Plan) -> Events
        ensures { out_of plan.now self.new result
            ≡ machine.put_round (control_of plan.now self.old)
            (gone (plan_setting plan.now) (round_of plan.now self.old.round)
            (round_of plan.now self.old.round).phase) }
    {
        match self.round.went(plan) {
            None => Events::Zero,
            Some(generation) => Events::One(ShortEvent::End(generation)),
        }
    }

    /// A disk is dropped; that ends the run.
    pub fn fail(&mut self, disk: DiskNo)
        ensures { (p : PlanSeen) → control_of p self.new ≡ record (control_of p self.old) { failed = Some disk.0 } }
    {
        self.failed = Some(disk);
    }

    /// A client is behind an operation of its own, with a job.
    pub(crate) fn submit_at(&mut self, k: u8, op: u64, work: Option<Work>)
        requires client { k < 16 }
        requires op { op + 1 < 2 ^ 64 }
        ensures { (p : PlanSeen) → control_of p self.new ≡ machine.put_client (control_of p self.old) k
            (left_from p.ops.items (number_of self.old.clients k) (op + 1))
            (job_of (numbers p.members.items) (read_of self.old.clients k) work) }
    {
        self.clients[k as usize].next = op + 1;
        self.clients[k as usize].work = work;
    }

    /// Passes over the operations of others that stand before a client's next one: its later turns don't look at them
    /// again.
    pub fn pass_over(&mut self, plan: &Plan, k: u8)
        ensures { control_of plan.now self.new ≡ control_of plan.now self.old }
    {
        if k as usize >= CLIENTS {
            return;
        }
        let client = &self.clients[k as usize];
        let next = next_place(&plan.ops, client.number, client.next);
        self.clients[k as usize].next = next;
    }

    /// The job of a client.
    pub fn work(&self, k: u8) -> Option<Work>
        requires { k < 16 }
        ensures { (p : PlanSeen) → job_of (numbers p.members.items) (read_of self.now.clients k) result
            ≡ (client_at (control_of p self.now).clients k).job }
    {
        self.clients[k as usize].work
    }

    /// A client's job stands elsewhere, or is over.
    pub fn settle(&mut self, k: u8, work: Option<Work>)
        requires { k < 16 }
        ensures job { (p : PlanSeen) → control_of p self.new
            ≡ machine.put_client (control_of p self.old) k (client_at (control_of p self.old).clients k).left
            (job_of (numbers p.members.items) (read_of self.old.clients k) work) }
        ensures read { read_of self.new.clients k ≡ read_of self.old.clients k }
    {
        self.clients[k as usize].work = work;
    }

    /// A read of a client's job gave a sector.
    pub fn take_in(&mut self, k: u8, op: u64, read: Sector)
        requires { k < 16 }
        ensures { (p : PlanSeen) → control_of p self.new
            ≡ machine.put_client (control_of p self.old) k (client_at (control_of p self.old).clients k).left
            (jobs.Busy op (jobs.Got read)) }
    {
        let step = JobStep::Got;
        self.clients[k as usize].read = read;
        self.clients[k as usize].work = Some(Work { op, step });
    }

    /// What a client's job needs now.
    pub fn need(&self, plan: &Plan, k: u8, work: &Work) -> Need
        ensures { (read : SectorBytes) → need_of (numbers plan.now.members.items) read result
            ≡ machine.need_now (plan_setting plan.now) (control_of plan.now self.now) k work.now.op
            (step_of (numbers plan.now.members.items) read work.now.step) }
    {
        if (plan.is_write(work.op) && self.state == State::Pending)
            || is_locked(plan, &self.clients, plan.row(work.op), k)
        {
            Need::Nothing
        } else {
            plan.need(work)
        }
    }

    /// A write is answered.
    pub fn answer(&mut self, k: u8, op: u64) -> Events
        requires { k < 16 }
        ensures { (p : PlanSeen) → out_of p self.new result ≡ record {
          next = machine.put_client (control_of p self.old) k (client_at (control_of p self.old).clients k).left
              jobs.NoJob;
          events = Ack op Done ∷ [];
        } }
    {
        self.settle(k, None);
        Events::One(ShortEvent::Done(op))
    }

    /// A read is answered with the sector that it gave.
    pub fn give(&mut self, k: u8, op: u64) -> Events
        requires { k < 16 }
        ensures { (p : PlanSeen) → out_of p self.new result ≡ record {
          next = machine.put_client (control_of p self.old) k (client_at (control_of p self.old).clients k).left
              jobs.NoJob;
          events = Ack op (Value (read_of self.old.clients k)) ∷ [];
        } }
    {
        self.settle(k, None);
        Events::Value(op, k)
    }

    /// The volume rests where no write is without an answer.
    pub fn quiet(&mut self, plan: &Plan) -> Events
        ensures { out_of plan.now self.new result
            ≡ machine.quieted (plan_setting plan.now) (control_of plan.now self.old) (state_of self.old.state) }
    {
        if self.state != State::Active || has_write(plan, &self.clients) {
            return Events::Zero;
        }
        self.state = State::Idle;
        Events::One(ShortEvent::Idle)
    }
}
