//! Rounds: new metadata goes to each target, first its anchor and then a sync.
ghost use Rattle.std.specs.Prelude.{◌≡◌, ◌+◌, ◌^◌, ◌<◌, drop, slice_get, IfSome};
ghost use Rattle.units.specs.declared.bounds.TheConstants.{MAX_DISKS};
ghost use Rattle.stage_machine.specs.Rounds as machine;
ghost use Rattle.control_state.specs.Seen.{numbers, plan_setting};
ghost use Rattle.control_state.specs.Book.{laid_at};
ghost use Rattle.control_state.specs.Rounds.{round_of, ask_of, next_ask, gone, begun, ended};

use crate::book::Book;
use crate::plan::Plan;
use std::mem;
use units::DiskNo;

/// What a round asks of a target next.
#[derive(Clone, Copy, Debug, PartialEq, Eq)]
pub enum Step {
    Anchor,
    Sync,
}

/// No round, or one that has this step next at the target of this place.
#[derive(Clone, Copy, Debug, PartialEq, Eq)]
pub enum Phase {
    Rest,
    Going(Step, u8),
}

/// A call that a round makes.
#[derive(Clone, Copy, Debug, PartialEq, Eq)]
pub struct Ask {
    pub disk: DiskNo,
    pub step: Step,
}

/// The book, which is the block of the last finished round too; the block of the round that is going on; the highest
/// generation begun; whether a round has ended.
#[derive(Drop)]
pub struct Round {
    pub book: Book,
    pub next: Book,
    pub note: u32,
    pub started: bool,
    pub phase: Phase,
}

fn target_at(plan: &Plan, at: u8) -> Option<DiskNo>
    ensures target { result ≡ slice_get plan.now.targets.items at }
    ensures below { IfSome result (λ d. at < MAX_DISKS) }
{
    plan.targets.as_slice().get(at as usize).copied()
}

impl Round {
    /// The call that the round makes next.
    pub fn ask(&self, plan: &Plan) -> Option<Ask>
        ensures { ask_of result ≡ next_ask (round_of plan.now self.now).phase }
    {
        match self.phase {
            Phase::Rest => None,
            Phase::Going(step, at) => match target_at(plan, at) {
                Some(disk) => Some(Ask { disk, step }),
                None => None,
            },
        }
    }

    /// A round begins where there is a target: its generation.
    pub fn begin(&mut self, plan: &Plan, dirty: bool) -> Option<u32>
        requires { self.old.note + 1 < 2 ^ 32 }
        ensures { begun plan.now self.new result
            ≡ machine.begin (plan_setting plan.now) (round_of plan.now self.old) dirty }
    {
        match target_at(plan, 0) {
            None => None,
            Some(_) => {
                self.note += 1;
                self.next.renew(&self.book, self.note, dirty);
                self.phase = Phase::Going(Step::Anchor, 0);
                Some(self.note)
            }
        }
    }

    /// The targets before a place are done: the next one, or the round's end with its generation.
    fn to_next(&mut self, plan: &Plan, at: u8) -> Option<u32>
        ensures { ended plan.now self.new result
            ≡ machine.to_next (plan_setting plan.now) (round_of plan.now self.old) (laid_at self.old.next.anchor)
            (drop at (numbers plan.now.targets.items)) }
    {
        if (at as usize) < plan.targets.len() {
            self.phase = Phase::Going(Step::Anchor, at);
            return None;
        }
        mem::swap(&mut self.book, &mut self.next);
        self.started = true;
        self.phase = Phase::Rest;
        Some(self.book.generation())
    }

    /// The round's call went through: the generation, where the round ends.
    pub fn went(&mut self, plan: &Plan) -> Option<u32>
        ensures { ended plan.now self.new result
            ≡ gone (plan_setting plan.now) (round_of plan.now self.old) (round_of plan.now self.old).phase }
    {
        match self.phase {
            Phase::Rest => None,
            Phase::Going(step, at) => match target_at(plan, at) {
                None => None,
                Some(_) => match step {
                    Step::Anchor => {
                        self.phase = Phase::Going(Step::Sync, at);
                        None
                    }
                    Step::Sync => self.to_next(plan, at + 1),
                },
            },
        }
    }
}
