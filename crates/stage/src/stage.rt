//! A stage over a bank: each of its turns is one of the machine.
ghost use Rattle.std.specs.Prelude.{◌≡◌, ◌+◌, ◌<◌, ◌≤◌, IfOk, IfErr, ◌⊎◌, [], ◌∷◌, ◌++◌, ℕ, length, nat_lt, nat_le, ◌||◌, ◌^◌};
ghost use Rattle.units.specs.declared.disk.Sector.{Sector as SectorBytes};
ghost use Rattle.member_bank.specs.Told.{Keeps};
ghost use Rattle.array_model.specs.Renewal.{FitsGeneration};
ghost use Rattle.array_model.specs.Room.{BeginsWithRoom};
ghost use Rattle.stage_machine.specs.Rounds.{Ended};
ghost use Rattle.stage_machine.specs.Machine.{Monitors, Asks, Quiets, stamped};
ghost use Rattle.control_state.specs.Events.{event_of, listed};
ghost use Rattle.stage.specs.Stages.{Answered, setting_of};
ghost use Rattle.stage.specs.Ends.{answer_of};
ghost use Rattle.imsm_codec.specs.Mpb.{block_bytes};
ghost use Rattle.block_meaning.specs.Reading.{block_words};
ghost use Rattle.control_state.specs.Book.{IsBook, IsBlockOf};
ghost use Rattle.control_state.specs.Seen.{numbers};
ghost use Rattle.stage.specs.Runs.{Ran, RanTrue, FitsDisks, TellsOnlyReads};
ghost use Rattle.stage.specs.Opens.{given_by, IsOpened};
ghost use Rattle.stage.specs.Causes.{KeepsBank};

use crate::client::client_part;
use crate::monitor::monitor_part;
use crate::open::{Opening, StageFault, control_at, plan_of};
use crate::turned::Turned;
use array_model::{Answer, Entry, Event, Journal, Script};
use control_state::{Client, Control, Events, Plan, ShortEvent, read_of};
use member_bank::Bank;
use std::alloc::Global;
use std::marker::Model;
use units::{DiskNo, Sector};

/// As many calls a run makes at most. The number is this project's own.
pub const MAX_CALLS: u64 = 1 << 48;

/// A bank, and a run over it: the plan, the newest block's sector as it was read, where the run stands, how many device
/// calls it has made, and its journal.
#[derive(Drop)]
pub struct Stage<B: Bank> {
    bank: B,
    plan: Plan,
    newest: Sector,
    control: Control,
    calls: u64,
    journal: Journal,
}

impl<B: Bank> Model for Stage<B> {
    ghost use Rattle.control_state.specs.Book.{laid_at};
    ghost use Rattle.control_state.specs.Controls.{control_of};
    ghost use Rattle.stage.specs.Runs.{run_setting};
    ghost use Rattle.stage.specs.Stages.{Seen, IsStage, given_of};

    ghost Value = { Seen B };

    ghost view = { λ s. record {
      bank = s.bank;
      given = given_of s.plan (laid_at s.newest) (B.sizes s.bank);
      control = control_of s.plan s.control;
      calls = s.calls;
      journal = s.journal.entries;
      room = s.journal.room;
    } };

    ghost invariant = { λ s. IsStage (run_setting s.plan (laid_at s.newest) (B.sizes s.bank)) s.plan (B.sizes s.bank)
        (control_of s.plan s.control) s.calls s.journal.entries s.journal.room (B.opening s.bank) (B.log s.bank) };
}

/// Takes down an event.
fn push(journal: &mut Journal, stamp: u64, event: ShortEvent)
    requires { length journal.old.entries < journal.old.room }
    ensures { journal.new ≡ record journal.old {
      entries = journal.old.entries ++ record { stamp = stamp; event = event_of event } ∷ [];
    } }
{
    journal.push(Entry {
        stamp,
        event: event.event(),
    });
}

/// Takes down what a turn enters: a value that was read stands with its client.
fn enter(journal: &mut Journal, stamp: u64, events: Events, clients: &[Client])
    requires { length journal.old.entries + 2 ≤ journal.old.room }
    ensures { journal.new ≡ record journal.old {
      entries = journal.old.entries ++ stamped stamp (listed clients.now events);
    } }
{
    match events {
        Events::Zero => {}
        Events::One(event) => push(journal, stamp, event),
        Events::Two(event, other) => {
            push(journal, stamp, event);
            push(journal, stamp, other);
        }
        Events::Value(op, k) => journal.push(Entry {
            stamp,
            event: Event::Ack(op, Answer::Value(read_of(clients, k))),
        }),
    }
}

/// Whether there is no room for one more turn.
fn is_full(journal: &Journal, calls: u64) -> bool
    ensures { result ≡ (nat_lt journal.now.room (length journal.now.entries + 4) || nat_le (2 ^ 48) calls) }
{
    let room = journal.room() as usize;
    room < journal.len() || room - journal.len() < 4 || calls >= MAX_CALLS
}

/// How a turn that was made is answered.
fn answer(failed: Option<DiskNo>) -> Turned
    ensures { result ≡ answer_of failed }
{
    match failed {
        None => Turned::Moved,
        Some(disk) => Turned::Member(disk),
    }
}

impl<B: Bank> Stage<B> {
    /// A stage over a bank, with all the memory that its turns take. Without memory the bank comes back.
    pub fn open(
        alloc: Global,
        bank: B,
        opening: Opening<'_>,
        script: &Script,
        limit: u32,
    ) -> Result<Stage<B>, (B, StageFault)>
        requires book { IsBook (block_bytes opening.block) }
        requires newest { IsBlockOf opening.newest (block_bytes opening.block) }
        requires generation { block_words.generation opening.newest < 0xff000000 }
        requires limit { limit ≤ 2 ^ 20 }
        requires disks { FitsDisks (numbers opening.targets.items) (numbers opening.members.items)
            opening.pba opening.size (B.sizes bank) }
        requires reads { TellsOnlyReads (B.log bank) }
        ensures ok { IfOk result (λ s. IsOpened s bank (given_by opening.entry script.now (B.sizes bank)) limit) }
        ensures err { IfErr result (λ e. e.0 ≡ bank) }
    {
        let newest = opening.newest;
        let control = match control_at(alloc, &opening.block, newest) {
            Ok(control) => control,
            Err(fault) => return Err((bank, fault)),
        };
        let plan = match plan_of(alloc, opening, script) {
            Ok(plan) => plan,
            Err(fault) => return Err((bank, fault)),
        };
        let Ok(journal) = Journal::with_room(alloc, limit) else {
            return Err((bank, StageFault::Memory));
        };
        Ok(Stage {
            bank,
            plan,
            newest,
            control,
            calls: 0,
            journal,
        })
    }

    /// The monitor's turn.
    pub fn monitor_turn(&mut self) -> Turned
        ensures answered { (x : Ended) × Answered self.old self.new (Monitors x) result }
        ensures opening { Keeps (B.opening self.old.bank) (B.opening self.new.bank) }
        ensures bank { KeepsBank B.serials B.sizes B.log B.faults_of self.old self.new }
    {
        if let Some(disk) = self.control.failed {
            return Turned::Member(disk);
        }
        if self.control.monitor_is_still(&self.plan) {
            return Turned::Idle;
        }
        if is_full(&self.journal, self.calls) {
            return Turned::JournalFull;
        }
        let events = monitor_part(
            &mut self.bank,
            &mut self.control,
            &self.plan,
            &mut self.calls,
        );
        enter(&mut self.journal, self.calls, events, &self.control.clients);
        answer(self.control.failed)
    }

    /// Passes over the operations of others that stand before a client's next one.
    fn pass_over(&mut self, k: u8)
        ensures { self.new ≡ self.old }
    {
        self.control.pass_over(&self.plan, k);
    }

    /// A client's turn.
    pub fn client_turn(&mut self, k: u8) -> Turned
        ensures answered { (x : Ended) × (got : SectorBytes) × Answered self.old self.new (Asks k x got) result }
        ensures opening { Keeps (B.opening self.old.bank) (B.opening self.new.bank) }
        ensures bank { KeepsBank B.serials B.sizes B.log B.faults_of self.old self.new }
    {
        self.pass_over(k);
        self.client_acts(k)
    }

    /// What a client does in its turn.
    fn client_acts(&mut self, k: u8) -> Turned
        ensures answered { (x : Ended) × (got : SectorBytes) × Answered self.old self.new (Asks k x got) result }
        ensures opening { Keeps (B.opening self.old.bank) (B.opening self.new.bank) }
        ensures bank { KeepsBank B.serials B.sizes B.log B.faults_of self.old self.new }
    {
        if let Some(disk) = self.control.failed {
            return Turned::Member(disk);
        }
        if self.control.client_is_still(&self.plan, k) {
            return Turned::Idle;
        }
        if is_full(&self.journal, self.calls) {
            return Turned::JournalFull;
        }
        let events = client_part(
            &mut self.bank,
            &mut self.control,
            &self.plan,
            &mut self.calls,
            k,
        );
        enter(&mut self.journal, self.calls, events, &self.control.clients);
        answer(self.control.failed)
    }

    /// The volume rests, where no write is without an answer.
    pub fn quiet(&mut self) -> Turned
        ensures answered { Answered self.old self.new Quiets result }
        ensures opening { Keeps (B.opening self.old.bank) (B.opening self.new.bank) }
        ensures bank { KeepsBank B.serials B.sizes B.log B.faults_of self.old self.new }
    {
        if let Some(disk) = self.control.failed {
            return Turned::Member(disk);
        }
        if self.control.quiet_is_still(&self.plan) {
            return Turned::Idle;
        }
        if is_full(&self.journal, self.calls) {
            return Turned::JournalFull;
        }
        let events = self.control.quiet(&self.plan);
        enter(&mut self.journal, self.calls, events, &self.control.clients);
        answer(self.control.failed)
    }

    /// The bank and the journal, to which a run of the machine has led, in which each read gave what stood there. Its
    /// generations fit their four bytes. Each turn that entered something began with room for four entries.
    pub fn close(self) -> (B, Journal)
        ensures bank { (result.0 ≡ self.bank) × (result.1.entries ≡ self.journal) }
        ensures ran { Ran (setting_of self.given) self.control self.calls self.journal (B.log self.bank) }
        ensures honest { RanTrue (setting_of self.given) self.control self.calls self.journal
            (B.opening self.bank) (B.log self.bank) }
        ensures fits { FitsGeneration self.control.round.note }
        ensures room { BeginsWithRoom self.room self.journal }
    {
        let Stage { bank, journal, .. } = self;
        (bank, journal)
    }
}
