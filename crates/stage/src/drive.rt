//! Several turns in a row.
ghost use Rattle.std.specs.Prelude.{◌≡◌, None};
ghost use Rattle.member_bank.specs.Told.{Keeps};
ghost use Rattle.stage.specs.declared.ends.DriveEnd.TheVariants.{Over};
ghost use Rattle.stage.specs.Causes.{KeepsBank};
ghost use Rattle.stage.specs.Drives.{Follows, EndsBy, TurnEnds, Cycled, ClientsCycled, AllStill, went_after};
ghost use Rattle.stage.specs.Turns.{TurnMade, Drove};

use crate::ends::{Cycle, DriveEnd};
use crate::stage::Stage;
use crate::turned::Turned;
use array_model::Turn;
use member_bank::Bank;
use units::{CLIENTS, VolNo};

impl<B: Bank> Stage<B> {
    /// A turn of a script. The manager and a sync worker have nothing to do yet.
    fn turn(&mut self, turn: Turn) -> Turned
        ensures follows { Follows self.old self.new }
        ensures opening { Keeps (B.opening self.old.bank) (B.opening self.new.bank) }
        ensures bank { KeepsBank B.serials B.sizes B.log B.faults_of self.old self.new }
        ensures ends { TurnEnds self.new result }
        ensures made { TurnMade self.old self.new turn result }
    {
        match turn {
            Turn::Monitor => self.monitor_turn(),
            Turn::Client(k) => self.client_turn(k),
            Turn::Quiet(VolNo(0)) => self.quiet(),
            _ => Turned::Idle,
        }
    }

    /// Makes turns in their order, until the journal is full or a call fails.
    pub fn drive(&mut self, turns: &[Turn]) -> DriveEnd
        ensures follows { Follows self.old self.new }
        ensures opening { Keeps (B.opening self.old.bank) (B.opening self.new.bank) }
        ensures bank { KeepsBank B.serials B.sizes B.log B.faults_of self.old self.new }
        ensures ends { EndsBy self.new result }
        ensures drove { Drove self.old turns.now self.new result }
    {
        for turn in turns {
            match self.turn(*turn) {
                Turned::Moved | Turned::Idle => {}
                Turned::JournalFull => return DriveEnd::Full,
                Turned::Member(disk) => return DriveEnd::Member(disk),
            }
        }
        DriveEnd::Over
    }

    /// A turn of each client.
    fn clients_cycle(&mut self) -> Cycle
        requires { self.old.control.failed ≡ None }
        ensures follows { Follows self.old self.new }
        ensures opening { Keeps (B.opening self.old.bank) (B.opening self.new.bank) }
        ensures bank { KeepsBank B.serials B.sizes B.log B.faults_of self.old self.new }
        ensures cycled { ClientsCycled self.old self.new result }
    {
        let mut went = false;
        for k in 0..CLIENTS {
            match self.client_turn(k as u8) {
                Turned::Moved => went = true,
                Turned::Idle => {}
                Turned::JournalFull => return Cycle::Ends(DriveEnd::Full),
                Turned::Member(disk) => return Cycle::Ends(DriveEnd::Member(disk)),
            }
        }
        if went { Cycle::Went } else { Cycle::Rested }
    }

    /// A turn of the monitor and of each client.
    fn cycle(&mut self) -> Cycle
        ensures follows { Follows self.old self.new }
        ensures opening { Keeps (B.opening self.old.bank) (B.opening self.new.bank) }
        ensures bank { KeepsBank B.serials B.sizes B.log B.faults_of self.old self.new }
        ensures cycled { Cycled self.old self.new result }
    {
        match self.monitor_turn() {
            Turned::Moved => went_on(self.clients_cycle()),
            Turned::Idle => self.clients_cycle(),
            Turned::JournalFull => Cycle::Ends(DriveEnd::Full),
            Turned::Member(disk) => Cycle::Ends(DriveEnd::Member(disk)),
        }
    }

    /// Cycles of the monitor and of each client, and a quiet time where a whole cycle has nothing to do, until that too
    /// changes nothing.
    pub fn drain(&mut self) -> DriveEnd
        ensures follows { Follows self.old self.new }
        ensures opening { Keeps (B.opening self.old.bank) (B.opening self.new.bank) }
        ensures bank { KeepsBank B.serials B.sizes B.log B.faults_of self.old self.new }
        ensures ends { EndsBy self.new result }
        ensures over { result ≡ Over → AllStill self.new }
    {
        loop {
            match self.cycle() {
                Cycle::Went => {}
                Cycle::Ends(end) => return end,
                Cycle::Rested => match self.quiet() {
                    Turned::Moved => {}
                    Turned::Idle => return DriveEnd::Over,
                    Turned::JournalFull => return DriveEnd::Full,
                    Turned::Member(disk) => return DriveEnd::Member(disk),
                },
            }
        }
    }
}

/// A cycle in which something was done before.
fn went_on(cycle: Cycle) -> Cycle
    ensures { result ≡ went_after cycle }
{
    match cycle {
        Cycle::Rested | Cycle::Went => Cycle::Went,
        Cycle::Ends(end) => Cycle::Ends(end),
    }
}
