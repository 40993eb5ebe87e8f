//! What a run tells: events, stamped by how many device calls were made before them.
ghost use Rattle.std.specs.Prelude.{◌≡◌, ◌<◌, [], ◌∷◌, ◌++◌, length, IfOk};
ghost use Rattle.std.specs.List.{AllByRecursion};
ghost use Rattle.array_model.specs.Fits.{FitsEntry};

use std::alloc::Global;
use std::marker::Model;
use thiserror::Error;
use units::{DiskNo, Sector, VolNo};

/// How an operation was answered.
#[derive(Clone, Copy, Debug, PartialEq, Eq)]
pub enum Answer {
    Done,
    Value(Sector),
    Past,
    Failed,
    NoSpare,
}

/// Why an update was declined.
#[derive(Clone, Copy, Debug, PartialEq, Eq)]
pub enum DeclinedKind {
    Stale,
    NotSpare,
    Full,
    Large,
    NoVolume,
    Name,
    NoDisk,
    Member,
    Small,
    NotFailed,
    InUse,
}

/// What happened. A round writes new metadata to each member: `Begin` and `End` name its generation. `Pass` names a
/// volume and the row that its resync begins at, `Point` a volume and the unit of 128 rows up to which it is recorded.
/// `Submit` and `Ack` name an operation by its number, and `Posted`, `Applied` and `Declined` an update.
#[derive(Clone, Copy, Debug, PartialEq, Eq)]
pub enum Event {
    Begin(u32),
    End(u32),
    Spare(DiskNo),
    Ready(VolNo),
    Pass(VolNo, u64),
    Point(VolNo, u64),
    PassEnd(VolNo),
    Active(VolNo),
    Clean(VolNo),
    Unblock(DiskNo),
    Posted(u64),
    Applied(u64),
    Declined(u64, DeclinedKind),
    Submit(u64),
    Pending(VolNo),
    Ack(u64, Answer),
    Idle(VolNo),
    Fault(DiskNo),
    Kill,
    Takeover,
}

/// One line of the journal. The stamp is the number of device calls made since the run was opened.
#[derive(Clone, Copy, Debug, PartialEq, Eq)]
pub struct Entry {
    pub stamp: u64,
    pub event: Event,
}

/// Why a journal wasn't made.
#[derive(Clone, Copy, Debug, PartialEq, Eq, Error)]
pub enum JournalFault {
    #[error("out of memory")]
    Memory,
}

/// The entries of a run, oldest first. All the memory that it will ever take is taken at the start.
#[derive(Drop)]
pub struct Journal {
    entries: Vec<Entry>,
    room: u32,
}

impl Model for Journal {
    ghost use Rattle.std.specs.Prelude.{◌≤◌, vec_capacity, vec_len};
    ghost use Rattle.std.specs.List.{AllByRecursion};
    ghost use Rattle.array_model.specs.Fits.{FitsEntry};
    ghost use Rattle.array_model.specs.Kept.{JournalState};

    ghost Value = { JournalState };

    ghost view = { λ j. record { entries = j.entries.items; room = j.room } };

    ghost invariant = { λ j.
        (vec_len j.entries ≤ j.room) × (j.room ≤ vec_capacity j.entries) × AllByRecursion FitsEntry j.entries.items };
}

impl Journal {
    /// An empty journal with room for so many entries.
    pub fn with_room(alloc: Global, limit: u32) -> Result<Journal, JournalFault>
        ensures { IfOk result (λ j. j ≡ record { entries = []; room = limit }) }
    {
        let entries = Vec::with_capacity(alloc, limit as usize).map_err(|_| JournalFault::Memory)?;
        Ok(Journal {
            entries,
            room: limit,
        })
    }

    /// The entries so far. Their numbers are of their types, and their sectors are whole.
    pub fn entries(&self) -> &[Entry]
        ensures all { result.now ≡ self.now.entries }
        ensures fits { AllByRecursion FitsEntry result.now }
    {
        &self.entries
    }

    /// How many entries there are.
    pub fn len(&self) -> usize
        ensures { result ≡ length self.now.entries }
    {
        self.entries.len()
    }

    /// How many entries there can be.
    pub fn room(&self) -> u32
        ensures { result ≡ self.now.room }
    {
        self.room
    }

    /// Takes down one more entry, without memory.
    pub fn push(&mut self, entry: Entry)
        requires { length self.old.entries < self.old.room }
        ensures { self.new ≡ record self.old { entries = self.old.entries ++ entry ∷ [] } }
    {
        self.entries.push_reserved(entry);
    }
}
