//! A log of device calls, in room that was taken at the start.
ghost use Rattle.std.specs.Prelude.{◌≡◌, ◌+◌, ◌≤◌, ◌&&◌, nat_lt, nat_le, [], Some, length, IfOk};
ghost use Rattle.member_bank.specs.History.{call_of, count_of, log_with};

use std::alloc::{AllocError, Global};
use std::marker::Model;
use units::Sector;

/// The room of a log: how many calls it takes, and how many sectors their writes have together.
#[derive(Clone, Copy, Debug, PartialEq, Eq)]
pub struct LogRoom {
    pub calls: u64,
    pub sectors: u64,
}

/// What was asked of a disk. The sectors of a write stand in the log's list of all of them.
#[derive(Clone, Copy, Debug, PartialEq, Eq)]
pub enum NotedCall {
    Read(u64),
    Write {
        place: u64,
        count: usize,
        stored: usize,
    },
    Sync,
}

/// One call, and whether it went through.
#[derive(Clone, Copy, Debug, PartialEq, Eq)]
pub struct Note {
    pub disk: u8,
    pub asked: NotedCall,
    pub went: bool,
}

/// The calls so far, told as long as they have room.
#[derive(Drop)]
pub struct History {
    notes: Vec<Note>,
    written: Vec<Sector>,
    room: LogRoom,
    is_told: bool,
}

impl Model for History {
    ghost use Rattle.std.specs.Prelude.{Some, None, ◌≡◌, ◌≤◌, if◌then◌else◌, vec_len, vec_capacity, length};
    ghost use Rattle.member_bank.specs.History.{LogState, log_of, count_all};

    ghost Value = { LogState };

    ghost view = { λ h. record {
      log = if h.is_told then Some (log_of h.notes.items h.written.items) else None;
      room = h.room;
    } };

    ghost invariant = { λ h. (length h.notes.items ≤ h.room.calls) × (h.room.calls ≤ vec_capacity h.notes)
        × (length h.written.items ≤ h.room.sectors) × (h.room.sectors ≤ vec_capacity h.written)
        × (count_all h.notes.items ≡ length h.written.items) };
}

/// Whether one more call has room after so many, and its sectors after so many.
fn fits(room: LogRoom, calls: usize, written: usize, more: usize) -> bool
    requires { written ≤ room.sectors }
    ensures { result ≡ (nat_lt calls room.calls && nat_le (written + more) room.sectors) }
{
    (calls as u64) < room.calls && more as u64 <= room.sectors - written as u64
}

impl History {
    /// An empty log with all the memory that it will ever take.
    pub fn new(alloc: Global, room: LogRoom) -> Result<History, AllocError>
        ensures { IfOk result (λ h. h ≡ record { log = Some []; room = room }) }
    {
        Ok(History {
            notes: Vec::with_capacity(alloc, room.calls as usize)?,
            written: Vec::with_capacity(alloc, room.sectors as usize)?,
            room,
            is_told: true,
        })
    }

    /// Takes down a call. Past the room nothing is told any more.
    pub fn note(&mut self, note: Note, sectors: &[Sector])
        requires { count_of note.asked ≡ length sectors.now }
        ensures { self.new ≡ record self.old { log = log_with self.old.room self.old.log (call_of note sectors.now) } }
    {
        if !self.is_told {
            return;
        }
        self.is_told = fits(
            self.room,
            self.notes.len(),
            self.written.len(),
            sectors.len(),
        );
        if self.is_told {
            self.notes.push_reserved(note);
            self.written.extend_from_slice(sectors).unwrap();
        }
    }
}
