//! The outside in memory, with calls that fail by number.
ghost use Rattle.std.specs.Prelude.{◌≡◌, ◌+◌, ◌-◌, ◌<◌, ◌≤◌, [], Some, Ok, Err, length, take, drop, min, if◌then◌else◌, is_ok, not, IfOk, OnOk, OnErr};
ghost use Rattle.member_bank.specs.Faults.{Rose};
ghost use Rattle.member_bank.specs.Told.{Keeps};
ghost use Rattle.image_outside.specs.Outside.{Adds, Takes, IsAtEnd};
ghost use Rattle.image_outside.specs.Memory.{fails_next, read_by, unread, is_refused, written_to, refused_by};

use crate::{Sink, Source};
use member_bank::Failed;
use std::alloc::Global;
use std::marker::Model;
use thiserror::Error;

/// Why the outside in memory wasn't made.
#[derive(Clone, Copy, Debug, PartialEq, Eq, Error)]
pub enum MemFault {
    #[error("out of memory")]
    Memory,
}

/// A source over bytes in memory.
#[derive(Drop)]
pub struct MemSource {
    bytes: Vec<u8>,
    fails: Vec<u64>,
    at: usize,
    calls: u64,
    faults: u64,
}

impl Model for MemSource {
    ghost use Rattle.std.specs.Prelude.{◌≤◌, drop, vec_len};
    ghost use Rattle.image_outside.specs.Memory.{SourceState};

    ghost Value = { SourceState };

    ghost view = { λ s. record {
      left = drop s.at s.bytes.items;
      fails = s.fails.items;
      calls = s.calls;
      faults = s.faults;
    } };

    ghost invariant = { λ s. s.at ≤ vec_len s.bytes };
}

impl MemSource {
    /// A source of these bytes. The reads of these numbers, counted from 1, fail.
    pub fn new(bytes: Vec<u8>, fails: Vec<u64>) -> MemSource
        ensures { result ≡ record { left = bytes.items; fails = fails.items; calls = 0; faults = 0 } }
    {
        MemSource {
            bytes,
            fails,
            at: 0,
            calls: 0,
            faults: 0,
        }
    }
}

/// Copies as many first bytes to the front of a piece as fit, and answers how many.
fn move_front(from: &[u8], into: &mut [u8]) -> usize
    ensures count { result ≡ min (length from.now) (length into.old) }
    ensures moved { take result into.new ≡ take result from.now }
    ensures rest { drop result into.new ≡ drop result into.old }
{
    let count = from.len().min(into.len());
    into[..count].copy_from_slice(&from[..count]);
    count
}

impl Source for MemSource {
    ghost left = { λ s. Some s.left };

    ghost faults_of = { λ s. s.faults };

    fn read(&mut self, into: &mut [u8]) -> Result<usize, Failed>
        ensures count { IfOk result (λ n. n ≤ length into.old) }
        ensures moved { IfOk result (λ n. Takes (Some self.old.left) (Some self.new.left) (take n into.new)) }
        ensures rest { IfOk result (λ n. drop n into.new ≡ drop n into.old) }
        ensures end { IfOk result (λ n. n ≡ 0 → 0 < length into.old → IsAtEnd (Some self.old.left)) }
        ensures refused { OnErr result (Keeps (Some self.old.left) (Some self.new.left)) }
        ensures piece { OnErr result (into.new ≡ into.old) }
        ensures later { self.old.faults ≤ self.new.faults }
        ensures failed { OnErr result (Rose self.old.faults self.new.faults) }

        ensures outcome { is_ok result ≡ not (fails_next self.old) }
        ensures ok { OnOk result (self.new ≡ read_by self.old (length into.old)) }
        ensures err { OnErr result (self.new ≡ unread self.old) }
    {
        self.calls = self.calls.saturating_add(1);
        if self.fails.contains(&self.calls) {
            self.faults = self.faults.saturating_add(1);
            return Err(Failed);
        }
        let count = move_front(&self.bytes[self.at..], into);
        self.at += count;
        Ok(count)
    }

    fn faults(&self) -> u64 {
        self.faults
    }
}

/// A sink over bytes in memory. Room for all of them is taken at the start.
#[derive(Drop)]
pub struct MemSink {
    bytes: Vec<u8>,
    fails: Vec<u64>,
    calls: u64,
    faults: u64,
    room: usize,
}

impl Model for MemSink {
    ghost use Rattle.std.specs.Prelude.{◌≤◌, vec_capacity, vec_len};
    ghost use Rattle.image_outside.specs.Memory.{SinkState};

    ghost Value = { SinkState };

    ghost view = { λ s. record {
      written = s.bytes.items;
      fails = s.fails.items;
      calls = s.calls;
      faults = s.faults;
      room = s.room;
    } };

    ghost invariant = { λ s. (vec_len s.bytes ≤ s.room) × (s.room ≤ vec_capacity s.bytes) };
}

impl MemSink {
    /// A sink with room for so many bytes. The writes of these numbers, counted from 1, fail.
    pub fn new(alloc: Global, fails: Vec<u64>, room: u64) -> Result<MemSink, MemFault>
        ensures { IfOk result (λ s. s ≡ record {
          written = [];
          fails = fails.items;
          calls = 0;
          faults = 0;
          room = room;
        }) }
    {
        let room = room as usize;
        let bytes = Vec::with_capacity(alloc, room).map_err(|_| MemFault::Memory)?;
        Ok(MemSink {
            bytes,
            fails,
            calls: 0,
            faults: 0,
            room,
        })
    }

    /// The bytes written so far.
    pub fn written(&self) -> &[u8]
        ensures { result.now ≡ self.now.written }
    {
        &self.bytes
    }
}

impl Sink for MemSink {
    ghost written = { λ s. Some s.written };

    ghost faults_of = { λ s. s.faults };

    fn write(&mut self, from: &[u8]) -> Result<usize, Failed>
        ensures count { IfOk result (λ n. n ≤ length from.now) }
        ensures some { IfOk result (λ n. 0 < length from.now → 0 < n) }
        ensures taken { IfOk result (λ n. Adds (Some self.old.written) (Some self.new.written) (take n from.now)) }
        ensures refused { OnErr result (Keeps (Some self.old.written) (Some self.new.written)) }
        ensures later { self.old.faults ≤ self.new.faults }
        ensures failed { OnErr result (Rose self.old.faults self.new.faults) }

        ensures outcome { is_ok result ≡ not (is_refused self.old (length from.now)) }
        ensures ok { OnOk result (self.new ≡ written_to self.old from.now) }
        ensures err { OnErr result (self.new ≡ refused_by self.old) }
    {
        self.calls = self.calls.saturating_add(1);
        let left = self.room - self.bytes.len();
        if self.fails.contains(&self.calls) || (!from.is_empty() && left == 0) {
            self.faults = self.faults.saturating_add(1);
            return Err(Failed);
        }
        let count = left.min(from.len());
        self.bytes.extend_from_slice(&from[..count]).unwrap();
        Ok(count)
    }

    fn faults(&self) -> u64 {
        self.faults
    }
}
