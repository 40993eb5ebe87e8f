//! A bank in memory, which tells its contents, and its log as far as the room for it goes.
ghost use Rattle.std.specs.Prelude.{◌≡◌, ◌≢◌, ◌+◌, ◌≤◌, ◌<◌, ℕ, [], Some, length, slice_get, slice_index, slice_index_or, is_ok, is_none, All, IfOk, IfSome, OnOk, OnErr};
ghost use Rattle.std.specs.List.{AllPairs};
ghost use Rattle.device_log.specs.Log.{Read, Write, Sync};
ghost use Rattle.member_bank.specs.Told.{Keeps, Logs, LogsWrite, Gives};
ghost use Rattle.member_bank.specs.Faults.{HasCause};
ghost use Rattle.member_bank.specs.Contents.{contents_of, sectors_of, sizes_of, Shows};
ghost use Rattle.member_bank.specs.History.{what_of, count_of};
ghost use Rattle.member_bank.specs.Memory.{opened, with_disk, called, kept_at as kept_of, kept_next, stored_of, written};

use crate::counts::{answer, next};
use crate::disks::{Disks, MemDisk};
use crate::history::{History, LogRoom, Note, NotedCall};
use crate::{Bank, Failed};
use std::alloc::{AllocError, Global};
use std::marker::Model;
use thiserror::Error;
use units::{DiskNo, MAX_DISKS, Sector, Serial};

/// A device call that is to fail, by its number, which counts from 1. A write stores its first `kept` sectors all the
/// same, or all where it has fewer.
#[derive(Clone, Copy, Debug, PartialEq, Eq)]
pub struct FailAt {
    pub call: u64,
    pub kept: u8,
}

/// Why a bank in memory couldn't be made.
#[derive(Clone, Copy, Debug, PartialEq, Eq, Error)]
pub enum BankFault {
    #[error("not enough memory")]
    Memory,
}

impl From<AllocError> for BankFault {
    fn from(_: AllocError) -> BankFault {
        BankFault::Memory
    }
}

/// Disks in memory. Each call fails exactly where the fail list says so.
#[derive(Drop)]
pub struct MemBank {
    opening: Vec<Vec<Sector>>,
    present: Disks,
    faults: Vec<u64>,
    history: History,
    fails: Vec<FailAt>,
    calls: u64,
}

impl Model for MemBank {
    ghost use Rattle.member_bank.specs.Contents.{sectors_of};
    ghost use Rattle.member_bank.specs.Memory.{MemState, IsMemory};

    ghost Value = { MemState };

    ghost view = { λ b. record {
      serials = b.present.serials;
      opening = sectors_of b.opening.items;
      present = b.present.sectors;
      faults = b.faults.items;
      log = b.history.log;
      fails = b.fails.items;
      calls = b.calls;
      room = b.history.room;
    } };

    ghost invariant = { λ b. IsMemory b.present.serials (sectors_of b.opening.items) b.present.sectors
        b.faults.items b.history.log };
}

/// The sectors of each disk.
fn copied(alloc: Global, disks: &[MemDisk]) -> Result<Vec<Vec<Sector>>, AllocError>
    ensures { IfOk result (λ v. sectors_of v.items ≡ (contents_of disks.now).sectors) }
{
    let mut copies = Vec::new(alloc);
    for disk in disks {
        copies.push(disk.sectors.to_vec(alloc)?)?;
    }
    Ok(copies)
}

/// What the fail list says of a call: how many sectors of a write are kept.
fn kept_at(fails: &[FailAt], call: u64) -> Option<u8>
    ensures { result ≡ kept_of fails.now call }
{
    fails.iter().find(|f| f.call == call).map(|f| f.kept)
}

/// How many sectors of a write are stored.
fn stored(kept: Option<u8>, count: usize) -> usize
    ensures stored { result ≡ stored_of kept count }
    ensures few { result ≤ count }
{
    match kept {
        Some(kept) => (kept as usize).min(count),
        None => count,
    }
}

impl MemBank {
    /// A bank of these disks with an empty log, and with the memory for all the log that has room. Of several entries
    /// of the fail list for one call the first counts.
    pub fn new(
        alloc: Global,
        disks: Vec<MemDisk>,
        fails: Vec<FailAt>,
        room: LogRoom,
    ) -> Result<MemBank, BankFault>
        requires few { length disks.items ≤ MAX_DISKS }
        requires distinct { AllPairs (λ a b. a ≢ b) (contents_of disks.items).serials }
        ensures { IfOk result (λ b. b ≡ opened disks.items fails.items room) }
    {
        let opening = copied(alloc, &disks)?;
        let faults = vec![in alloc; 0u64; disks.len()]?;
        let history = History::new(alloc, room)?;
        Ok(MemBank {
            opening,
            present: Disks::new(disks),
            faults,
            history,
            fails,
            calls: 0,
        })
    }

    /// Adds a disk at the end, on which no call has failed, whatever was logged before. Without memory nothing changes.
    pub fn add(&mut self, alloc: Global, disk: MemDisk) -> Result<(), BankFault>
        requires few { length self.old.serials < MAX_DISKS }
        requires distinct { All (λ s. s ≢ disk.serial) self.old.serials }
        ensures ok { OnOk result (self.new ≡ with_disk self.old disk) }
        ensures counted { OnOk result (length self.old.faults ≡ length self.old.serials) }
        ensures err { OnErr result (self.new ≡ self.old) }
    {
        let sectors = disk.sectors.to_vec(alloc)?;
        self.opening.reserve(1)?;
        self.faults.reserve(1)?;
        self.present.push(disk)?;
        self.opening.push_reserved(sectors);
        self.faults.push_reserved(0);
        Ok(())
    }

    /// The disks as they are now. Where the log is told, that is what it leaves of the opening contents.
    pub fn into_disks(self) -> Vec<MemDisk>
        ensures present { contents_of result.items ≡ record { serials = self.serials; sectors = self.present } }
        ensures told { IfSome self.log (λ log. Shows self.opening log (contents_of result.items).sectors) }
    {
        let MemBank { present, .. } = self;
        present.into_inner()
    }

    /// Makes a call that changes no contents.
    fn ask(&mut self, d: DiskNo, asked: NotedCall) -> Result<(), Failed>
        requires disk { d.0 < length self.old.present }
        requires no_sectors { count_of asked ≡ 0 }
        ensures answer { is_ok result ≡ is_none (kept_next self.old) }
        ensures called { self.new ≡ called self.old (record {
          disk = d.0;
          what = what_of asked [];
          went = is_ok result;
        }) }
        ensures cause { HasCause (λ k. slice_index self.old.faults k) (λ k. slice_index self.new.faults k) d.0 result }
    {
        self.calls = next(self.calls);
        let went = kept_at(&self.fails, self.calls).is_none();
        let note = Note {
            disk: d.0,
            asked,
            went,
        };
        self.history.note(note, &[]);
        answer(&mut self.faults, d, went)
    }

    /// Makes a write.
    fn store(&mut self, d: DiskNo, place: u64, from: &[Sector]) -> Result<(), Failed>
        requires disk { d.0 < length self.old.present }
        requires place { place + length from.now ≤ length (slice_index_or self.old.present d.0 []) }
        ensures answer { is_ok result ≡ is_none (kept_next self.old) }
        ensures written { self.new ≡ written self.old d.0 place from.now (is_ok result) }
        ensures cause { HasCause (λ k. slice_index self.old.faults k) (λ k. slice_index self.new.faults k) d.0 result }
    {
        self.calls = next(self.calls);
        let kept = kept_at(&self.fails, self.calls);
        let stored = stored(kept, from.len());
        let went = kept.is_none();
        let asked = NotedCall::Write {
            place,
            count: from.len(),
            stored,
        };
        let note = Note {
            disk: d.0,
            asked,
            went,
        };
        self.history.note(note, from);
        self.present
            .put(d.0 as usize, place as usize, &from[..stored]);
        answer(&mut self.faults, d, went)
    }
}

impl Bank for MemBank {
    ghost opening = { λ b. Some b.opening };

    ghost log = { λ b. b.log };

    ghost sizes = { λ b. sizes_of b.present };

    ghost serials = { λ b. b.serials };

    ghost faults_of = { λ b d. slice_index b.faults d };

    fn disks(&self) -> u8 {
        self.present.len() as u8
    }

    fn serial(&self, d: DiskNo) -> Serial {
        self.present.serial(d.0 as usize)
    }

    fn sectors(&self, d: DiskNo) -> u64 {
        self.present.sectors(d.0 as usize) as u64
    }

    fn faults(&self, d: DiskNo) -> u64 {
        self.faults[d.0 as usize]
    }

    fn read(&mut self, d: DiskNo, place: u64, into: &mut Sector) -> Result<(), Failed>
        requires disk { d.0 < length (sizes_of self.old.present) }
        requires place { place < slice_index (sizes_of self.old.present) d.0 }
        ensures answer { is_ok result ≡ is_none (kept_next self.old) }
        ensures called { self.new ≡ called self.old (record { disk = d.0; what = Read place; went = is_ok result }) }
        ensures given { OnOk result (slice_get (slice_index_or self.old.present d.0 []) place ≡ Some into.new) }
        ensures logs { Logs self.old.log self.new.log (record { disk = d.0; what = Read place; went = is_ok result }) }
        ensures opening { Keeps (Some self.old.opening) (Some self.new.opening) }
        ensures gives { OnOk result (Gives (Some self.new.opening) self.new.log d.0 place into.new) }
        ensures kept { OnErr result (into.new ≡ into.old) }
        ensures sizes { sizes_of self.new.present ≡ sizes_of self.old.present }
        ensures serials { self.new.serials ≡ self.old.serials }
        ensures cause { HasCause (λ k. slice_index self.old.faults k) (λ k. slice_index self.new.faults k) d.0 result }
    {
        self.ask(d, NotedCall::Read(place))?;
        *into = self.present.get(d.0 as usize, place as usize);
        Ok(())
    }

    fn write(&mut self, d: DiskNo, place: u64, from: &[Sector]) -> Result<(), Failed>
        requires disk { d.0 < length (sizes_of self.old.present) }
        requires place { place + length from.now ≤ slice_index (sizes_of self.old.present) d.0 }
        ensures answer { is_ok result ≡ is_none (kept_next self.old) }
        ensures written { self.new ≡ written self.old d.0 place from.now (is_ok result) }
        ensures logs { (stored : ℕ) × LogsWrite self.old.log self.new.log d.0 place from.now (is_ok result) stored }
        ensures opening { Keeps (Some self.old.opening) (Some self.new.opening) }
        ensures sizes { sizes_of self.new.present ≡ sizes_of self.old.present }
        ensures serials { self.new.serials ≡ self.old.serials }
        ensures cause { HasCause (λ k. slice_index self.old.faults k) (λ k. slice_index self.new.faults k) d.0 result }
    {
        self.store(d, place, from)
    }

    fn sync(&mut self, d: DiskNo) -> Result<(), Failed>
        requires { d.0 < length (sizes_of self.old.present) }
        ensures answer { is_ok result ≡ is_none (kept_next self.old) }
        ensures called { self.new ≡ called self.old (record { disk = d.0; what = Sync; went = is_ok result }) }
        ensures logs { Logs self.old.log self.new.log (record { disk = d.0; what = Sync; went = is_ok result }) }
        ensures opening { Keeps (Some self.old.opening) (Some self.new.opening) }
        ensures sizes { sizes_of self.new.present ≡ sizes_of self.old.present }
        ensures serials { self.new.serials ≡ self.old.serials }
        ensures cause { HasCause (λ k. slice_index self.old.faults k) (λ k. slice_index self.new.faults k) d.0 result }
    {
        self.ask(d, NotedCall::Sync)
    }
}
