//! A bank in memory on which no call fails.
ghost use Rattle.std.specs.Prelude.{◌≡◌, ◌≢◌, ◌+◌, ◌≤◌, ◌<◌, ℕ, [], true, Some, length, slice_get, slice_index, slice_index_or, is_ok, All, IsOk, IfOk, IfSome, OnOk, OnErr};
ghost use Rattle.std.specs.List.{AllPairs};
ghost use Rattle.device_log.specs.Log.{Read, Write, Sync};
ghost use Rattle.member_bank.specs.Told.{Keeps, Logs, LogsWrite, Gives};
ghost use Rattle.member_bank.specs.Faults.{HasCause};
ghost use Rattle.member_bank.specs.Contents.{contents_of, sizes_of, Shows};
ghost use Rattle.member_bank.specs.FailFree.{free_opened, free_with_disk, free_called, free_written};

use crate::disks::MemDisk;
use crate::history::LogRoom;
use crate::memory::{BankFault, MemBank};
use crate::{Bank, Failed};
use std::alloc::Global;
use std::marker::Model;
use units::{DiskNo, MAX_DISKS, Sector, Serial};

/// Disks in memory on which each call goes through, so no disk ever counts a fault.
#[derive(Drop)]
pub struct FailFree {
    bank: MemBank,
}

impl Model for FailFree {
    ghost use Rattle.std.specs.Prelude.{◌≡◌, []};
    ghost use Rattle.member_bank.specs.FailFree.{FreeState, free_of};

    ghost Value = { FreeState };

    ghost view = { λ b. free_of b.bank };

    ghost invariant = { λ b. b.bank.fails ≡ [] };
}

impl FailFree {
    /// A bank of these disks with an empty log, and with the memory for all the log that has room.
    pub fn new(alloc: Global, disks: Vec<MemDisk>, room: LogRoom) -> Result<FailFree, BankFault>
        requires few { length disks.items ≤ MAX_DISKS }
        requires distinct { AllPairs (λ a b. a ≢ b) (contents_of disks.items).serials }
        ensures { IfOk result (λ b. b ≡ free_opened disks.items room) }
    {
        let bank = MemBank::new(alloc, disks, Vec::new(alloc), room)?;
        Ok(FailFree { bank })
    }

    /// Adds a disk at the end, whatever was logged before. Without memory nothing changes.
    pub fn add(&mut self, alloc: Global, disk: MemDisk) -> Result<(), BankFault>
        requires few { length self.old.serials < MAX_DISKS }
        requires distinct { All (λ s. s ≢ disk.serial) self.old.serials }
        ensures ok { OnOk result (self.new ≡ free_with_disk self.old disk) }
        ensures err { OnErr result (self.new ≡ self.old) }
    {
        self.bank.add(alloc, disk)
    }

    /// The disks as they are now. Where the log is told, that is what it leaves of the opening contents.
    pub fn into_disks(self) -> Vec<MemDisk>
        ensures present { contents_of result.items ≡ record { serials = self.serials; sectors = self.present } }
        ensures told { IfSome self.log (λ log. Shows self.opening log (contents_of result.items).sectors) }
    {
        let FailFree { bank } = self;
        bank.into_disks()
    }
}

impl Bank for FailFree {
    ghost opening = { λ b. Some b.opening };

    ghost log = { λ b. b.log };

    ghost sizes = { λ b. sizes_of b.present };

    ghost serials = { λ b. b.serials };

    ghost faults_of = { λ b d. 0 };

    fn disks(&self) -> u8 {
        self.bank.disks()
    }

    fn serial(&self, d: DiskNo) -> Serial {
        self.bank.serial(d)
    }

    fn sectors(&self, d: DiskNo) -> u64 {
        self.bank.sectors(d)
    }

    fn faults(&self, _: DiskNo) -> u64 {
        0
    }

    fn read(&mut self, d: DiskNo, place: u64, into: &mut Sector) -> Result<(), Failed>
        requires disk { d.0 < length (sizes_of self.old.present) }
        requires place { place < slice_index (sizes_of self.old.present) d.0 }
        ensures went { IsOk result }
        ensures called { self.new ≡ free_called self.old (record { disk = d.0; what = Read place; went = true }) }
        ensures given { slice_get (slice_index_or self.old.present d.0 []) place ≡ Some into.new }
        ensures logs { Logs self.old.log self.new.log (record { disk = d.0; what = Read place; went = is_ok result }) }
        ensures opening { Keeps (Some self.old.opening) (Some self.new.opening) }
        ensures gives { OnOk result (Gives (Some self.new.opening) self.new.log d.0 place into.new) }
        ensures kept { OnErr result (into.new ≡ into.old) }
        ensures sizes { sizes_of self.new.present ≡ sizes_of self.old.present }
        ensures serials { self.new.serials ≡ self.old.serials }
        ensures cause { HasCause (λ k. 0) (λ k. 0) d.0 result }
    {
        self.bank.read(d, place, into)
    }

    fn write(&mut self, d: DiskNo, place: u64, from: &[Sector]) -> Result<(), Failed>
        requires disk { d.0 < length (sizes_of self.old.present) }
        requires place { place + length from.now ≤ slice_index (sizes_of self.old.present) d.0 }
        ensures went { IsOk result }
        ensures written { self.new ≡ free_written self.old d.0 place from.now }
        ensures logs { (stored : ℕ) × LogsWrite self.old.log self.new.log d.0 place from.now (is_ok result) stored }
        ensures opening { Keeps (Some self.old.opening) (Some self.new.opening) }
        ensures sizes { sizes_of self.new.present ≡ sizes_of self.old.present }
        ensures serials { self.new.serials ≡ self.old.serials }
        ensures cause { HasCause (λ k. 0) (λ k. 0) d.0 result }
    {
        self.bank.write(d, place, from)
    }

    fn sync(&mut self, d: DiskNo) -> Result<(), Failed>
        requires { d.0 < length (sizes_of self.old.present) }
        ensures went { IsOk result }
        ensures called { self.new ≡ free_called self.old (record { disk = d.0; what = Sync; went = true }) }
        ensures logs { Logs self.old.log self.new.log (record { disk = d.0; what = Sync; went = is_ok result }) }
        ensures opening { Keeps (Some self.old.opening) (Some self.new.opening) }
        ensures sizes { sizes_of self.new.present ≡ sizes_of self.old.present }
        ensures serials { self.new.serials ≡ self.old.serials }
        ensures cause { HasCause (λ k. 0) (λ k. 0) d.0 result }
    {
        self.bank.sync(d)
    }
}
