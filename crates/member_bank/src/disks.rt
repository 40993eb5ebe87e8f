//! Disks in memory.
ghost use Rattle.std.specs.Prelude.{◌≡◌, ◌+◌, ◌≤◌, ◌<◌, [], ◌∷◌, ◌++◌, length, Some, slice_get, slice_index_or, OnOk, OnErr};
ghost use Rattle.member_bank.specs.Contents.{contents_of, overwritten, overwritten_on};

use std::alloc::{AllocError, Global};
use std::marker::Model;
use units::{Sector, Serial};

/// A disk in memory: its serial, and its sectors from the first on.
#[derive(Debug, Drop)]
pub struct MemDisk {
    pub serial: Serial,
    pub sectors: Vec<Sector>,
}

/// What stands on several disks, by their numbers.
#[derive(Drop)]
pub struct Disks {
    disks: Vec<MemDisk>,
}

impl Model for Disks {
    ghost use Rattle.member_bank.specs.Contents.{Contents, contents_of};

    ghost Value = { Contents };

    ghost view = { λ c. contents_of c.disks.items };
}

/// Puts sectors onto a disk from a place on.
fn lay(disk: &mut [Sector], place: usize, from: &[Sector])
    requires { place + length from.now ≤ length disk.old }
    ensures { disk.new ≡ overwritten disk.old place from.now }
{
    disk[place..place + from.len()].copy_from_slice(from);
}

impl Disks {
    pub fn new(disks: Vec<MemDisk>) -> Disks
        ensures { result ≡ contents_of disks.items }
    {
        Disks { disks }
    }

    pub fn into_inner(self) -> Vec<MemDisk>
        ensures { contents_of result.items ≡ self }
    {
        self.disks
    }

    pub fn len(&self) -> usize
        ensures count { result ≡ length self.now.sectors }
        ensures named { length self.now.serials ≡ length self.now.sectors }
    {
        self.disks.len()
    }

    pub fn serial(&self, d: usize) -> Serial
        requires { d < length self.now.sectors }
        ensures { slice_get self.now.serials d ≡ Some result }
    {
        self.disks[d].serial
    }

    /// How many sectors a disk has.
    pub fn sectors(&self, d: usize) -> usize
        requires { d < length self.now.sectors }
        ensures { result ≡ length (slice_index_or self.now.sectors d []) }
    {
        self.disks[d].sectors.len()
    }

    pub fn get(&self, d: usize, place: usize) -> Sector
        requires disk { d < length self.now.sectors }
        requires place { place < length (slice_index_or self.now.sectors d []) }
        ensures { slice_get (slice_index_or self.now.sectors d []) place ≡ Some result }
    {
        let disk = &self.disks[d];
        disk.sectors[place]
    }

    /// Puts sectors onto a disk from a place on.
    pub fn put(&mut self, d: usize, place: usize, from: &[Sector])
        requires disk { d < length self.old.sectors }
        requires place { place + length from.now ≤ length (slice_index_or self.old.sectors d []) }
        ensures { self.new ≡ record self.old { sectors = overwritten_on self.old.sectors d place from.now } }
    {
        let disk = &mut self.disks[d];
        lay(&mut disk.sectors, place, from);
    }

    /// Adds a disk at the end. Without memory nothing changes.
    pub fn push(&mut self, disk: MemDisk) -> Result<(), AllocError>
        ensures ok { OnOk result (self.new ≡ record {
          serials = self.old.serials ++ disk.serial ∷ [];
          sectors = self.old.sectors ++ disk.sectors.items ∷ [];
        }) }
        ensures err { OnErr result (self.new ≡ self.old) }
    {
        self.disks.push(disk)?;
        Ok(())
    }
}
