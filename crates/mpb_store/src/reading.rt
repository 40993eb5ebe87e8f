//! How a metadata block is read off a disk.
ghost use Rattle.std.specs.Prelude.{◌≡◌, ◌≢◌, ◌++◌, ◌≤◌, ◌↔◌, [], true, false, MatchOption, IfSome, length};
ghost use Rattle.imsm_codec.specs.Given.{size_in, given_block};
ghost use Rattle.mpb_store.specs.declared.answer.Found.{Found};
ghost use Rattle.mpb_store.specs.Answers.{IsAnswer, IsPastFront};
ghost use Rattle.mpb_store.specs.Reading.{IsCut, cut_size_of, places_left, first_read};

use crate::answer::Found;
use crate::judge::{found_by, judge};
use crate::writing::extended_count;
use arrayvec::ArrayVec;
use imsm_buffer::MpbBuf;
use imsm_codec::{MpbFault, check};
use std::marker::Model;
use units::{MAX_BLOCK_BYTES, METADATA_SECTORS, SECTOR_BYTES, Sector, Serial};

/// What is done next: a read of a place, or nothing.
#[derive(Clone, Copy, Debug, PartialEq, Eq)]
pub enum ReadStep {
    Read(u64),
    Over,
}

fn cut_size_of(fault: MpbFault) -> Option<u32>
    ensures { result ≡ cut_size_of fault }
{
    match fault {
        MpbFault::Cut(size, _) => Some(size),
        _ => None,
    }
}

/// The size of the block that begins here, where it goes on behind the bytes.
fn cut_size(bytes: &[u8]) -> Option<u16>
    ensures { MatchOption result (¬ IsCut bytes.now) (λ size. IsCut bytes.now × (size ≡ size_in bytes.now)) }
{
    match check(bytes) {
        Ok(_) => None,
        Err(fault) => match cut_size_of(fault) {
            Some(size) => Some(size as u16),
            None => None,
        },
    }
}

/// The reading of the block on one disk, sector by sector. It keeps what was read.
#[derive(Drop)]
pub struct ReadSteps {
    sectors: u64,
    bytes: ArrayVec<u8, MAX_BLOCK_BYTES>,
    failed: bool,
}

impl Model for ReadSteps {
    ghost use Rattle.std.specs.Prelude.{◌≡◌, ◌<◌, ◌%◌, [], length};
    ghost use Rattle.units.specs.declared.bounds.TheConstants.{METADATA_SECTORS, SECTOR_BYTES};
    ghost use Rattle.mpb_store.specs.Reading.{Reading, IsReading};

    ghost Value = { Reading };

    ghost view = { λ r. record { sectors = r.sectors; bytes = r.bytes.items; failed = r.failed } };

    ghost invariant = { λ r. IsReading r.sectors r.bytes.items };
}

impl ReadSteps {
    /// Nothing is read yet, of a disk of so many sectors.
    pub fn new(sectors: u64) -> ReadSteps
        ensures { result ≡ record { sectors = sectors; bytes = []; failed = false } }
    {
        ReadSteps {
            sectors,
            bytes: ArrayVec::new(),
            failed: false,
        }
    }

    /// The place that is read next: the anchor's, then those that the anchor speaks of.
    pub fn next(&self) -> ReadStep
        ensures { result ≡ first_read (places_left self.now) }
    {
        let small = self.sectors < METADATA_SECTORS;
        if self.failed || small {
            return ReadStep::Over;
        }
        let anchor = self.sectors - 2;
        if self.bytes.is_empty() {
            return ReadStep::Read(anchor);
        }
        match cut_size(self.bytes.as_slice()) {
            Some(size) => {
                let extended = u64::from(extended_count(size));
                let read = (self.bytes.len() / SECTOR_BYTES) as u64;
                ReadStep::Read(anchor - extended + (read - 1))
            }
            None => ReadStep::Over,
        }
    }

    /// Takes what stands at the place that is read next, or that the read failed.
    pub fn fed(&mut self, got: Option<&Sector>)
        requires { places_left self.old ≢ [] }
        ensures sector { IfSome got.entry (λ s. length s.now.0 ≡ SECTOR_BYTES) }
        ensures fed { MatchOption got.entry (self.new ≡ record self.old { failed = true })
            (λ s. self.new ≡ record self.old { bytes = self.old.bytes ++ s.now.0 }) }
    {
        match got {
            Some(sector) => self.bytes.try_extend_from_slice(&sector.0).unwrap(),
            None => self.failed = true,
        }
    }

    /// What is found on the disk, which has this serial: by what was fed, where no read failed. Where the answer is
    /// Whole the block is put into `into`, and else what stands there isn't said.
    pub fn end(&self, own: Serial, into: &mut MpbBuf) -> Found
        requires over { places_left self.now ≡ [] }
        requires room { MAX_BLOCK_BYTES ≤ into.old.room }
        // Each answer is given exactly where it is the disk's.
        ensures answer { (found : Found) → result ≡ found ↔ IsAnswer own.0 self.now found }
        ensures behind { IsPastFront result }
        ensures loaded { result ≡ Found.Whole → into.new.bytes ≡ given_block self.now.bytes }
        ensures room { into.new.room ≡ into.old.room }
    {
        if self.failed {
            return Found::Unread;
        }
        match check(self.bytes.as_slice()) {
            Err(fault) => found_by(fault),
            Ok(mpb) => {
                into.load(&mpb).unwrap();
                judge(&mpb, &own, self.sectors)
            }
        }
    }
}
