//! How a metadata block is written to a disk.
ghost use Rattle.std.specs.Prelude.{◌≡◌, ◌≤◌, ◌↔◌, [], drop};
ghost use Rattle.units.specs.declared.bounds.TheConstants.{HEADER_BYTES as HEADER, MAX_BLOCK_BYTES as MOST, METADATA_SECTORS as METADATA};
ghost use Rattle.units.specs.Places.{extended_count};
ghost use Rattle.mpb_store.specs.Writing.{steps_of, first_step};

use std::marker::Model;
use units::SECTOR_BYTES;

/// What is done next: a write of so many extended sectors from a place on, a write of the anchor, a sync, or nothing.
#[derive(Clone, Copy, Debug, PartialEq, Eq)]
pub enum Step {
    Extended(u64, u8),
    Anchor(u64),
    Sync,
    Over,
}

/// The steps that are left of writing a block to a disk. The anchor comes behind the extended part, so that an anchor
/// speaks of sectors that stand there.
#[derive(Drop)]
pub struct WriteSteps {
    anchor: u64,
    next: Step,
}

impl Model for WriteSteps {
    ghost use Rattle.std.specs.Prelude.{List};
    ghost use Rattle.mpb_store.specs.declared.writing.Step.{Step};
    ghost use Rattle.mpb_store.specs.Writing.{steps_from};

    ghost Value = { List Step };

    ghost view = { λ w. steps_from w.anchor w.next };
}

/// How many sectors a block of so many bytes has beside its anchor.
pub(crate) fn extended_count(size: u16) -> u8
    requires least { HEADER ≤ size }
    requires most { size ≤ MOST }
    ensures count { result ≡ extended_count size }
    ensures few { result ≤ 15 }
{
    ((usize::from(size) + SECTOR_BYTES - 1) / SECTOR_BYTES - 1) as u8
}

impl WriteSteps {
    /// All steps for a block of so many bytes, on a disk of so many sectors.
    pub fn new(size: u16, sectors: u64) -> WriteSteps
        requires least { HEADER ≤ size }
        requires most { size ≤ MOST }
        requires room { METADATA ≤ sectors }
        ensures { result ≡ steps_of size sectors }
    {
        let anchor = sectors - 2;
        let count = extended_count(size);
        let next = if count == 0 {
            Step::Anchor(anchor)
        } else {
            Step::Extended(anchor - u64::from(count), count)
        };
        WriteSteps { anchor, next }
    }

    /// The first of the steps that are left, which is left no more.
    pub fn next(&mut self) -> Step
        ensures step { result ≡ first_step self.old }
        ensures rest { self.new ≡ drop 1 self.old }
        ensures over { result ≡ Step.Over ↔ self.old ≡ [] }
    {
        let step = self.next;
        self.next = match step {
            Step::Extended(_, _) => Step::Anchor(self.anchor),
            Step::Anchor(_) => Step::Sync,
            Step::Sync | Step::Over => Step::Over,
        };
        step
    }
}
