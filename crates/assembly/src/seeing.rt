//! Disks are looked at, one after the other.
ghost use Rattle.std.specs.Prelude.{◌≡◌, ◌≤◌, ◌<◌, ℕ, Bool, length, slice_index, IfOk};
ghost use Rattle.units.specs.declared.bounds.TheConstants.{MAX_BLOCK_BYTES};
ghost use Rattle.member_bank.specs.Told.{Keeps};
ghost use Rattle.mpb_store.specs.declared.answer.Found.TheVariants.{Whole};
ghost use Rattle.mpb_store.specs.Banks.{LogsLook};
ghost use Rattle.assembly.specs.Seen.{SeesAll, SeesDisk, SeesFront, bytes_of, found_of};

use container::{Seen, SeenAs};
use imsm_buffer::MpbBuf;
use member_bank::Bank;
use mpb_store::{Found, found};
use std::alloc::{AllocError, Global};
use units::{DiskNo, MAX_BLOCK_SECTORS};

/// A copy of a block, in room of its own size.
fn copy_of(alloc: Global, block: &MpbBuf) -> Result<MpbBuf, AllocError>
    ensures { IfOk result (λ copy. copy.bytes ≡ block.now.bytes) }
{
    let len = block.bytes().len() as u16;
    MpbBuf::from_ref(alloc, &block.parts(), len).map_err(|_| AllocError)
}

/// What was found, with a copy of the block where it is whole.
fn holds_of(alloc: Global, found: Found, block: &MpbBuf) -> Result<SeenAs, AllocError>
    ensures found { IfOk result (λ holds. found_of holds ≡ found) }
    ensures block { IfOk result (λ holds. found ≡ Whole → bytes_of holds ≡ block.now.bytes) }
{
    match found {
        Found::Whole => Ok(SeenAs::Whole(copy_of(alloc, block)?)),
        Found::Blank => Ok(SeenAs::Blank),
        Found::Torn(fault) => Ok(SeenAs::Torn(fault)),
        Found::Unread => Ok(SeenAs::Unread),
    }
}

/// Looks at a disk, with room for its block: its anchor is read, and then the extended sectors that it speaks of.
pub fn see<B: Bank>(
    alloc: Global,
    bank: &mut B,
    d: DiskNo,
    into: &mut MpbBuf,
) -> Result<Seen, AllocError>
    requires disk { d.0 < length (B.sizes bank.old) }
    requires room { MAX_BLOCK_BYTES ≤ into.old.room }
    ensures seen { IfOk result (λ s. SeesDisk B.Bank bank.old bank.new d.0 s) }
    ensures looks { (failed : Bool) × LogsLook (slice_index (B.sizes bank.old) d.0) d.0 (B.opening bank.new)
        (B.log bank.old) (B.log bank.new) failed }
    ensures opening { Keeps (B.opening bank.old) (B.opening bank.new) }
    ensures later { (k : ℕ) → B.faults_of bank.old k ≤ B.faults_of bank.new k }
    ensures sizes { B.sizes bank.new ≡ B.sizes bank.old }
    ensures serials { B.serials bank.new ≡ B.serials bank.old }
    ensures room { into.new.room ≡ into.old.room }
{
    let found = found(bank, d, into);
    let holds = holds_of(alloc, found, into)?;
    Ok(Seen {
        disk: d,
        serial: bank.serial(d),
        sectors: bank.sectors(d),
        holds,
    })
}

/// Looks at all disks, in the order of their numbers.
pub(crate) fn see_all<B: Bank>(alloc: Global, bank: &mut B) -> Result<Vec<Seen>, AllocError>
    ensures seen { IfOk result (λ seen. SeesAll B.Bank bank.old bank.new seen.items) }
    ensures few { IfOk result (λ seen. length seen.items ≤ 16) }
    ensures front { SeesFront B.Bank bank.old bank.new }
    ensures opening { Keeps (B.opening bank.old) (B.opening bank.new) }
    ensures later { (k : ℕ) → B.faults_of bank.old k ≤ B.faults_of bank.new k }
    ensures sizes { B.sizes bank.new ≡ B.sizes bank.old }
    ensures serials { B.serials bank.new ≡ B.serials bank.old }
{
    let mut into = MpbBuf::new(alloc, MAX_BLOCK_SECTORS).map_err(|_| AllocError)?;
    let mut seen = Vec::new(alloc);
    for d in 0..bank.disks() {
        seen.push(see(alloc, bank, DiskNo(d), &mut into)?)?;
    }
    Ok(seen)
}
