//! The metadata block on a disk of a bank.
ghost use Rattle.std.specs.Prelude.{◌≡◌, ◌<◌, ◌≤◌, ℕ, true, List, Option, Some, IfSome, length, slice_get, slice_index};
ghost use Rattle.units.specs.declared.bounds.TheConstants.{MAX_BLOCK_BYTES, METADATA_SECTORS};
ghost use Rattle.units.specs.declared.disk.Serial.{Serial as SerialBytes};
ghost use Rattle.imsm_base.specs.Whole.{IsWholeDisk};
ghost use Rattle.imsm_buffer.specs.Buffer.{parts_of};
ghost use Rattle.device_log.specs.Log.{Call};
ghost use Rattle.member_bank.specs.Told.{Keeps};
ghost use Rattle.member_bank.specs.Faults.{Rose};
ghost use Rattle.mpb_store.specs.declared.answer.Found.{Found};
ghost use Rattle.mpb_store.specs.Reading.{places_left, first_read};
ghost use Rattle.mpb_store.specs.Answers.{IsPastFront};
ghost use Rattle.mpb_store.specs.Banks.{IsReadFrom, LogsReads, LogsReading, LogsLook, IsAnswerOn, bytes_left, is_unread, sector_after};

use crate::answer::Found;
use crate::reading::{ReadStep, ReadSteps};
use imsm_buffer::MpbBuf;
use member_bank::Bank;
use units::{DiskNo, Sector};

/// Reads the place that is next.
fn read_next<B: Bank>(bank: &mut B, d: DiskNo, place: u64, steps: &mut ReadSteps)
    requires disk { d.0 < length (B.sizes bank.old) }
    requires next { ReadStep.Read place ≡ first_read (places_left steps.old) }
    requires from { IsReadFrom (slice_index (B.sizes bank.old) d.0) d.0 (B.opening bank.old)
        (B.log bank.old) steps.old }
    ensures from { IsReadFrom (slice_index (B.sizes bank.old) d.0) d.0 (B.opening bank.new) (B.log bank.new) steps.new }
    ensures less { bytes_left steps.new < bytes_left steps.old }
    ensures reads { LogsReads (B.log bank.old) (B.log bank.new) d.0 steps.new.failed }
    ensures places { (first : Option (List Call)) → LogsReading d.0 first (B.log bank.old) steps.old
        → LogsReading d.0 first (B.log bank.new) steps.new }
    ensures opening { Keeps (B.opening bank.old) (B.opening bank.new) }
    ensures cause { steps.new.failed ≡ true → Rose (B.faults_of bank.old d.0) (B.faults_of bank.new d.0) }
    ensures later { (k : ℕ) → B.faults_of bank.old k ≤ B.faults_of bank.new k }
    ensures sizes { B.sizes bank.new ≡ B.sizes bank.old }
    ensures serials { B.serials bank.new ≡ B.serials bank.old }
{
    let mut sector = Sector([0; 512]);
    match bank.read(d, place, &mut sector) {
        Ok(()) => steps.fed(Some(&sector)),
        Err(_) => steps.fed(None),
    }
}

/// What is found on a disk, whose anchor is read first and then the extended sectors in order. Takes no memory. Where
/// the answer is Whole the block is put into `into`, and else what stands there isn't said.
pub fn found<B: Bank>(bank: &mut B, d: DiskNo, into: &mut MpbBuf) -> Found
    requires disk { d.0 < length (B.sizes bank.old) }
    requires room { MAX_BLOCK_BYTES ≤ into.old.room }
    // Where the bank tells its contents, each answer but Unread is given exactly where it is that of the contents.
    ensures told { (own : SerialBytes) → slice_get (B.serials bank.old) d.0 ≡ Some own
        → IfSome (B.opening bank.new) (λ opening. IfSome (B.log bank.new) (λ log.
        IsAnswerOn own.0 (slice_index (B.sizes bank.old) d.0) (sector_after opening log d.0) result into.new.bytes)) }
    // Whatever it tells, a block that is found is whole, and the disk by it.
    ensures whole { (own : SerialBytes) → slice_get (B.serials bank.old) d.0 ≡ Some own → result ≡ Found.Whole
        → IsWholeDisk own.0 (slice_index (B.sizes bank.old) d.0) into.new.bytes (parts_of into.new) }
    ensures small { slice_index (B.sizes bank.old) d.0 < METADATA_SECTORS → result ≡ Found.Blank }
    ensures behind { IsPastFront result }
    ensures unread { result ≡ Found.Unread → Rose (B.faults_of bank.old d.0) (B.faults_of bank.new d.0) }
    ensures later { (k : ℕ) → B.faults_of bank.old k ≤ B.faults_of bank.new k }
    // Nothing but reads of this disk is done, and the answer is Unread exactly where one of them failed.
    ensures reads { LogsReads (B.log bank.old) (B.log bank.new) d.0 (is_unread result) }
    // They are of the anchor, and then of the extended sectors that it speaks of in order, up to the first that fails.
    ensures places { LogsLook (slice_index (B.sizes bank.old) d.0) d.0 (B.opening bank.new)
        (B.log bank.old) (B.log bank.new)
        (is_unread result) }
    ensures opening { Keeps (B.opening bank.old) (B.opening bank.new) }
    ensures sizes { B.sizes bank.new ≡ B.sizes bank.old }
    ensures serials { B.serials bank.new ≡ B.serials bank.old }
    ensures room { into.new.room ≡ into.old.room }
{
    let mut steps = ReadSteps::new(bank.sectors(d));
    while let ReadStep::Read(place) = steps.next() {
        read_next(bank, d, place, &mut steps);
    }
    steps.end(bank.serial(d), into)
}
