//! A container is made over the disks of a bank.
ghost use Rattle.std.specs.Prelude.{◌≡◌, ℕ, ◌<◌, true, Some, IfErr, IfOk, OnOk, length, slice_get, slice_index};
ghost use Rattle.units.specs.declared.disk.Serial.{Serial};
ghost use Rattle.imsm_base.specs.Layout.{family_of};
ghost use Rattle.imsm_buffer.specs.Buffer.{parts_of};
ghost use Rattle.member_bank.specs.Told.{Keeps};
ghost use Rattle.new_container.specs.Fits.{container_fits};
ghost use Rattle.image_outside.specs.declared.status.TheConstants.Status.{DONE, MEMBER_FAULT, MEMORY, REFUSED};
ghost use Rattle.image_outside.specs.Endings.{Ends, EndsIfMemory, Prints};
ghost use Rattle.image_outside.specs.Shelves.{IsUncalled};
ghost use Rattle.image_outside.specs.Told.{bank_told};
ghost use Rattle.image_outside.specs.Views.{sink_told};
ghost use Rattle.image_outside.specs.Lines.{failed_member_line};
ghost use Rattle.image_create.specs.Creates.{CreatesBy, created_line, least_on, new_disks_of, small_line};
ghost use Rattle.image_create.specs.Room.{IsFirstBelow};

use crate::laying::lay_down;
use crate::room::first_small;
use image_outside::{Sink, Status, end_line, end_without_memory};
use imsm_buffer::MpbBuf;
use imsm_text::Word;
use member_bank::Bank;
use new_container::{NewContainer, NewDisk, new_block};
use std::alloc::{AllocError, Global};
use units::DiskNo;

/// The disks of a bank, in the order of their numbers.
fn disks_of<B: Bank>(alloc: Global, bank: &B) -> Result<Vec<NewDisk>, AllocError>
    ensures { IfOk result (λ disks. disks.items ≡ new_disks_of (B.serials bank.now) (B.sizes bank.now)) }
{
    let mut disks = Vec::new(alloc);
    for d in 0..bank.disks() {
        let disk = DiskNo(d);
        disks.push(NewDisk {
            serial: bank.serial(disk),
            sectors: bank.sectors(disk),
        })?;
    }
    Ok(disks)
}

/// Ends with the line that a disk is too small.
fn end_small<B: Bank, K: Sink>(bank: &B, d: DiskNo, sink: &mut K) -> Status
    requires { d.0 < length (B.sizes bank.now) }
    ensures { (serial : Serial) × (slice_get (B.serials bank.now) d.0 ≡ Some serial)
        × Ends (sink_told K.Sink sink.old) (sink_told K.Sink sink.new)
        (Prints (small_line serial (slice_index (B.sizes bank.now) d.0)) REFUSED.0) result.0 }
{
    let serial = bank.serial(d);
    let words = [
        Word::Plain(b"small"),
        Word::Name(&serial.0),
        Word::Number(bank.sectors(d)),
    ];
    end_line(sink, b"refused", &words, Status::REFUSED)
}

/// Ends with the line that a call on a disk failed.
fn end_failed<B: Bank, K: Sink>(bank: &B, d: DiskNo, sink: &mut K) -> Status
    requires { d.0 < length (B.sizes bank.now) }
    ensures { (serial : Serial) × (slice_get (B.serials bank.now) d.0 ≡ Some serial)
        × Ends (sink_told K.Sink sink.old) (sink_told K.Sink sink.new)
        (Prints (failed_member_line serial) MEMBER_FAULT.0) result.0 }
{
    let serial = bank.serial(d);
    let words = [Word::Name(&serial.0)];
    end_line(sink, b"member", &words, Status::MEMBER_FAULT)
}

/// Ends with the number of the family where the block was laid down, or with the disk on which a call failed.
fn end_laid<B: Bank, K: Sink>(
    bank: &B,
    block: &MpbBuf,
    laid: Result<(), DiskNo>,
    sink: &mut K,
) -> Status
    requires { IfErr laid (λ d. d.0 < length (B.sizes bank.now)) }
    ensures created { OnOk laid (Ends (sink_told K.Sink sink.old) (sink_told K.Sink sink.new)
        (Prints (created_line (family_of (parts_of block.now))) DONE.0) result.0) }
    ensures failed { IfErr laid (λ d. (serial : Serial) × (slice_get (B.serials bank.now) d.0 ≡ Some serial)
        × Ends (sink_told K.Sink sink.old) (sink_told K.Sink sink.new)
        (Prints (failed_member_line serial) MEMBER_FAULT.0) result.0) }
{
    match laid {
        Ok(()) => {
            let words = [Word::Hex(block.parts().family())];
            end_line(sink, b"created", &words, Status::DONE)
        }
        Err(d) => end_failed(bank, d, sink),
    }
}

/// Makes a container over all disks of a bank, and prints the number of its family. Zeros stand on the rows of every
/// disk before the block stands on one.
///
/// The status is 0 where the container was made, 3 where a disk is too small for it, 6 where the line couldn't be
/// written, 9 without memory, and 13 where a call on a disk failed.
pub fn create<B: Bank, K: Sink>(
    alloc: Global,
    bank: &mut B,
    made: &NewContainer,
    sink: &mut K,
) -> Status
    requires fresh { IsUncalled (bank_told B.Bank bank.old) }
    requires sound { (d : ℕ) → d < length (B.serials bank.old) → B.faults_of bank.old d ≡ 0 }
    requires fits { container_fits made.now (length (B.serials bank.old)) ≡ true }

    // How it ends, which calls are made, and what is printed. No call is made where a disk is too small, and else none
    // but those of the container: all, or those up to the first that fails.
    ensures ends { EndsIfMemory (sink_told K.Sink sink.old) (sink_told K.Sink sink.new)
        (CreatesBy made.now (bank_told B.Bank bank.new)) result.0 }

    // Without memory, or where a disk is too small, no disk is touched, whatever the bank tells.
    ensures untouched { result.0 ≡ MEMORY.0 → bank.new ≡ bank.old }
    ensures refused { (d : ℕ) → IsFirstBelow (least_on made.now (bank_told B.Bank bank.old)) (B.sizes bank.old) d
        → bank.new ≡ bank.old }
    ensures opening { Keeps (B.opening bank.old) (B.opening bank.new) }
    ensures sizes { B.sizes bank.new ≡ B.sizes bank.old }
    ensures serials { B.serials bank.new ≡ B.serials bank.old }
{
    let rows = made.total_rows(usize::from(bank.disks()));
    if let Some(d) = first_small(bank, rows) {
        return end_small(bank, d, sink);
    }
    let Ok(disks) = disks_of(alloc, bank) else {
        return end_without_memory(sink);
    };
    match new_block(alloc, made, disks.as_slice()) {
        Ok(block) => {
            let laid = lay_down(bank, rows, &block);
            end_laid(bank, &block, laid, sink)
        }
        Err(_) => end_without_memory(sink),
    }
}
