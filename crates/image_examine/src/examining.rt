//! What is found on a disk is printed.
ghost use Rattle.std.specs.Prelude.{◌≡◌, ◌<◌, ◌≤◌, ℕ, length};
ghost use Rattle.member_bank.specs.Told.{Keeps};
ghost use Rattle.image_outside.specs.Endings.{EndsIfMemory, Prints};
ghost use Rattle.image_outside.specs.Shelves.{IsUncalled};
ghost use Rattle.image_outside.specs.Told.{bank_told};
ghost use Rattle.image_outside.specs.Views.{sink_told};
ghost use Rattle.image_examine.specs.Text.{found_status as status_of, found_text as text_of};
ghost use Rattle.image_examine.specs.Endings.{Examines, HasLookedOrNot};

use crate::text::{found_status, found_text};
use image_outside::{Sink, Status, end, end_without_memory};
use imsm_buffer::MpbBuf;
use member_bank::Bank;
use mpb_store::{Found, found};
use std::alloc::Global;
use units::DiskNo;

/// Sectors of the largest block.
const MAX_BLOCK_SECTORS: u8 = 16;

/// Prints what was found, where the block is this one if one was. All memory is taken before a line is written.
fn print_found<K: Sink>(alloc: Global, found: Found, block: &MpbBuf, sink: &mut K) -> Status
    ensures { EndsIfMemory (sink_told K.Sink sink.old) (sink_told K.Sink sink.new)
        (Prints (text_of found block.now.bytes) (status_of found)) result.0 }
{
    match found_text(alloc, found, block) {
        Ok(text) => end(sink, text.as_slice(), found_status(found)),
        Err(_) => end_without_memory(sink),
    }
}

/// Looks for the metadata block of the one disk of a bank, and prints what it says, or what is found in its place. All
/// memory is taken before a line is written.
pub fn examine<B: Bank, K: Sink>(alloc: Global, bank: &mut B, sink: &mut K) -> Status
    requires fresh { IsUncalled (bank_told B.Bank bank.old) }
    requires sound { (d : ℕ) → d < length (B.serials bank.old) → B.faults_of bank.old d ≡ 0 }
    requires one { length (B.serials bank.old) ≡ 1 }
    ensures looked { HasLookedOrNot (bank_told B.Bank bank.new) }
    ensures ends { EndsIfMemory (sink_told K.Sink sink.old) (sink_told K.Sink sink.new)
        (Examines (bank_told B.Bank bank.new)) result.0 }
    ensures opening { Keeps (B.opening bank.old) (B.opening bank.new) }
    ensures later { (k : ℕ) → B.faults_of bank.old k ≤ B.faults_of bank.new k }
    ensures sizes { B.sizes bank.new ≡ B.sizes bank.old }
    ensures serials { B.serials bank.new ≡ B.serials bank.old }
{
    let Ok(mut block) = MpbBuf::new(alloc, MAX_BLOCK_SECTORS) else {
        return end_without_memory(sink);
    };
    let count = bank.disks();
    prove!(count == 1);
    let found = found(bank, DiskNo(0), &mut block);
    print_found(alloc, found, &block, sink)
}
