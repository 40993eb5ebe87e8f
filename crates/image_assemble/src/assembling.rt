//! The verdict on a bank is printed.
ghost use Rattle.std.specs.Prelude.{◌≡◌, ◌<◌, ◌≤◌, ℕ, length};
ghost use Rattle.member_bank.specs.Told.{Keeps};
ghost use Rattle.image_outside.specs.Endings.{EndsIfMemory, Prints};
ghost use Rattle.image_outside.specs.Shelves.{IsUncalled};
ghost use Rattle.image_outside.specs.Told.{bank_told};
ghost use Rattle.image_outside.specs.Views.{sink_told};
ghost use Rattle.image_assemble.specs.Endings.{Assembles, HasLookedFirst};
ghost use Rattle.verdict_text.specs.Lines.{verdict_lines};
ghost use Rattle.verdict_text.specs.Status.{verdict_status};

use arrayvec::ArrayVec;
use assembly::assemble;
use container::Verdict;
use image_outside::{Sink, Status, end, end_without_memory};
use member_bank::Bank;
use std::alloc::Global;
use units::{DiskNo, MAX_DISKS, Serial};
use verdict_text::{status_of, verdict_text};

/// The serials of a bank's disks, in the order of their numbers.
pub fn serials_of<B: Bank>(bank: &B) -> ArrayVec<Serial, MAX_DISKS>
    ensures { result.items ≡ B.serials bank.now }
{
    let mut serials = ArrayVec::new();
    for d in 0..bank.disks() {
        serials.push(bank.serial(DiskNo(d)));
    }
    serials
}

/// Prints a verdict on disks that have these serials. All memory is taken before a line is written.
fn print_verdict<K: Sink>(
    alloc: Global,
    serials: &[Serial],
    verdict: &Verdict,
    sink: &mut K,
) -> Status
    ensures { EndsIfMemory (sink_told K.Sink sink.old) (sink_told K.Sink sink.new)
        (Prints (verdict_lines serials.now serials.now verdict.now) (verdict_status verdict.now)) result.0 }
{
    match verdict_text(alloc, serials, serials, verdict) {
        Ok(text) => end(sink, text.as_slice(), status_of(verdict)),
        Err(_) => end_without_memory(sink),
    }
}

/// Prints the verdict on all disks of a bank, each of which is looked at once. With `run` it is that of a start without
/// disks that lack. All memory is taken before a line is written.
pub fn print_assembly<B: Bank, K: Sink>(
    alloc: Global,
    bank: &mut B,
    run: bool,
    sink: &mut K,
) -> Status
    requires fresh { IsUncalled (bank_told B.Bank bank.old) }
    requires sound { (d : ℕ) → d < length (B.serials bank.old) → B.faults_of bank.old d ≡ 0 }
    ensures front { HasLookedFirst (bank_told B.Bank bank.new) }
    ensures ends { EndsIfMemory (sink_told K.Sink sink.old) (sink_told K.Sink sink.new)
        (Assembles run (bank_told B.Bank bank.new)) result.0 }
    ensures opening { Keeps (B.opening bank.old) (B.opening bank.new) }
    ensures later { (k : ℕ) → B.faults_of bank.old k ≤ B.faults_of bank.new k }
    ensures sizes { B.sizes bank.new ≡ B.sizes bank.old }
    ensures serials { B.serials bank.new ≡ B.serials bank.old }
{
    let Ok(verdict) = assemble(alloc, bank, run) else {
        return end_without_memory(sink);
    };
    let serials = serials_of(bank);
    print_verdict(alloc, serials.as_slice(), &verdict, sink)
}
