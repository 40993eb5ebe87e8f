//! The disks of a bank arrive, and what is said of them is printed.
ghost use Rattle.std.specs.Prelude.{◌≡◌, ◌<◌, ◌≤◌, ◌-◌, ℕ, IfOk, Some, length, slice_get};
ghost use Rattle.member_bank.specs.Told.{Keeps};
ghost use Rattle.container.specs.declared.verdict.Verdict.{Verdict as Judged};
ghost use Rattle.image_outside.specs.Endings.{EndsIfMemory, Prints};
ghost use Rattle.image_outside.specs.Shelves.{IsUncalled};
ghost use Rattle.image_outside.specs.Told.{bank_told};
ghost use Rattle.image_outside.specs.Views.{sink_told};
ghost use Rattle.image_assemble.specs.Endings.{HasLookedFirst};
ghost use Rattle.image_incremental.specs.Endings.{Arrives};
ghost use Rattle.image_incremental.specs.Lines.{all_lines};
ghost use Rattle.verdict_text.specs.Status.{verdict_status};

use crate::text::arrivals_text;
use container::Verdict;
use image_assemble::serials_of;
use image_outside::{Sink, Status, end, end_without_memory};
use incremental::{AddFault, Arrivals};
use member_bank::Bank;
use std::alloc::{AllocError, Global};
use units::{DiskNo, Serial};
use verdict_text::status_of;

/// The verdicts on the disks of a bank that arrive one after the other, until one opens the container or all have
/// arrived.
fn arrive_all<B: Bank>(alloc: Global, bank: &mut B, run: bool) -> Result<Vec<Verdict>, AllocError>
    requires some { 1 ≤ length (B.serials bank.old) }
    requires fresh { IsUncalled (bank_told B.Bank bank.old) }
    ensures arrives { IfOk result (λ verdicts. (last : Judged)
        × (slice_get verdicts.items (length verdicts.items - 1) ≡ Some last)
        × Arrives run (bank_told B.Bank bank.new) (all_lines (B.serials bank.new) verdicts.items)
        (verdict_status last)) }
    ensures few { IfOk result (λ verdicts. length verdicts.items ≤ length (B.serials bank.new)) }
    ensures front { HasLookedFirst (bank_told B.Bank bank.new) }
    ensures opening { Keeps (B.opening bank.old) (B.opening bank.new) }
    ensures later { (k : ℕ) → B.faults_of bank.old k ≤ B.faults_of bank.new k }
    ensures sizes { B.sizes bank.new ≡ B.sizes bank.old }
    ensures serials { B.serials bank.new ≡ B.serials bank.old }
{
    let mut arrivals = Arrivals::new(alloc).map_err(|_| AllocError)?;
    let mut verdicts = Vec::new(alloc);
    for d in 0..bank.disks() {
        match arrivals.add(bank, DiskNo(d), run) {
            Ok(verdict) => verdicts.push(verdict)?,
            Err(AddFault::Started) => return Ok(verdicts),
            Err(_) => return Err(AllocError),
        }
    }
    Ok(verdicts)
}

/// Prints the verdicts on disks that arrived, of which the last gives the status. All memory is taken before a line is
/// written.
fn print_verdicts<K: Sink>(
    alloc: Global,
    serials: &[Serial],
    verdicts: &[Verdict],
    sink: &mut K,
) -> Status
    requires few { length verdicts.now ≤ length serials.now }
    requires some { 1 ≤ length verdicts.now }
    ensures { (last : Judged) × (slice_get verdicts.now (length verdicts.now - 1) ≡ Some last)
        × EndsIfMemory (sink_told K.Sink sink.old) (sink_told K.Sink sink.new)
        (Prints (all_lines serials.now verdicts.now) (verdict_status last)) result.0 }
{
    let status = status_of(&verdicts[verdicts.len() - 1]);
    match arrivals_text(alloc, serials, verdicts) {
        Ok(text) => end(sink, text.as_slice(), status),
        Err(_) => end_without_memory(sink),
    }
}

/// Lets the disks of a bank arrive, in the order of their numbers: each is looked at once, and the verdict on all that
/// have arrived is printed, until one opens the container. With `run` the verdicts are those of a start without disks
/// that lack. The status is that of the last verdict. All memory is taken, and all disks that arrive in time are looked
/// at, before a line is written.
pub fn print_arrivals<B: Bank, K: Sink>(
    alloc: Global,
    bank: &mut B,
    run: bool,
    sink: &mut K,
) -> Status
    requires some { 1 ≤ length (B.serials bank.old) }
    requires fresh { IsUncalled (bank_told B.Bank bank.old) }
    requires sound { (d : ℕ) → d < length (B.serials bank.old) → B.faults_of bank.old d ≡ 0 }
    ensures front { HasLookedFirst (bank_told B.Bank bank.new) }
    ensures ends { EndsIfMemory (sink_told K.Sink sink.old) (sink_told K.Sink sink.new)
        (Arrives run (bank_told B.Bank bank.new)) result.0 }
    ensures opening { Keeps (B.opening bank.old) (B.opening bank.new) }
    ensures later { (k : ℕ) → B.faults_of bank.old k ≤ B.faults_of bank.new k }
    ensures sizes { B.sizes bank.new ≡ B.sizes bank.old }
    ensures serials { B.serials bank.new ≡ B.serials bank.old }
{
    let Ok(verdicts) = arrive_all(alloc, bank, run) else {
        return end_without_memory(sink);
    };
    let serials = serials_of(bank);
    print_verdicts(alloc, serials.as_slice(), verdicts.as_slice(), sink)
}
