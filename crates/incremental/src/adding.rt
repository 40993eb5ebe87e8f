//! A disk is put among those that have arrived.
ghost use Rattle.std.specs.Prelude.{◌≡◌, ◌<◌, ◌≤◌, ℕ, Bool, IfOk, OnErr, length, slice_index};
ghost use Rattle.units.specs.declared.bounds.TheConstants.{MAX_BLOCK_BYTES, MAX_DISKS as DISKS};
ghost use Rattle.member_bank.specs.Told.{Keeps};
ghost use Rattle.mpb_store.specs.Banks.{LogsLook};
ghost use Rattle.container.specs.declared.seen.Seen.{Seen as SeenDisk};
ghost use Rattle.container.specs.Seen.{IsSound};
ghost use Rattle.container.specs.Verdicts.{IsVerdict};
ghost use Rattle.assembly.specs.Seen.{SeesDisk};
ghost use Rattle.incremental.specs.Arrivals.{AreKept, HasArrived, lower, with_disk};

use assembly::see;
use container::{Seen, Verdict, judge};
use imsm_buffer::MpbBuf;
use member_bank::Bank;
use std::alloc::{AllocError, Global};
use units::DiskNo;

/// How many of the disks have lower numbers.
fn count_below(seen: &[Seen], d: DiskNo) -> usize
    ensures { result ≡ length (lower d seen.now) }
{
    seen.iter().filter(|s| s.disk.0 < d.0).count()
}

/// The verdict on disks and one more, which is put among them, in the order of the numbers. Without memory it is taken
/// out again.
fn judge_with(
    alloc: Global,
    seen: &mut Vec<Seen>,
    disk: Seen,
    run: bool,
) -> Result<Verdict, AllocError>
    requires kept { AreKept seen.old.items }
    requires new { ¬ HasArrived seen.old.items disk.disk }
    requires below { disk.disk.0 < DISKS }
    requires sound { IsSound disk.holds }
    ensures added { IfOk result (λ verdict. (seen.new.items ≡ with_disk disk seen.old.items)
        × IsVerdict seen.new.items run verdict) }
    ensures as_before { OnErr result (seen.new.items ≡ seen.old.items) }
{
    let at = count_below(seen.as_slice(), disk.disk);
    seen.insert(at, disk)?;
    match judge(alloc, seen.as_slice(), run) {
        Ok(verdict) => Ok(verdict),
        Err(_) => {
            let _ = seen.remove(at);
            Err(AllocError)
        }
    }
}

/// Looks at a disk that hasn't arrived, and gives the verdict on it and the others, among which it is put. Without
/// memory they stay as they were.
pub(crate) fn see_with<B: Bank>(
    alloc: Global,
    seen: &mut Vec<Seen>,
    into: &mut MpbBuf,
    bank: &mut B,
    d: DiskNo,
    run: bool,
) -> Result<Verdict, AllocError>
    requires kept { AreKept seen.old.items }
    requires new { ¬ HasArrived seen.old.items d }
    requires disk { d.0 < length (B.sizes bank.old) }
    requires room { MAX_BLOCK_BYTES ≤ into.old.room }
    ensures added { IfOk result (λ verdict. (s : SeenDisk) × SeesDisk B.Bank bank.old bank.new d.0 s
        × (seen.new.items ≡ with_disk s seen.old.items) × IsVerdict seen.new.items run verdict) }
    ensures as_before { OnErr result (seen.new.items ≡ seen.old.items) }
    ensures kept { AreKept seen.new.items }
    ensures looks { (failed : Bool) × LogsLook (slice_index (B.sizes bank.old) d.0) d.0 (B.opening bank.new)
        (B.log bank.old) (B.log bank.new) failed }
    ensures opening { Keeps (B.opening bank.old) (B.opening bank.new) }
    ensures later { (k : ℕ) → B.faults_of bank.old k ≤ B.faults_of bank.new k }
    ensures sizes { B.sizes bank.new ≡ B.sizes bank.old }
    ensures serials { B.serials bank.new ≡ B.serials bank.old }
    ensures room { into.new.room ≡ into.old.room }
{
    // a bank's numbers are below 16
    let disks = bank.disks();
    prove!(d.0 < disks);
    let disk = see(alloc, bank, d, into)?;
    judge_with(alloc, seen, disk, run)
}
