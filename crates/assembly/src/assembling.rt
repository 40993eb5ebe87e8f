//! The verdict on the disks of a bank.
ghost use Rattle.std.specs.Prelude.{◌≡◌, ◌≤◌, ℕ, List, IfOk};
ghost use Rattle.member_bank.specs.Told.{Keeps};
ghost use Rattle.container.specs.declared.seen.Seen.{Seen as SeenDisk};
ghost use Rattle.container.specs.Verdicts.{IsVerdict};
ghost use Rattle.assembly.specs.Seen.{SeesAll, SeesFront};

use crate::seeing::see_all;
use container::{AssembleFault, Verdict, judge};
use member_bank::Bank;
use std::alloc::Global;

/// The verdict on a container by all disks of a bank, each of which is looked at once, whatever was done on the bank
/// before. With `run` it is opened without disks that lack, where a volume starts all the same. Nothing is written;
/// memory is the only fault.
pub fn assemble<B: Bank>(alloc: Global, bank: &mut B, run: bool) -> Result<Verdict, AssembleFault>
    ensures verdict { IfOk result (λ verdict. (seen : List SeenDisk)
        × SeesAll B.Bank bank.old bank.new seen
        × IsVerdict seen run verdict) }
    ensures front { SeesFront B.Bank bank.old bank.new }
    ensures opening { Keeps (B.opening bank.old) (B.opening bank.new) }
    ensures later { (k : ℕ) → B.faults_of bank.old k ≤ B.faults_of bank.new k }
    ensures sizes { B.sizes bank.new ≡ B.sizes bank.old }
    ensures serials { B.serials bank.new ≡ B.serials bank.old }
{
    match see_all(alloc, bank) {
        Ok(seen) => judge(alloc, seen.as_slice(), run),
        Err(_) => Err(AssembleFault::Memory),
    }
}
