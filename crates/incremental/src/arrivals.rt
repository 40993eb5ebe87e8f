//! The disks of a container that have arrived.
ghost use Rattle.std.specs.Prelude.{◌≡◌, ◌≢◌, ◌↔◌, ◌<◌, ◌≤◌, ℕ, Bool, true, false, [], Err, IfErr, IfOk, OnErr, length, slice_index};
ghost use Rattle.units.specs.declared.disk.DiskNo.{DiskNo as Number};
ghost use Rattle.member_bank.specs.Told.{Keeps};
ghost use Rattle.mpb_store.specs.Banks.{LogsLook};
ghost use Rattle.container.specs.declared.seen.Seen.{Seen as SeenDisk};
ghost use Rattle.container.specs.Verdicts.{IsVerdict};
ghost use Rattle.assembly.specs.Seen.{SeesDisk};
ghost use Rattle.incremental.specs.declared.fault.AddFault.TheVariants.{Memory, Twice, Started};
ghost use Rattle.incremental.specs.Arrivals.{AreKept, HasArrived, is_ready, with_disk};

use crate::adding::see_with;
use crate::fault::AddFault;
use container::{Seen, Verdict};
use imsm_buffer::MpbBuf;
use member_bank::Bank;
use std::alloc::Global;
use std::marker::Model;
use units::{DiskNo, MAX_BLOCK_SECTORS};

/// The disks of a container that have arrived, as they were seen, in the order of their numbers, and whether the last
/// of them made it ready. Contracts see that alone.
#[derive(Drop)]
pub struct Arrivals {
    alloc: Global,
    seen: Vec<Seen>,
    /// Room for the block of a disk that is looked at.
    into: MpbBuf,
    started: bool,
}

impl Model for Arrivals {
    ghost use Rattle.std.specs.Prelude.{◌≤◌};
    ghost use Rattle.units.specs.declared.bounds.TheConstants.{MAX_BLOCK_BYTES};
    ghost use Rattle.incremental.specs.Arrivals.{AreKept, Arrived};

    ghost Value = { Arrived };

    ghost view = { λ a. record { seen = a.seen.items; started = a.started } };

    ghost invariant = { λ a. AreKept a.seen.items × (MAX_BLOCK_BYTES ≤ a.into.room) };
}

/// Whether a disk has arrived.
fn has_arrived(seen: &[Seen], d: DiskNo) -> bool
    ensures { result ≡ true ↔ HasArrived seen.now d }
{
    seen.iter().any(|s| s.disk == d)
}

/// Whether a verdict opens the container.
fn is_ready(verdict: &Verdict) -> bool
    ensures { result ≡ is_ready verdict.now }
{
    matches!(verdict, Verdict::Ready(_))
}

impl Arrivals {
    /// No disk has arrived. Memory is the only fault.
    pub fn new(alloc: Global) -> Result<Arrivals, AddFault>
        ensures none { IfOk result (λ arrivals. arrivals ≡ record { seen = []; started = false }) }
        ensures memory { IfErr result (λ fault. fault ≡ Memory) }
    {
        let into = MpbBuf::new(alloc, MAX_BLOCK_SECTORS).map_err(|_| AddFault::Memory)?;
        Ok(Arrivals {
            alloc,
            seen: Vec::new(alloc),
            into,
            started: false,
        })
    }

    /// A disk of the bank arrives: it is looked at, once, and the verdict on all that have arrived is given. With `run`
    /// the container is opened without disks that lack, where a volume starts all the same. Nothing is written. A disk
    /// that has arrived is refused, and each one once the container has started; a refusal leaves the arrivals as they
    /// were, and the bank too, except where there was no memory.
    pub fn add<B: Bank>(&mut self, bank: &mut B, d: DiskNo, run: bool) -> Result<Verdict, AddFault>
        requires disk { d.0 < length (B.sizes bank.old) }
        ensures twice { (k : Number) → result ≡ Err (Twice k) ↔ (HasArrived self.old.seen d × (k ≡ d)) }
        ensures started { result ≡ Err Started ↔ (¬ HasArrived self.old.seen d × (self.old.started ≡ true)) }
        ensures added { IfOk result (λ verdict. (s : SeenDisk) × SeesDisk B.Bank bank.old bank.new d.0 s
            × (self.new ≡ record { seen = with_disk s self.old.seen; started = is_ready verdict })
            × IsVerdict self.new.seen run verdict) }
        ensures kept { AreKept self.new.seen }
        ensures as_before { OnErr result (self.new ≡ self.old) }
        ensures no_call { IfErr result (λ fault. fault ≢ Memory → bank.new ≡ bank.old) }
        ensures looks { result ≡ Err Memory → (failed : Bool) × LogsLook (slice_index (B.sizes bank.old) d.0) d.0
            (B.opening bank.new) (B.log bank.old) (B.log bank.new) failed }
        ensures opening { Keeps (B.opening bank.old) (B.opening bank.new) }
        ensures later { (k : ℕ) → B.faults_of bank.old k ≤ B.faults_of bank.new k }
        ensures sizes { B.sizes bank.new ≡ B.sizes bank.old }
        ensures serials { B.serials bank.new ≡ B.serials bank.old }
    {
        if has_arrived(self.seen.as_slice(), d) {
            return Err(AddFault::Twice(d));
        }
        if self.started {
            return Err(AddFault::Started);
        }
        match see_with(self.alloc, &mut self.seen, &mut self.into, bank, d, run) {
            Ok(verdict) => {
                self.started = is_ready(&verdict);
                Ok(verdict)
            }
            Err(_) => Err(AddFault::Memory),
        }
    }
}
