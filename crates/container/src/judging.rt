//! The verdict on a container.
ghost use Rattle.std.specs.Prelude.{◌≡◌, ◌≤◌, Contains, IfOk, List, length};
ghost use Rattle.imsm_base.specs.Whole.{IsWholeBlock};
ghost use Rattle.imsm_codec.specs.Mpb.{block_bytes, block_of};
ghost use Rattle.generation_pick.specs.Found.{generation_at};
ghost use Rattle.generation_pick.specs.Picks.{IsPicked};
ghost use Rattle.container.specs.declared.missing.Missing.{Missing as Lacking};
ghost use Rattle.container.specs.Lacking.{AreMissing};
ghost use Rattle.container.specs.Seen.{AreSound};
ghost use Rattle.container.specs.Steps.{is_ready};
ghost use Rattle.container.specs.Verdicts.{GoesOn, IsVerdict, IsVerdictBy, full_size as size_in_full};

use crate::entries::entries;
use crate::missing::{Missing, missing_of};
use crate::opening::{full_size, open};
use crate::seen::Seen;
use crate::verdict::{AssembleFault, Verdict};
use crate::volume::{VolumeVerdict, is_any_started, verdicts_of};
use generation_pick::{FoundAt, Pick, pick};
use imsm_codec::MpbRef;
use std::alloc::{AllocError, Global};
use units::{FIRST_GENERATION_REFUSED, MAX_BLOCK_BYTES};

/// The entry that was picked.
fn picked<'a, 'b>(list: &'b [FoundAt<'a>], pick: &Pick) -> &'b FoundAt<'a>
    requires { IsPicked list.now pick.now }
    ensures there { Contains list.now result.now }
    ensures disk { result.now.disk ≡ pick.now.disk }
    ensures generation { generation_at result.now ≡ pick.now.generation }
{
    list.iter()
        .find(|entry| entry.disk == pick.disk && entry.mpb.generation() == pick.generation)
        .unwrap()
}

/// Whether no disk lacks, or a start without them is asked for and a volume starts.
fn is_ready(run: bool, missing: &[Missing], volumes: &[VolumeVerdict]) -> bool
    ensures { result ≡ is_ready run missing.now volumes.now }
{
    missing.is_empty() || run && is_any_started(volumes)
}

/// The verdict by the newest block, which takes so many bytes with all second maps, where it goes on.
fn judge_on(
    alloc: Global,
    mpb: &MpbRef<'_>,
    pick: &Pick,
    seen: &[Seen],
    run: bool,
    size: u16,
) -> Result<Verdict, AllocError>
    requires whole { IsWholeBlock (block_bytes mpb.now) (block_of mpb.now) }
    requires few { length seen.now ≤ 16 }
    requires size { size ≡ size_in_full (block_of mpb.now) }
    requires goes_on { GoesOn (block_bytes mpb.now) pick.now }
    ensures { IfOk result (λ verdict. (missing : List Lacking) × AreMissing seen.now (block_of mpb.now).disks missing
        × IsVerdictBy (block_bytes mpb.now) pick.now seen.now run missing verdict) }
{
    let list = missing_of(mpb, seen);
    let volumes = verdicts_of(mpb, list.as_slice());
    if !is_ready(run, list.as_slice(), volumes.as_slice()) {
        return Ok(Verdict::Waiting {
            family: pick.family,
            generation: pick.generation,
            list,
        });
    }
    Ok(Verdict::Ready(open(alloc, mpb, pick, seen, size, volumes)?))
}

/// The verdict by the newest block.
fn judge_by(
    alloc: Global,
    mpb: &MpbRef<'_>,
    pick: &Pick,
    seen: &[Seen],
    run: bool,
) -> Result<Verdict, AllocError>
    requires whole { IsWholeBlock (block_bytes mpb.now) (block_of mpb.now) }
    requires few { length seen.now ≤ 16 }
    ensures { IfOk result (λ verdict. (missing : List Lacking) × AreMissing seen.now (block_of mpb.now).disks missing
        × IsVerdictBy (block_bytes mpb.now) pick.now seen.now run missing verdict) }
{
    let Pick {
        family,
        generation,
        ..
    } = *pick;
    let size = full_size(mpb);
    if usize::from(size) > MAX_BLOCK_BYTES {
        return Ok(Verdict::Large {
            family,
            generation,
            size,
        });
    }
    if generation >= FIRST_GENERATION_REFUSED {
        return Ok(Verdict::GenerationEnd { family, generation });
    }
    judge_on(alloc, mpb, pick, seen, run, size)
}

/// The verdict on a container by the disks that are there.
fn judge_seen(alloc: Global, seen: &[Seen], run: bool) -> Result<Verdict, AllocError>
    requires sound { AreSound seen.now }
    requires few { length seen.now ≤ 16 }
    ensures { IfOk result (λ verdict. IsVerdict seen.now run verdict) }
{
    let entries = entries(alloc, seen)?;
    match pick(entries.as_slice()) {
        Ok(pick) => {
            let newest = picked(entries.as_slice(), &pick);
            judge_by(alloc, &newest.mpb, &pick, seen, run)
        }
        Err(fault) => Ok(Verdict::Refused(fault)),
    }
}

/// The verdict on a container by the disks that are there, as they were seen, of which there are 16 at most. With `run`
/// it is opened without disks that lack, where a volume starts all the same. Memory is the only fault.
pub fn judge(alloc: Global, seen: &[Seen], run: bool) -> Result<Verdict, AssembleFault>
    requires sound { AreSound seen.now }
    requires few { length seen.now ≤ 16 }
    // By `a_container_has_one_verdict` it is the only one, where no two disks have one serial.
    ensures { IfOk result (λ verdict. IsVerdict seen.now run verdict) }
{
    judge_seen(alloc, seen, run).map_err(|_| AssembleFault::Memory)
}
