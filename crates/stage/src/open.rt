//! How a stage is opened.
ghost use Rattle.std.specs.Prelude.{◌≡◌, IfOk};
ghost use Rattle.imsm_codec.specs.Mpb.{block_bytes};
ghost use Rattle.control_state.specs.declared.plan.Plan.{Plan as PlanSeen};
ghost use Rattle.control_state.specs.Begins.{begins_at};
ghost use Rattle.control_state.specs.Book.{IsBook, IsBlockOf, laid_at};
ghost use Rattle.control_state.specs.Controls.{control_of};

use array_model::{Op, Script};
use arrayvec::ArrayVec;
use control_state::{Book, Control, Plan};
use imsm_codec::MpbRef;
use std::alloc::Global;
use thiserror::Error;
use units::{DiskNo, MAX_DISKS, Sector};

/// Why a stage wasn't opened.
#[derive(Clone, Copy, Debug, PartialEq, Eq, Error)]
pub enum StageFault {
    #[error("out of memory")]
    Memory,
}

/// What was found on the disks of a bank: the newest block, and the sector that it was read from, whatever follows the
/// block there; the disks that it expects in the order of their numbers; the disks of its volume in the order of its
/// slots; the first sector of the volume on each, and its size in sectors.
#[derive(Drop)]
pub struct Opening<'a> {
    pub block: MpbRef<'a>,
    pub newest: Sector,
    pub targets: ArrayVec<DiskNo, MAX_DISKS>,
    pub members: ArrayVec<DiskNo, MAX_DISKS>,
    pub pba: u64,
    pub size: u64,
}

/// The operations of a script, in memory of their own.
fn ops_of(alloc: Global, script: &Script) -> Result<Vec<Op>, StageFault>
    ensures { IfOk result (λ ops. ops.items ≡ script.now.ops) }
{
    let ops = script.ops();
    let mut copy = Vec::with_capacity(alloc, ops.len()).map_err(|_| StageFault::Memory)?;
    copy.extend_from_slice(ops).map_err(|_| StageFault::Memory)?;
    Ok(copy)
}

/// The plan of a run over what was found.
pub(crate) fn plan_of(
    alloc: Global,
    opening: Opening<'_>,
    script: &Script,
) -> Result<Plan, StageFault>
    ensures { IfOk result (λ p. (p.ops.items ≡ script.now.ops) × (p.targets.items ≡ opening.entry.targets.items)
        × (p.members.items ≡ opening.entry.members.items) × (p.pba ≡ opening.entry.pba)
        × (p.size ≡ opening.entry.size)) }
{
    let ops = ops_of(alloc, script)?;
    Ok(Plan {
        ops,
        targets: opening.targets,
        members: opening.members,
        pba: opening.pba,
        size: opening.size,
    })
}

/// Where a run begins over a block that was read from a sector.
pub(crate) fn control_at(
    alloc: Global,
    block: &MpbRef<'_>,
    newest: Sector,
) -> Result<Control, StageFault>
    requires book { IsBook (block_bytes block.now) }
    requires newest { IsBlockOf newest (block_bytes block.now) }
    ensures { IfOk result (λ c. (p : PlanSeen) → control_of p c ≡ begins_at p (laid_at newest)) }
{
    let Ok(book) = Book::copy_of(alloc, block, newest) else {
        return Err(StageFault::Memory);
    };
    let Ok(spare) = Book::copy_of(alloc, block, newest) else {
        return Err(StageFault::Memory);
    };
    Ok(Control::open(book, spare))
}
