//! The blocks of containers among those that were seen.
ghost use Rattle.std.specs.Prelude.{◌≡◌, ◌++◌, IfOk, OnOk};
ghost use Rattle.container.specs.Seen.{AreOf, container_by, containers_of, found_of};

use crate::seen::{Seen, SeenAs};
use generation_pick::FoundAt;
use std::alloc::{AllocError, Global};
use units::DiskNo;

/// Appends a disk's block, if it is a container's.
fn push_entry<'a>(
    list: &mut Vec<FoundAt<'a>>,
    disk: DiskNo,
    holds: &'a SeenAs,
) -> Result<(), AllocError>
    ensures { OnOk result (AreOf list.new.items (found_of list.old.items ++ container_by disk.0 holds.now)) }
{
    if let SeenAs::Whole(block) = holds {
        let mpb = block.parts();
        if mpb.volumes() > 0 {
            list.push(FoundAt { disk, mpb })?;
        }
    }
    Ok(())
}

/// The blocks of containers.
pub(crate) fn entries<'a>(alloc: Global, seen: &'a [Seen]) -> Result<Vec<FoundAt<'a>>, AllocError>
    ensures { IfOk result (λ list. AreOf list.items (containers_of seen.now)) }
{
    let mut list = Vec::new(alloc);
    for disk in seen {
        push_entry(&mut list, disk.disk, &disk.holds)?;
    }
    Ok(list)
}
