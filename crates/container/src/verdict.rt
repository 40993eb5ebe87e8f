//! What is said of a container.
ghost use Rattle.std.specs.Prelude.{◌≡◌};
ghost use Rattle.container.specs.Volumes.{is_any_started};

use crate::missing::Missing;
use crate::role::DiskRole;
use crate::volume::{VolumeVerdict, is_any_started};
use arrayvec::ArrayVec;
use generation_pick::PickFault;
use imsm_buffer::MpbBuf;
use thiserror::Error;
use units::{MAX_DISKS, MAX_VOLUMES};

/// What is said of a container by the disks that are there: the first of these that holds.
#[derive(Drop)]
pub enum Verdict {
    /// No block is the newest.
    Refused(PickFault),
    /// The newest block, of this family and generation, would take so many bytes with a second map for each volume,
    /// which is more than 8,192.
    Large {
        family: u32,
        generation: u32,
        size: u16,
    },
    /// The newest block's generation is one of the last, 0xFF000000 or more.
    GenerationEnd {
        family: u32,
        generation: u32,
    },
    /// Disks that the newest block expects lack, in the order of its table. Where a start without them was asked for,
    /// no volume would start.
    Waiting {
        family: u32,
        generation: u32,
        list: ArrayVec<Missing, MAX_DISKS>,
    },
    /// The container is opened.
    Ready(Opening),
}

/// A container that is opened: its newest block, in room for a second map of each volume; its family and generation;
/// what is said of each volume; and the role of each disk, in the order of the disks.
#[derive(Drop)]
pub struct Opening {
    pub book: MpbBuf,
    pub family: u32,
    pub generation: u32,
    pub volumes: ArrayVec<VolumeVerdict, MAX_VOLUMES>,
    pub disks: ArrayVec<DiskRole, MAX_DISKS>,
}

impl Opening {
    /// Whether a volume starts.
    pub fn starts(&self) -> bool
        ensures { result ≡ is_any_started self.now.volumes.items }
    {
        is_any_started(self.volumes.as_slice())
    }
}

/// Why there is no verdict.
#[derive(Clone, Copy, Debug, PartialEq, Eq, Error)]
pub enum AssembleFault {
    #[error("out of memory")]
    Memory,
}
