//! Why a volume isn't supported.
use thiserror::Error;
use units::{Slot, VolNo};

/// Why there is no view of a volume: the first of these conditions that holds. What is read of a map is read of the
/// first one, unless the text says otherwise.
#[derive(Clone, Copy, Debug, PartialEq, Eq, Error)]
pub enum VolumeFault {
    /// The byte of the level and the number of members, which don't go together here.
    #[error("level {0} with {1} members")]
    Level(u8, u8),
    /// The policy for write holes, which is neither 0 nor 5.
    #[error("policy {0}")]
    Policy(u8),
    /// The type of an open pass, which is neither 0, 1, 2 nor 5.
    #[error("a migration of type {0}")]
    Migration(u8),
    /// The first slot whose index isn't in the disk table, or is that of an earlier slot.
    #[error("the disk index of slot {}", (.0).0)]
    DiskIndex(Slot),
    /// The size, the strip or the rows are out of range, a member's disk is too small by its record, or the second map
    /// lies otherwise than the first.
    #[error("geometry")]
    Geometry,
    /// The first volume that takes sectors of this one on a disk of both.
    #[error("an overlap with volume {}", (.0).0)]
    Overlap(VolNo),
}
