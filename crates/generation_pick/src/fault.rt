//! Why no block of a list is picked.
use thiserror::Error;
use units::DiskNo;

/// Why no block of a list is picked: the first of these conditions that holds.
#[derive(Clone, Copy, Debug, PartialEq, Eq, Error)]
pub enum PickFault {
    /// The list is empty.
    #[error("no block")]
    None,
    /// Blocks of two families: that of the first entry, and the first other one behind it.
    #[error("blocks of the families {0:08x} and {1:08x}")]
    Families(u32, u32),
    /// Two disks whose blocks have one generation and other bytes: the least such disk, and the least that differs
    /// from it.
    #[error("unequal blocks of one generation on disks {} and {}", (.0).0, (.1).0)]
    Twins(DiskNo, DiskNo),
}
