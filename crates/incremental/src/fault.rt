//! Why a disk wasn't added.
use thiserror::Error;
use units::DiskNo;

/// Why a disk wasn't added, or nothing could be begun.
#[derive(Clone, Copy, Debug, PartialEq, Eq, Error)]
pub enum AddFault {
    #[error("out of memory")]
    Memory,
    /// The disk has arrived before.
    #[error("disk {} has arrived before", (.0).0)]
    Twice(DiskNo),
    /// An earlier disk made the container ready.
    #[error("the container has started")]
    Started,
}
