//! Blocks that were found on disks.
use imsm_codec::MpbRef;
use units::DiskNo;

/// A whole block, and the disk that it was found on.
#[derive(Clone, Copy)]
pub struct FoundAt<'a> {
    pub disk: DiskNo,
    pub mpb: MpbRef<'a>,
}

/// The newest block of a list: the least disk that holds it, its generation, and the number of its family.
#[derive(Clone, Copy, Debug, PartialEq, Eq)]
pub struct Pick {
    pub disk: DiskNo,
    pub generation: u32,
    pub family: u32,
}
