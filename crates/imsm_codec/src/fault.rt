//! What is wrong with the bytes of a metadata block.
use thiserror::Error;

/// Why bytes don't begin with a whole metadata block: the first of these conditions that fails. Numbers of bytes are
/// decimal, and indices count from 0.
#[derive(Clone, Copy, Debug, PartialEq, Eq, Error)]
pub enum MpbFault {
    /// So many bytes are given, fewer than the 216 of a header.
    #[error("{0} bytes are less than a header")]
    Short(usize),
    /// The first 24 bytes aren't the signature.
    #[error("not the signature")]
    Signature,
    /// The size in the header is below 216, above 8,192 or no multiple of 4.
    #[error("size {0} is out of range")]
    Size(u32),
    /// The size in the header, and how many bytes are given, which are fewer.
    #[error("size {0}, but {1} bytes")]
    Cut(u32, usize),
    /// The checksum in the header, and that of the block, which is another.
    #[error("checksum {0:08x}, but the sum is {1:08x}")]
    Checksum(u32, u32),
    /// The counts of disks and of volumes in the header: no disks or more than 16, more than 2 volumes, or a disk table
    /// that ends past the block.
    #[error("{0} disks and {1} volumes")]
    Counts(u8, u8),
    /// The indices of the first two expected records with one serial.
    #[error("disks {0} and {1} have one serial")]
    Serials(u8, u8),
    /// The number of the first volume that ends, with its maps, past the block.
    #[error("volume {0} ends past the block")]
    Volume(u8),
    /// The size of the tail in the header: more bytes than there are behind the volumes, or a tail that is neither
    /// empty nor begins with the mark of an empty bad-block log.
    #[error("a tail of {0} bytes")]
    BadBlocks(u32),
}
