//! What is found on a disk.
use imsm_codec::MpbFault;
use thiserror::Error;

/// What is found where a disk's metadata block is looked for.
#[derive(Clone, Copy, Debug, PartialEq, Eq)]
pub enum Found {
    /// A whole block, with a record of the disk that asks for no more sectors than there are.
    Whole,
    /// The disk has fewer than 18 sectors, or its anchor doesn't begin with the signature.
    Blank,
    /// The anchor is signed, and the first condition behind that which fails is this one.
    Torn(StoreFault),
    /// A read failed.
    Unread,
}

/// Why a signed block isn't whole, or isn't the disk's.
#[derive(Clone, Copy, Debug, PartialEq, Eq, Error)]
pub enum StoreFault {
    /// The block isn't whole.
    #[error("{0}")]
    Mpb(MpbFault),
    /// No record has the disk's serial.
    #[error("no record has the disk's serial")]
    NoOwn,
    /// The record that speaks for the disk names so many sectors, and the disk has so many, which are fewer.
    #[error("a disk of {0} sectors by its record has {1}")]
    Small(u64, u64),
}
