//! Why a block isn't made, or isn't edited.
use thiserror::Error;

/// Why a block wasn't made.
#[derive(Clone, Copy, Debug, PartialEq, Eq, Error)]
pub enum CodecFault {
    #[error("out of memory")]
    Memory,
}

/// A block doesn't fit: the bytes that it has, and those that the room takes.
#[derive(Clone, Copy, Debug, PartialEq, Eq, Error)]
#[error("a block of {needed} bytes in a room of {room}")]
pub struct NoRoom {
    pub needed: u16,
    pub room: u16,
}
