//! Metadata blocks that are owned, and edited in place.
//!
//! It owes that an edit changes the field that it names and keeps every other byte, moved with its table where that
//! moves; that it is refused exactly where the new size exceeds the room; and that after `seal` size and checksum are
//! those of a whole block. Only making a block takes memory.
//!
//! Blocks are written from it (`mpb_store`, `image_create`), made in it (`new_container`), and a round's block is an
//! edit of one (`control_state`).
#![tactic(auto)]

mod buffer;
mod bytes;
mod fault;
mod fields;
mod moves;
mod places;
mod record;
mod removal;
mod tables;

pub use buffer::MpbBuf;
pub use fault::{CodecFault, NoRoom};
pub use record::DiskRecord;
