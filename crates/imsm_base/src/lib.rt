//! The numbers in IMSM metadata, and in `specs/` what a whole metadata block is, the words of its volumes, the first
//! form of a container, and edits by their meaning.
//!
//! It owes that bytes spell one block at most, so that each definition over a block's parts is one over its bytes; a
//! container written out byte by byte, which is whole and of the first form; and reads and writes of little-endian
//! numbers.
//!
//! Each crate that reads, makes or edits a block stands on it, and `block_meaning` ties the laws of a run to it.
#![tactic(auto)]

mod number;
mod parts;
mod ranges;
mod values;
mod vector;

pub use number::{get_u16, get_u32, put_u16, put_u32};
pub use parts::parts_are_determined;
pub use ranges::ranges_meet_in_a_sector;
pub use values::{CHECKPOINT_SIGNATURE, INDEX_RANGE, LOG_SIGNATURE};
pub use vector::{example_of_a_torn_block, example_of_a_whole_block};
