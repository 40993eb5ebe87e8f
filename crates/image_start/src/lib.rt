//! What a stage is opened with, where the report on images says that their volume starts.
//!
//! It owes that the block, the disks and the place of the volume are those that the laws take of such a bank, and that
//! a stage opens with them. It takes no memory. `image_replay` stands on it.
#![tactic(auto)]

mod block;
mod disks;
mod opening;

pub use opening::opening_of;
