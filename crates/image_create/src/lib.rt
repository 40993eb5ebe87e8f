//! A container is made over new disks: its block is laid down on each, behind zeros.
//!
//! It owes the calls of one list, in their order, as far as they went through: zeros on the rows of every disk, then
//! the block on each; what then stands at each place; that a disk that is too small is named before any call; and that
//! status 13 names a disk whose count of faults rose. `image_run` stands on it.
#![tactic(auto)]

mod creating;
mod laying;
mod room;

pub use creating::create;
