//! The metadata block of a new container: what can be made over disks, the block's bytes, and that its volumes start.
//!
//! It owes the block of the definition, byte for byte; that it is whole, and each of its disks by it; and that its
//! volumes are those that were asked for, supported, clean and in sync. Memory is its only fault.
//!
//! `image_words` asks it whether volumes fit so many images; `image_create` lays its block down.
#![tactic(auto)]

mod block;
mod bytes;
mod container;
mod disk;
mod law;
mod parts;
mod volume;

pub use block::new_block;
pub use container::NewContainer;
pub use disk::NewDisk;
pub use law::{created_blocks_are_whole, created_volumes_start, example_of_a_new_mirror};
pub use volume::NewVolume;
