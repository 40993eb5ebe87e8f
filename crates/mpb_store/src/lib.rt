//! A metadata block on a disk: how it is written and read, step by step, and what is found there.
//!
//! It owes the order of a write (extended sectors, anchor, sync), and that what is found is, both ways, what stands
//! there: a whole block of this disk, nothing that is signed, the first fault, or a read that failed. Each sector is
//! read at most once. It takes no memory.
//!
//! `image_create` writes by it; `image_examine` and `image_assembly` look by it.
#![tactic(auto)]

mod answer;
mod disk;
mod judge;
mod reading;
mod sectors;
mod writing;

pub use answer::{Found, StoreFault};
pub use disk::found;
pub use reading::{ReadStep, ReadSteps};
pub use sectors::sectors_of;
pub use writing::{Step, WriteSteps};
