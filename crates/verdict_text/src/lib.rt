//! The lines of a verdict on a container, and the status with which it is printed.
//!
//! It owes each line as a function of the verdict and of the disks' serials.
#![tactic(auto)]

mod disks;
mod refusals;
mod status;
mod text;
mod volumes;

pub use status::status_of;
pub use text::verdict_text;
