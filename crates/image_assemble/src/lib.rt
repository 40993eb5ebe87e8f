//! The command `assemble` on a bank: the verdict on its disks is printed.
//!
//! It owes that each disk is looked at once, in order, and nothing else is done; and the lines and the status of the
//! verdict of `container` on what was seen, both ways where the bank tells it.
#![tactic(auto)]

mod assembling;

pub use assembling::{print_assembly, serials_of};
