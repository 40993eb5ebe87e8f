//! The assembly of a container on a bank: its disks are looked at, and the verdict on them is given.
//!
//! It owes that all disks are looked at, each once and in the order of their numbers, and nothing else is done; that
//! each is seen as it stood where the bank tells that; and the verdict of `container` on what was seen. Memory is its
//! only fault.
#![tactic(auto)]

mod assembling;
mod seeing;

pub use assembling::assemble;
pub use seeing::see;
