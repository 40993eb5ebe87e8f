//! The command `incremental` on a bank: its disks arrive one by one, and for each the verdict on all that have arrived
//! is printed, until one opens the container.
//!
//! It owes that each disk that arrives before the container opened is looked at once, in the order of the numbers, and
//! nothing else is done; the line of each disk that arrives and those of the verdict of `container` on it and the disks
//! before it; a line for each disk that comes later; and the status of the last verdict. Both ways where the bank tells
//! it.
#![tactic(auto)]

mod arriving;
mod text;

pub use arriving::print_arrivals;
