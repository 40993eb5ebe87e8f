//! The assembly of a container whose disks arrive one by one: each is looked at when it arrives, and the verdict on all
//! that have arrived is given.
//!
//! It owes that a disk is looked at once, when it arrives, and nothing else is done; that what was seen is kept in the
//! order of the disks' numbers, whatever the order of arrival, so that the verdict doesn't depend on it; that the
//! verdict is the one of `container` on what was seen of all that have arrived; and that a refusal leaves them as they
//! were. A disk that has arrived is refused, and each one once the container was opened; else memory is the only
//! fault.
#![tactic(auto)]

mod adding;
mod arrivals;
mod fault;
mod law;

pub use arrivals::Arrivals;
pub use fault::AddFault;
pub use law::the_order_of_arrival_is_lost;
