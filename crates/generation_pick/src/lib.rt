//! The newest of the metadata blocks that were found on the disks of a container.
//!
//! It owes that one of the highest generation is picked, on the least disk that has one, exactly where all blocks are
//! of one family and no two of one generation differ; and that an error is the first fault, with its families or
//! disks, both ways. It takes no memory. `assembly` stands on it.
#![tactic(auto)]

mod families;
mod fault;
mod found;
mod law;
mod newest;
mod picking;
mod twins;

pub use fault::PickFault;
pub use found::{FoundAt, Pick};
pub use law::picks_and_faults_exclude_one_another;
pub use picking::pick;
