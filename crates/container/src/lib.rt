//! The verdict on a container by what was seen of the disks that are there: whether it is refused, waits for disks, or
//! is opened, and what is said of its volumes and its disks then.
//!
//! It owes the verdict of the definitions, where each block that is given as whole is; memory is its only fault. Where
//! no two disks have one serial, that verdict is the only one. It looks at no disk: `assembly` stands on it and reads
//! them.
#![tactic(auto)]

mod entries;
mod judging;
mod law;
mod missing;
mod opening;
mod record;
mod role;
mod seen;
mod verdict;
mod volume;

pub use judging::judge;
pub use law::a_container_has_one_verdict;
pub use missing::{Lack, Missing};
pub use role::DiskRole;
pub use seen::{Seen, SeenAs};
pub use verdict::{AssembleFault, Opening, Verdict};
pub use volume::VolumeVerdict;
