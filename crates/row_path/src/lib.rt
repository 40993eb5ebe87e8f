//! The job of one row for a client, at levels one, five and ten: which slots it reads, writes and syncs, each in the
//! order of the slots, what stands in a sector that it writes, and what the failure of a member does to it.
//!
//! It owes that each of its functions is the one of `array_machine` for row jobs, on every machine's row that a job
//! stands for. It makes no call and takes no memory; of what was read it keeps the sum alone. The row's lock, and which
//! disks the slots had at the first call, are the caller's. Stages of whole arrays stand on it.
#![tactic(auto)]

mod feed;
mod job;
mod members;
mod need;
mod plan;
mod sector;
mod slots;

pub use job::{JobKind, Need, Plan, RowJob};
pub use members::{Fed, MemberFact, Members};
pub use slots::Slots;
