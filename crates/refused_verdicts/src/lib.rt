//! What the promises of `assemble` and `incremental` on a bank refuse: runs that a careless or a lazy program would
//! leave, each with the proof that the promise doesn't admit it, and right ones beside them that it admits. They are
//! proved, not run.
//!
//! The bank tells what stood on its disks when it was opened, and its log. Nothing stands on this crate: it shows of
//! the definitions of a verdict, of what is seen of disks and of the lines that they are not too weak together. A wrong
//! run that is found to be admitted belongs here, once the definitions refuse it.
//!
//! For a bank that tells, the promises leave no choice: its disks and its log tell what is printed, and the status.
//! One thing that may surprise is admitted: with `--run` the first disk that arrives may open the container, whatever
//! stands on those that come behind it.
#![tactic(auto)]

mod arrivals;
mod lines;
mod looks;
mod mirror;
mod openings;
mod order;

pub use arrivals::{
    a_told_bank_has_one_arrival, arrivals_end_as_an_assembly, hasty_openings_are_refused,
    late_looks_are_refused,
};
pub use lines::{stale_verdicts_are_refused, wrong_causes_are_refused, wrong_statuses_are_refused};
pub use looks::{a_told_bank_has_one_assembly, wrong_looks_are_refused};
pub use mirror::{right_arrivals_are_admitted, right_assemblies_are_admitted, the_mirror_is_told};
pub use openings::{
    failed_members_are_refused, heedless_openings_are_refused, mixed_disks_are_refused,
    torn_starts_are_refused,
};
pub use order::the_order_of_words_is_lost;
