//! A run as a machine without devices, in `specs/`: who takes a turn and how its call ends leads from a control state
//! to the next one, at most one device call and the entries. Its `proofs/` have the facts on its runs that several
//! laws use.
//!
//! It owes a worked run, of one write and one read, whose calls and journal are computed, and whose opening meets all
//! that the laws take as given.
//!
//! Each law crate proves one law of every run of it, by recursion on runs. `control_state` and `stage` owe that their
//! turns are its turns.
#![tactic(auto)]

mod worked;

pub use worked::{one_write_and_one_read, the_worked_setting_opens};
