//! A stage: a bank, and the control state of a run over it, turn by turn.
//!
//! Its type keeps that a run of the machine leads to it, whose calls are the bank's log, where that is told, behind
//! reads, and that each turn that entered something began with room in the journal. It owes that a turn is one turn of
//! the machine with at most one device call, that each answer of a turn, a drive or a drain has its cause, and that a
//! drain ends. Only opening one takes memory.
//!
//! `stage_law` closes it and hands out the laws; `image_replay` drives it.
#![tactic(auto)]

mod calls;
mod client;
mod drive;
mod ends;
mod monitor;
mod open;
mod stage;
mod turned;

pub use ends::{Cycle, DriveEnd};
pub use open::{Opening, StageFault};
pub use stage::{MAX_CALLS, Stage};
pub use turned::Turned;
