//! The control state of a stage, and what a turn does to it: the state of the volume, the rounds and their blocks, the
//! clients and their row jobs. No device stands here, and nothing takes memory.
//!
//! It owes that each of its functions is one of `stage_machine`, seen in the code's types; also whether an actor has
//! anything to do. `stage` stands on it and makes the calls.
#![tactic(auto)]

mod book;
mod client;
mod control;
mod event;
mod job;
mod open;
mod plan;
mod round;
mod state;
mod still;
mod submit;

pub use book::Book;
pub use client::{Client, has_write, is_locked, next_op, read_of};
pub use control::Control;
pub use event::{Events, ShortEvent};
pub use job::{JobStep, Need, Work};
pub use plan::Plan;
pub use round::{Ask, Phase, Round, Step};
pub use state::{Move, State, decide};
