//! The text of a script: operations of clients, and turns.
//!
//! It owes that a script is what its lines ask for, in their order, and that a fault is the first wrong word of the
//! first wrong line, or the limit that this line passes. `image_run` reads what its source gives by it, and
//! `image_replay` takes as given what every script keeps to.
#![tactic(auto)]

mod fault;
mod grammar;
mod law;
mod limits;
mod numbers;
mod order;
mod parse;
mod pieces;

pub use fault::{LimitKind, LineKind, ScriptFault};
pub use law::first_wrong_word;
pub use limits::{MAX_CLIENT, MAX_OPS, MAX_TURNS};
pub use parse::parse_script;
