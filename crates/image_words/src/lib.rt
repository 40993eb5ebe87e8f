//! The words of a command: the grammar, and the images that they name.
//!
//! It owes that a command is the one that the words spell and no other, and that words outside the grammar and too
//! many images are told exactly. `image_run` stands on it.
#![tactic(auto)]

mod commands;
mod numbers;
mod verbs;
mod volumes;
mod words;

pub use commands::{Command, parse};
pub use verbs::Verb;
pub use words::{ImageArg, WordsFault, image_of};
