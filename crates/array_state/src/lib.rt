//! The array states of a volume as the kernel has them, their words, and which follows which.
//!
//! It owes that a state goes on by the kernel's table and no other way, that each state has its word, and that a word
//! is read as the state that has it. Where the whole machine of `array_machine` writes a word to a state, the table has
//! that entry. The files of a volume stand on it.
#![tactic(auto)]

mod law;
mod state;
mod words;

pub use law::{the_table_has_each_step, words_are_read_back};
pub use state::{ArrayState, Cause, next};
pub use words::{state_of, word_of};
