//! What is wrong with a metadata block on a disk, as words of a line.
//!
//! It owes the words of each fault. `image_examine` and `verdict_text` print by it.
#![tactic(auto)]

mod words;

pub use words::push_fault;
