//! The text of a journal: a line for each entry, written without memory. `specs/` says what the line of an entry is.
//!
//! It owes that line, byte for byte, and that two journals with one text are one journal. `image_replay` prints by it.
#![tactic(auto)]

mod law;
mod line;
mod pieces;
mod value;
mod words;

pub use law::{example_of_a_text, lines_spell_one_journal};
pub use line::line_of;
pub use pieces::{LINE_BYTES, Line};
