//! Edits of a metadata block by what they mean for its volumes: each makes its change, and then the states of a started
//! volume's maps are what its slots and its pass say.
//!
//! It owes that an edit is the one that the definitions name and changes nothing else. No command stands on it yet: a
//! replay edits a block's generation and dirty bit alone (`control_state`).
#![tactic(auto)]

mod facts;
mod failures;
mod marks;
mod passes;
mod slots;
mod states;

pub use facts::EditFacts;
pub use failures::mark_failed;
pub use marks::{mark_clean, mark_dirty, mark_point};
pub use passes::{mark_in_sync, start_edit, start_pass};
