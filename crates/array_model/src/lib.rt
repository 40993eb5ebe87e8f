//! The vocabulary of a run, its script and its journal, and in `specs/` the laws of a run: definitions over a journal,
//! a log of device calls and the opening, that name no state of the code.
//!
//! It owes that scripts and journals are seen by contracts as plain lists, and that a journal takes all its memory
//! when it is made. Each law has an example here: a short run that meets it, and ones that don't. They are proved, not
//! run.
//!
//! `stage_machine` and the crates of the laws prove each law of the machine's runs; `run_script` reads a script,
//! `stage` fills a journal, `journal_text` spells it.
#![tactic(auto)]

mod examples;
mod failure_examples;
mod journal;
mod script;

pub use examples::{
    example_of_the_answer_law, example_of_the_causes, example_of_the_failure_law,
    example_of_the_journal_form, example_of_the_rest, example_of_the_rounds,
    example_of_the_row_calls, example_of_the_write_gate,
};
pub use failure_examples::{
    example_of_a_checkpoint, example_of_a_disk_that_counts_out, example_of_a_parity_write,
    example_of_a_round_that_keeps, example_of_a_spare, example_of_an_activation,
    example_of_blocks_of_two_sectors, example_of_broken_volumes, example_of_no_spare,
    example_of_passes_and_points, example_of_reads_in_sync, example_of_whole,
};
pub use journal::{Answer, DeclinedKind, Entry, Event, Journal, JournalFault};
pub use script::{Ask, Op, OpKind, Script, Turn};
