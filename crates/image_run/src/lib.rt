//! The command: its words are read, its images opened, and what the words ask for is done and printed.
//!
//! It owes one clause, on `image_main`: what it finds outside, the words and the status lead to what it leaves there
//! (`docs/PROMISE.md` reads it as a page). `imsm_tool` is this call over files, standard input and standard output.
#![tactic(auto)]

mod assembling;
mod command;
mod creating;
mod examining;
mod opening;
mod replaying;
mod script;

pub use command::image_main;
pub use image_outside::{
    MAX_SOURCE_BYTES, MemFault, MemFile, MemShelf, MemSink, MemSource, Shelf, ShelfFault, Sink,
    Source, SourceFault, Status, end_without_memory, read_all,
};
pub use script::ScriptStop;
