//! The outside of a command as traits, the same in memory, and how a command ends: `Shelf` (where disks come from),
//! `Source` (where a script comes from), `Sink` (where lines go), `Status`. Lines of words are written without memory.
//!
//! It owes that a command's end is told as it is: all of its lines were written and the status is theirs, or a front
//! of them and status 6, or `memory` and status 9. A source is read to its end, and never past its limit by more than
//! one byte.
//!
//! Each command stands on it, and `imsm_tool` has the real shelf, source and sink.
#![tactic(auto)]

mod line;
mod memory;
mod name;
mod outside;
mod shelf;
mod source;
mod status;

pub use line::{end_line, write_line};
pub use memory::{MemFault, MemSink, MemSource};
pub use outside::{Shelf, ShelfFault, Sink, Source, write_all};
pub use shelf::{MemFile, MemShelf};
pub use source::{MAX_SOURCE_BYTES, SourceFault, read_all};
pub use status::{Status, end, end_without_memory, status_after};
