//! The status of a command, and how it ends.
ghost use Rattle.std.specs.Prelude.{◌≡◌, OnOk, OnErr};
ghost use Rattle.image_outside.specs.declared.status.TheConstants.Status.{MEMORY, WRITE_FAULT};
ghost use Rattle.image_outside.specs.Endings.{Ends, EndsWithoutMemory, Prints};
ghost use Rattle.image_outside.specs.Views.{sink_told};

use crate::outside::{Sink, write_all};
use member_bank::Failed;

/// The status of a command. No command gives 11 or 12 yet.
#[derive(Clone, Copy, Debug, PartialEq, Eq)]
pub struct Status(pub u8);

impl Status {
    /// The command is done.
    pub const DONE: Status = Status(0);
    /// The words are not in the grammar.
    pub const WORDS: Status = Status(1);
    /// A disk of the container is absent.
    pub const WAITING: Status = Status(2);
    /// What is asked can't be had of the images: an operation names a volume that isn't there, an image is too small
    /// for the container, or no whole block is found.
    pub const REFUSED: Status = Status(3);
    /// A line of the script isn't in the grammar.
    pub const SCRIPT: Status = Status(4);
    /// The script couldn't be read.
    pub const READ_FAULT: Status = Status(5);
    /// A line couldn't be written.
    pub const WRITE_FAULT: Status = Status(6);
    /// An image couldn't be opened.
    pub const OPEN_FAULT: Status = Status(7);
    /// The journal is full.
    pub const JOURNAL_FULL: Status = Status(8);
    /// There was no memory.
    pub const MEMORY: Status = Status(9);
    /// A limit is passed.
    pub const LIMIT: Status = Status(10);
    /// A call on a disk failed.
    pub const MEMBER_FAULT: Status = Status(13);
    /// An image isn't of the form that is started today.
    pub const UNBUILT: Status = Status(14);
}

/// The status where all lines were written, or that of a write fault.
pub fn status_after(written: Result<(), Failed>, status: Status) -> Status
    ensures ok { OnOk written (result ≡ status) }
    ensures err { OnErr written (result.0 ≡ WRITE_FAULT.0) }
{
    match written {
        Ok(()) => status,
        Err(Failed) => Status::WRITE_FAULT,
    }
}

/// Ends with a status and its lines, or with a write fault where they can't be written.
pub fn end<K: Sink>(sink: &mut K, lines: &[u8], status: Status) -> Status
    ensures { Ends (sink_told K.Sink sink.old) (sink_told K.Sink sink.new) (Prints lines.now status.0) result.0 }
{
    status_after(write_all(sink, lines), status)
}

/// Ends without memory, also where that can't be written.
pub fn end_without_memory<K: Sink>(sink: &mut K) -> Status
    ensures status { result.0 ≡ MEMORY.0 }
    ensures line { EndsWithoutMemory (sink_told K.Sink sink.old) (sink_told K.Sink sink.new) }
{
    let _ = write_all(sink, b"memory\n");
    Status::MEMORY
}
