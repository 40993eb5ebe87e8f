//! The line of an entry.
ghost use Rattle.std.specs.Prelude.{◌≡◌};
ghost use Rattle.journal_text.specs.Lines.{entry_line};

use crate::pieces::{Line, push_bytes, push_digits};
use crate::words::push_event;
use array_model::Entry;
use arrayvec::ArrayVec;

/// The line of an entry: its stamp, its words and a line feed. Numbers are decimal, the bytes of a sector hexadecimal.
/// Takes no memory.
pub fn line_of(entry: &Entry) -> Line
    ensures { result.items ≡ entry_line entry.now }
{
    let mut line = ArrayVec::new();
    push_digits(&mut line, entry.stamp);
    push_event(&mut line, &entry.event);
    push_bytes(&mut line, b"\n");
    line
}
