//! Lines of words.
ghost use Rattle.std.specs.Prelude.{◌≤◌, OnOk, OnErr};
ghost use Rattle.std.specs.List.{flat_map};
ghost use Rattle.image_outside.specs.Outside.{Adds};
ghost use Rattle.image_outside.specs.Endings.{Ends, Prints};
ghost use Rattle.image_outside.specs.Views.{sink_told, WriteBreaksOff};
ghost use Rattle.imsm_text.specs.Text.{line, spaced, word_text, words_text};
ghost use Rattle.image_outside.specs.Lines.{spaced_text};

use crate::name::write_name;
use crate::{Sink, Status, status_after, write_all};
use imsm_text::{Word, digits_of_number};
use itoa::Buffer;
use member_bank::Failed;

/// Writes a word.
fn write_word<K: Sink>(sink: &mut K, word: &Word<'_>) -> Result<(), Failed>
    ensures ok { OnOk result (Adds (K.written sink.old) (K.written sink.new) (word_text word.now)) }
    ensures err { OnErr result (WriteBreaksOff K.Sink sink.old sink.new (word_text word.now)) }
    ensures later { K.faults_of sink.old ≤ K.faults_of sink.new }
{
    match word {
        Word::Plain(bytes) => write_all(sink, bytes),
        Word::Number(value) => write_all(sink, Buffer::new().format(*value).as_bytes()),
        Word::Hex(value) => write_all(sink, &digits_of_number(*value)),
        Word::Name(bytes) => write_name(sink, bytes),
    }
}

/// Writes a word with a space before it.
fn write_spaced<K: Sink>(sink: &mut K, word: &Word<'_>) -> Result<(), Failed>
    ensures ok { OnOk result (Adds (K.written sink.old) (K.written sink.new) (spaced_text word.now)) }
    ensures err { OnErr result (WriteBreaksOff K.Sink sink.old sink.new (spaced_text word.now)) }
    ensures later { K.faults_of sink.old ≤ K.faults_of sink.new }
{
    write_all(sink, b" ")?;
    write_word(sink, word)
}

/// Writes words with a space before each.
fn write_words<K: Sink>(sink: &mut K, words: &[Word<'_>]) -> Result<(), Failed>
    ensures ok { OnOk result (Adds (K.written sink.old) (K.written sink.new) (flat_map spaced_text words.now)) }
    ensures err { OnErr result (WriteBreaksOff K.Sink sink.old sink.new (flat_map spaced_text words.now)) }
    ensures later { K.faults_of sink.old ≤ K.faults_of sink.new }
{
    for word in words {
        write_spaced(sink, word)?;
    }
    Ok(())
}

/// Writes a line: its first word as it is, then words with a space before each, and a line feed.
pub fn write_line<K: Sink>(sink: &mut K, first: &[u8], words: &[Word<'_>]) -> Result<(), Failed>
    ensures ok { OnOk result (Adds (K.written sink.old) (K.written sink.new) (line first.now (words_text words.now))) }
    ensures err { OnErr result (WriteBreaksOff K.Sink sink.old sink.new (line first.now (words_text words.now))) }
    ensures later { K.faults_of sink.old ≤ K.faults_of sink.new }
{
    write_all(sink, first)?;
    write_words(sink, words)?;
    write_all(sink, b"\n")
}

/// Ends with a status and a line, or with a write fault where it can't be written.
pub fn end_line<K: Sink>(sink: &mut K, first: &[u8], words: &[Word<'_>], status: Status) -> Status
    ensures { Ends (sink_told K.Sink sink.old) (sink_told K.Sink sink.new)
        (Prints (line first.now (words_text words.now)) status.0) result.0 }
{
    status_after(write_line(sink, first, words), status)
}
