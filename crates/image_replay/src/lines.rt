//! The lines of a journal. Writing them takes no memory.
ghost use Rattle.std.specs.Prelude.{◌+◌, ◌≤◌, OnOk, OnErr};
ghost use Rattle.arrayvec.specs.ArrayVec.{array_vec_len};
ghost use Rattle.journal_text.specs.Lines.{journal_text};
ghost use Rattle.image_outside.specs.Outside.{Adds};
ghost use Rattle.image_outside.specs.Views.{WriteBreaksOff};
ghost use Rattle.image_replay.specs.Pieces.{AddsFront};

use array_model::Entry;
use arrayvec::ArrayVec;
use image_outside::{Sink, write_all};
use journal_text::line_of;
use member_bank::Failed;

/// Bytes of a piece. A journal has many short lines, and each write may be a call of the system, so that many lines go
/// to the sink at once.
const PIECE_BYTES: usize = 16384;

/// Lines that are still to be written.
type Piece = ArrayVec<u8, PIECE_BYTES>;

/// Makes room for a line: a piece in which fewer bytes are left is written, and is empty then.
fn make_room<K: Sink>(sink: &mut K, piece: &mut Piece, bytes: usize) -> Result<(), Failed>
    requires { bytes ≤ PIECE_BYTES }
    ensures room { OnOk result (array_vec_len piece.new + bytes ≤ PIECE_BYTES) }
    ensures ok { OnOk result (AddsFront (K.written sink.old) (K.written sink.new) piece.old.items piece.new.items) }
    ensures err { OnErr result (WriteBreaksOff K.Sink sink.old sink.new piece.old.items) }
    ensures later { K.faults_of sink.old ≤ K.faults_of sink.new }
{
    if bytes <= piece.remaining_capacity() {
        return Ok(());
    }
    write_all(sink, piece.as_slice())?;
    piece.clear();
    Ok(())
}

/// Writes the lines of a journal, piece by piece.
pub(crate) fn write_journal<K: Sink>(sink: &mut K, entries: &[Entry]) -> Result<(), Failed>
    ensures ok { OnOk result (Adds (K.written sink.old) (K.written sink.new) (journal_text entries.now)) }
    ensures err { OnErr result (WriteBreaksOff K.Sink sink.old sink.new (journal_text entries.now)) }
    ensures later { K.faults_of sink.old ≤ K.faults_of sink.new }
{
    let mut piece = Piece::new();
    for entry in entries {
        let line = line_of(entry);
        make_room(sink, &mut piece, line.len())?;
        piece.try_extend_from_slice(line.as_slice()).unwrap();
    }
    write_all(sink, piece.as_slice())
}
