//! The words of an entry.
ghost use Rattle.std.specs.Prelude.{◌≡◌, ◌+◌, ◌<◌, ◌≤◌, ◌∷◌, [], ◌++◌, length};
ghost use Rattle.std.specs.Fmt.{decimal};
ghost use Rattle.arrayvec.specs.ArrayVec.{array_vec_len};
ghost use Rattle.array_model.specs.declared.journal.Event.TheVariants.{Ack, Declined};
ghost use Rattle.journal_text.specs.Lines.{answer_words, event_words, kind_word, spelled};

use crate::pieces::{LINE_BYTES, Line, push_number, push_word};
use crate::value::push_value;
use array_model::{Answer, DeclinedKind, Event};

fn word_of(kind: DeclinedKind) -> &'static [u8]
    ensures value { result.now ≡ kind_word kind }
    ensures short { length result.now ≤ 9 }
{
    match kind {
        DeclinedKind::Stale => b"stale",
        DeclinedKind::NotSpare => b"notspare",
        DeclinedKind::Full => b"full",
        DeclinedKind::Large => b"large",
        DeclinedKind::NoVolume => b"novolume",
        DeclinedKind::Name => b"name",
        DeclinedKind::NoDisk => b"nodisk",
        DeclinedKind::Member => b"member",
        DeclinedKind::Small => b"small",
        DeclinedKind::NotFailed => b"notfailed",
        DeclinedKind::InUse => b"inuse",
    }
}

/// Appends a word and a number.
fn push_counted(line: &mut Line, word: &[u8], number: u64)
    requires { array_vec_len line.old + length word.now + 22 ≤ LINE_BYTES }
    ensures items { line.new.items ≡ line.old.items ++ spelled (word.now ∷ decimal number ∷ []) }
    ensures len { array_vec_len line.new ≤ array_vec_len line.old + length word.now + 22 }
{
    push_word(line, word);
    push_number(line, number);
}

/// Appends a word and two numbers.
fn push_placed(line: &mut Line, word: &[u8], volume: u8, place: u64)
    requires { array_vec_len line.old + length word.now + 43 ≤ LINE_BYTES }
    ensures items { line.new.items ≡ line.old.items ++ spelled (word.now ∷ decimal volume ∷ decimal place ∷ []) }
    ensures len { array_vec_len line.new ≤ array_vec_len line.old + length word.now + 43 }
{
    push_counted(line, word, volume.into());
    push_number(line, place);
}

fn push_declined(line: &mut Line, update: u64, kind: DeclinedKind)
    requires { array_vec_len line.old ≤ 20 }
    ensures items { line.new.items ≡ line.old.items ++ spelled (event_words (Declined update kind)) }
    ensures len { array_vec_len line.new < LINE_BYTES }
{
    push_counted(line, b"declined", update);
    push_word(line, word_of(kind));
}

fn push_answer(line: &mut Line, answer: &Answer)
    requires { array_vec_len line.old + 1031 ≤ LINE_BYTES }
    ensures items { line.new.items ≡ line.old.items ++ spelled (answer_words answer.now) }
    ensures len { array_vec_len line.new ≤ array_vec_len line.old + 1031 }
{
    match answer {
        Answer::Done => push_word(line, b"done"),
        Answer::Value(sector) => {
            push_word(line, b"value");
            push_value(line, sector);
        }
        Answer::Past => push_word(line, b"past"),
        Answer::Failed => push_word(line, b"failed"),
        Answer::NoSpare => push_word(line, b"nospare"),
    }
}

fn push_ack(line: &mut Line, op: u64, answer: &Answer)
    requires { array_vec_len line.old ≤ 20 }
    ensures items { line.new.items ≡ line.old.items ++ spelled (event_words (Ack op answer.now)) }
    ensures len { array_vec_len line.new < LINE_BYTES }
{
    push_counted(line, b"ack", op);
    push_answer(line, answer);
}

/// Appends the words of an event.
pub fn push_event(line: &mut Line, event: &Event)
    requires { array_vec_len line.old ≤ 20 }
    ensures items { line.new.items ≡ line.old.items ++ spelled (event_words event.now) }
    ensures len { array_vec_len line.new < LINE_BYTES }
{
    match event {
        Event::Begin(generation) => push_counted(line, b"begin", u64::from(*generation)),
        Event::End(generation) => push_counted(line, b"end", u64::from(*generation)),
        Event::Spare(disk) => push_counted(line, b"spare", u64::from(disk.0)),
        Event::Ready(volume) => push_counted(line, b"ready", u64::from(volume.0)),
        Event::Pass(volume, row) => push_placed(line, b"pass", volume.0, *row),
        Event::Point(volume, unit) => push_placed(line, b"point", volume.0, *unit),
        Event::PassEnd(volume) => push_counted(line, b"passend", u64::from(volume.0)),
        Event::Active(volume) => push_counted(line, b"active", u64::from(volume.0)),
        Event::Clean(volume) => push_counted(line, b"clean", u64::from(volume.0)),
        Event::Unblock(disk) => push_counted(line, b"unblock", u64::from(disk.0)),
        Event::Posted(update) => push_counted(line, b"posted", *update),
        Event::Applied(update) => push_counted(line, b"applied", *update),
        Event::Declined(update, kind) => push_declined(line, *update, *kind),
        Event::Submit(op) => push_counted(line, b"submit", *op),
        Event::Pending(volume) => push_counted(line, b"pending", u64::from(volume.0)),
        Event::Ack(op, answer) => push_ack(line, *op, answer),
        Event::Idle(volume) => push_counted(line, b"idle", u64::from(volume.0)),
        Event::Fault(disk) => push_counted(line, b"fault", u64::from(disk.0)),
        Event::Kill => push_word(line, b"kill"),
        Event::Takeover => push_word(line, b"takeover"),
    }
}
