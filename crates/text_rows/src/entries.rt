//! Rows of journals: the line of an entry that is named by its parts.
use crate::row::Row;
use array_model::{Answer, DeclinedKind, Entry, Event};
use journal_text::line_of;
use std::io;
use units::{DiskNo, Sector, VolNo};

/// The sector that a write of this value brings: its bytes, again and again.
fn repeated(value: u64) -> Sector {
    let mut sector = Sector([0; 512]);
    for (i, byte) in sector.0.iter_mut().enumerate() {
        *byte = value.to_be_bytes()[i % 8];
    }
    sector
}

/// A sector of zeros but for its last byte, so that it repeats nothing.
fn ended_by(last: u8) -> Sector {
    let mut sector = Sector([0; 512]);
    sector.0[511] = last;
    sector
}

/// The value of 16 hexadecimal digits.
fn value_of(digits: &str) -> u64 {
    u64::from_str_radix(digits, 16).unwrap_or(0)
}

fn answer_of(row: &mut Row<'_>) -> Option<Answer> {
    Some(match row.word() {
        "Done" => Answer::Done,
        "Past" => Answer::Past,
        "Failed" => Answer::Failed,
        "NoSpare" => Answer::NoSpare,
        "Value" => Answer::Value(repeated(value_of(row.word()))),
        "EndedBy" => Answer::Value(ended_by(row.byte())),
        _ => return None,
    })
}

fn declined_kind_of(word: &str) -> Option<DeclinedKind> {
    Some(match word {
        "Stale" => DeclinedKind::Stale,
        "NotSpare" => DeclinedKind::NotSpare,
        "Full" => DeclinedKind::Full,
        "Large" => DeclinedKind::Large,
        "NoVolume" => DeclinedKind::NoVolume,
        "Name" => DeclinedKind::Name,
        "NoDisk" => DeclinedKind::NoDisk,
        "Member" => DeclinedKind::Member,
        "Small" => DeclinedKind::Small,
        "NotFailed" => DeclinedKind::NotFailed,
        "InUse" => DeclinedKind::InUse,
        _ => return None,
    })
}

fn volume_event_of(kind: &str, row: &mut Row<'_>) -> Option<Event> {
    let v = VolNo(row.byte());
    Some(match kind {
        "Ready" => Event::Ready(v),
        "Pass" => Event::Pass(v, row.number()),
        "Point" => Event::Point(v, row.number()),
        "PassEnd" => Event::PassEnd(v),
        "Active" => Event::Active(v),
        "Clean" => Event::Clean(v),
        "Pending" => Event::Pending(v),
        "Idle" => Event::Idle(v),
        _ => return None,
    })
}

fn disk_event_of(kind: &str, row: &mut Row<'_>) -> Option<Event> {
    let d = DiskNo(row.byte());
    Some(match kind {
        "Spare" => Event::Spare(d),
        "Unblock" => Event::Unblock(d),
        "Fault" => Event::Fault(d),
        _ => return None,
    })
}

fn other_event_of(kind: &str, row: &mut Row<'_>) -> Option<Event> {
    Some(match kind {
        "Begin" => Event::Begin(row.short()),
        "End" => Event::End(row.short()),
        "Posted" => Event::Posted(row.number()),
        "Applied" => Event::Applied(row.number()),
        "Declined" => Event::Declined(row.number(), declined_kind_of(row.word())?),
        "Submit" => Event::Submit(row.number()),
        "Ack" => Event::Ack(row.number(), answer_of(row)?),
        "Kill" => Event::Kill,
        "Takeover" => Event::Takeover,
        _ => return None,
    })
}

/// The event of a row: the name of its kind, and its numbers and names.
fn event_of(row: &mut Row<'_>) -> Option<Event> {
    match row.word() {
        "volume" => volume_event_of(row.word(), row),
        "disk" => disk_event_of(row.word(), row),
        kind => other_event_of(kind, row),
    }
}

/// Prints the line of an entry.
pub(crate) fn answer_entry(rt: &HostRuntime, row: &mut Row<'_>) -> io::Result<()> {
    let stamp = row.number();
    let Some(event) = event_of(row) else {
        return println!(rt; "no entry");
    };
    let line = line_of(&Entry { stamp, event });
    match str::from_utf8(line.as_slice()) {
        Ok(text) => print!(rt; "{text}"),
        Err(_) => println!(rt; "no text"),
    }
}
