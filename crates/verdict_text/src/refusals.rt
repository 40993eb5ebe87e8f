//! The lines of a container that isn't opened.
ghost use Rattle.std.specs.Prelude.{◌≡◌, ◌∷◌, ◌++◌, [], codes, OnOk};
ghost use Rattle.std.specs.List.{flat_map};
ghost use Rattle.std.specs.Fmt.{decimal};
ghost use Rattle.imsm_text.specs.Text.{serial_text, spaced};
ghost use Rattle.verdict_text.specs.Lines.{disk_name, family_line, lack_words, pick_words, refused_line, waiting_line};

use container::{Lack, Missing};
use fault_text::push_fault;
use generation_pick::PickFault;
use imsm_text::{Word, push_line, push_words};
use std::alloc::AllocError;
use units::{DiskNo, SERIAL_BYTES, Serial};

/// The serial of a disk.
fn serial_of(serials: &[Serial], d: DiskNo) -> Serial
    ensures { serial_text result ≡ disk_name serials.now d.0 }
{
    match serials.get(usize::from(d.0)) {
        Some(serial) => *serial,
        None => Serial([0; SERIAL_BYTES]),
    }
}

/// Appends the line of the newest block.
pub(crate) fn push_family(out: &mut Vec<u8>, family: u32, generation: u32) -> Result<(), AllocError>
    ensures { OnOk result (out.new.items ≡ out.old.items ++ family_line family generation) }
{
    let words = [
        Word::Hex(family),
        Word::Plain(b"generation"),
        Word::Number(u64::from(generation)),
    ];
    push_line(out, b"family", &words)
}

/// Appends the line of a refusal with one number.
pub(crate) fn push_number_refused(
    out: &mut Vec<u8>,
    word: &[u8],
    number: u64,
) -> Result<(), AllocError>
    ensures { OnOk result (out.new.items ≡ out.old.items ++ refused_line (word.now ∷ decimal number ∷ [])) }
{
    push_line(out, b"refused", &[Word::Plain(word), Word::Number(number)])
}

/// Appends the line of disks of which no block is the newest.
pub(crate) fn push_refused(
    out: &mut Vec<u8>,
    serials: &[Serial],
    fault: PickFault,
) -> Result<(), AllocError>
    ensures { OnOk result (out.new.items ≡ out.old.items ++ refused_line (pick_words serials.now fault)) }
{
    match fault {
        PickFault::None => push_line(out, b"refused", &[Word::Plain(b"none")]),
        PickFault::Families(a, b) => {
            let words = [Word::Plain(b"families"), Word::Hex(a), Word::Hex(b)];
            push_line(out, b"refused", &words)
        }
        PickFault::Twins(d, e) => {
            let first = serial_of(serials, d);
            let second = serial_of(serials, e);
            let words = [
                Word::Plain(b"twins"),
                Word::Name(&first.0),
                Word::Name(&second.0),
            ];
            push_line(out, b"refused", &words)
        }
    }
}

/// Appends the words of why a disk lacks.
fn push_lack(out: &mut Vec<u8>, cause: Lack) -> Result<(), AllocError>
    ensures { OnOk result (out.new.items ≡ out.old.items ++ flat_map spaced (lack_words cause)) }
{
    match cause {
        Lack::Absent => push_words(out, &[Word::Plain(b"absent")]),
        Lack::Blank => push_words(out, &[Word::Plain(b"blank")]),
        Lack::Spare => push_words(out, &[Word::Plain(b"spare")]),
        Lack::Unread => push_words(out, &[Word::Plain(b"unread")]),
        Lack::Torn(fault) => {
            push_words(out, &[Word::Plain(b"torn")])?;
            push_fault(out, fault)
        }
    }
}

/// Appends the line of a disk that lacks.
fn push_waiting(out: &mut Vec<u8>, missing: &Missing) -> Result<(), AllocError>
    ensures { OnOk result (out.new.items ≡ out.old.items ++ waiting_line missing.now) }
{
    out.extend_from_slice(b"waiting")?;
    push_words(out, &[Word::Name(&missing.serial.0)])?;
    push_lack(out, missing.cause)?;
    out.push(b'\n')?;
    Ok(())
}

/// Appends a line for each disk that lacks.
pub(crate) fn push_all_waiting(out: &mut Vec<u8>, list: &[Missing]) -> Result<(), AllocError>
    ensures { OnOk result (out.new.items ≡ out.old.items ++ flat_map waiting_line list.now) }
{
    for missing in list {
        push_waiting(out, missing)?;
    }
    Ok(())
}
