//! What a line asks for, word by word.
ghost use Rattle.std.specs.Prelude.{◌≡◌};
ghost use Rattle.std.specs.Str.{bytes_eq};
ghost use Rattle.run_script.specs.Forms.{Ends, Digits, Reads, ReadsWord, reading};
ghost use Rattle.run_script.specs.Grammar.{asked_by, client_form, client_turns_form, count, is_skipped, line_form, number, operation_form, quiet_form, read_form, sync_form, turn_form, turns_form, volume, write_form};

use crate::fault::LineKind;
use crate::numbers::{number_of, value_of};
use crate::order::Order;
use crate::pieces::Pieces;
use array_model::{OpKind, Turn};
use units::VolNo;

fn word<'a>(words: &mut Pieces<'a>) -> Result<&'a [u8], LineKind>
    ensures { ReadsWord result words.old words.new }
{
    words.next().ok_or(LineKind::Missing)
}

fn number(words: &mut Pieces<'_>) -> Result<u64, LineKind>
    ensures { Reads number result words.old words.new }
{
    number_of(word(words)?).ok_or(LineKind::Number)
}

fn volume(words: &mut Pieces<'_>) -> Result<VolNo, LineKind>
    ensures { Reads volume result words.old words.new }
{
    match number_of(word(words)?) {
        Some(0) => Ok(VolNo(0)),
        Some(1) => Ok(VolNo(1)),
        _ => Err(LineKind::Number),
    }
}

fn count(words: &mut Pieces<'_>) -> Result<u64, LineKind>
    ensures { Reads count result words.old words.new }
{
    match number_of(word(words)?) {
        None | Some(0) => Err(LineKind::Number),
        Some(count) => Ok(count),
    }
}

fn value(words: &mut Pieces<'_>) -> Result<u64, LineKind>
    ensures { Reads Digits result words.old words.new }
{
    value_of(word(words)?).ok_or(LineKind::Value)
}

/// The order, where the line ends.
fn end(order: Order, words: &mut Pieces<'_>) -> Result<Order, LineKind>
    ensures { result ≡ reading (Ends order) words.old }
{
    match words.next() {
        None => Ok(order),
        Some(_) => Err(LineKind::Word),
    }
}

fn is(word: &[u8], keyword: &str) -> bool
    ensures { result ≡ bytes_eq word.now keyword.now }
{
    word == keyword.as_bytes()
}

fn write_order(client: u64, words: &mut Pieces<'_>) -> Result<Order, LineKind>
    ensures { result ≡ reading (write_form client) words.old }
{
    let kind = OpKind::Write(volume(words)?, number(words)?, value(words)?);
    end(Order::Operation(client, kind), words)
}

fn read_order(client: u64, words: &mut Pieces<'_>) -> Result<Order, LineKind>
    ensures { result ≡ reading (read_form client) words.old }
{
    let kind = OpKind::Read(volume(words)?, number(words)?);
    end(Order::Operation(client, kind), words)
}

fn operation_order(client: u64, words: &mut Pieces<'_>) -> Result<Order, LineKind>
    ensures { result ≡ reading (operation_form client) words.old }
{
    let asked = word(words)?;
    if is(asked, "write") {
        write_order(client, words)
    } else if is(asked, "read") {
        read_order(client, words)
    } else {
        Err(LineKind::Word)
    }
}

fn client_order(words: &mut Pieces<'_>) -> Result<Order, LineKind>
    ensures { result ≡ reading client_form words.old }
{
    let client = number(words)?;
    operation_order(client, words)
}

fn turns_order(turn: Turn, words: &mut Pieces<'_>) -> Result<Order, LineKind>
    ensures { result ≡ reading (turns_form turn) words.old }
{
    let count = count(words)?;
    end(Order::Turns(turn, count), words)
}

fn sync_order(words: &mut Pieces<'_>) -> Result<Order, LineKind>
    ensures { result ≡ reading sync_form words.old }
{
    let turn = Turn::Sync(volume(words)?);
    turns_order(turn, words)
}

fn client_turns_order(words: &mut Pieces<'_>) -> Result<Order, LineKind>
    ensures { result ≡ reading client_turns_form words.old }
{
    let client = number(words)?;
    let count = count(words)?;
    end(Order::ClientTurns(client, count), words)
}

fn quiet_order(words: &mut Pieces<'_>) -> Result<Order, LineKind>
    ensures { result ≡ reading quiet_form words.old }
{
    let turn = Turn::Quiet(volume(words)?);
    end(Order::Turns(turn, 1), words)
}

fn turn_order(words: &mut Pieces<'_>) -> Result<Order, LineKind>
    ensures { result ≡ reading turn_form words.old }
{
    let actor = word(words)?;
    if is(actor, "m") {
        turns_order(Turn::Monitor, words)
    } else if is(actor, "g") {
        turns_order(Turn::Manager, words)
    } else if is(actor, "s") {
        sync_order(words)
    } else if is(actor, "c") {
        client_turns_order(words)
    } else if is(actor, "q") {
        quiet_order(words)
    } else {
        Err(LineKind::Word)
    }
}

fn line_order(words: &mut Pieces<'_>, turns: bool) -> Result<Order, LineKind>
    ensures { result ≡ reading (line_form turns) words.old }
{
    let first = word(words)?;
    if is(first, "client") {
        client_order(words)
    } else if is(first, "turn") {
        if turns {
            turn_order(words)
        } else {
            Err(LineKind::Turns)
        }
    } else {
        Err(LineKind::Word)
    }
}

fn is_skipped(line: &[u8]) -> bool
    ensures { result ≡ is_skipped line.now }
{
    match line.first() {
        None => true,
        Some(byte) => *byte == b'#',
    }
}

/// What a line asks for, if anything, or what is wrong with its first wrong word.
pub fn asked_by(line: &[u8], turns: bool) -> Result<Option<Order>, LineKind>
    ensures { result ≡ asked_by turns line.now }
{
    if is_skipped(line) {
        return Ok(None);
    }
    let mut words = Pieces::of(line, b' ');
    Ok(Some(line_order(&mut words, turns)?))
}
