//! Rows of scripts: what a text asks for, or what is wrong with it.
use crate::row::Row;
use array_model::Script;
use run_script::parse_script;
use std::alloc::{AllocError, Global};
use std::io;

/// The most operations or turns that are printed one by one.
const MAX_PRINTED: usize = 16;

/// Pushes a piece of a row behind a backslash: `n` is a line feed, `r` a return, `b` a byte that no text has.
fn push_escaped(bytes: &mut Vec<u8>, piece: &[u8]) -> Result<(), AllocError> {
    let Some((first, behind)) = piece.split_first() else {
        return Ok(());
    };
    let byte = match *first {
        b'n' => b'\n',
        b'r' => b'\r',
        b'b' => 0xff,
        other => other,
    };
    bytes.push(byte)?;
    bytes.extend_from_slice(behind)
}

/// Pushes the text that is left of a row.
fn push_text(bytes: &mut Vec<u8>, text: &str) -> Result<(), AllocError> {
    for (number, piece) in text.split('\\').enumerate() {
        if number == 0 {
            bytes.extend_from_slice(piece.as_bytes())?;
        } else {
            push_escaped(bytes, piece.as_bytes())?;
        }
    }
    Ok(())
}

/// Holds the text of a row so many times: the scripts of later rows begin with it.
pub(crate) fn hold_lines(
    rt: &HostRuntime,
    row: &mut Row<'_>,
    held: &mut Vec<u8>,
) -> io::Result<()> {
    let times = row.short();
    let text = row.rest().unwrap_or("");
    for _time in 0..times {
        push_text(held, text)?;
    }
    let bytes = held.len();
    println!(rt; "held {bytes}")
}

/// The text of a script: what is held, and then what is left of the row.
fn text_of(alloc: Global, row: &Row<'_>, held: &[u8]) -> Result<Vec<u8>, AllocError> {
    let mut text = held.to_vec(alloc)?;
    push_text(&mut text, row.rest().unwrap_or(""))?;
    Ok(text)
}

/// Prints how much a script asks for, and what, where that isn't much.
fn print_script(rt: &HostRuntime, script: &Script) -> io::Result<()> {
    let (ops, turns) = (script.ops().len(), script.turns().len());
    let asks = script.asks().len();
    println!(rt; "ops {ops} asks {asks} turns {turns}")?;
    if ops <= MAX_PRINTED {
        for op in script.ops() {
            println!(rt; "{op:?}")?;
        }
    }
    if turns <= MAX_PRINTED {
        for turn in script.turns() {
            println!(rt; "{turn:?}")?;
        }
    }
    Ok(())
}

/// Prints the script that a text is, with turns or without them, or its fault.
pub(crate) fn answer_script(rt: &HostRuntime, row: &mut Row<'_>, held: &[u8]) -> io::Result<()> {
    let turns = row.word() == "turns";
    let text = text_of(rt.alloc(), row, held)?;
    match parse_script(rt.alloc(), text.as_slice(), turns) {
        Ok(script) => print_script(rt, &script),
        Err(fault) => println!(rt; "{fault:?}"),
    }
}
