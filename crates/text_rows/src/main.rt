//! Rows of text: words of commands, scripts and entries of journals, one a line of the input, each answered by what it
//! is read as or how it is printed. A line that begins with `#` is printed as it stands.
#![tactic(auto)]

mod commands;
mod entries;
mod row;
mod scripts;

use commands::answer_words;
use entries::answer_entry;
use row::Row;
use scripts::{answer_script, hold_lines};
use std::io;

/// Answers a row. What scripts begin with is held from one row to the next.
fn answer(rt: &HostRuntime, line: &str, held: &mut Vec<u8>) -> io::Result<()> {
    let mut row = Row::of(line);
    match row.word() {
        "words" => answer_words(rt, &row),
        "entry" => answer_entry(rt, &mut row),
        "hold" => hold_lines(rt, &mut row, held),
        "script" => answer_script(rt, &mut row, held),
        _ => println!(rt; "{line}"),
    }
}

fn main(rt: HostRuntime) -> io::Result<()> {
    let mut held = Vec::new(rt.alloc());
    for line in rt.lines(rt.alloc()) {
        answer(&rt, line?.as_str(), &mut held)?;
    }
    Ok(())
}
