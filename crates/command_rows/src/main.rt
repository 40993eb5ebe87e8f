//! Worked rows of the command, as data: lines of the input say what it is run over, and what it gave is printed.
#![tactic(auto)]

mod block;
mod fault;
mod image;
mod print;
mod setting;
mod workspace;

use fault::Fault;
use std::io;
use std::io::{BufRead, BufReader, BufWriter, Write};
use std::process::ExitCode;
use workspace::Workspace;

/// Does what each line says. The line that isn't understood is printed.
fn play<R: Input + Print + Eprint + AllocGlobal>(rt: &R) -> Result<(), Fault> {
    let alloc = rt.alloc();
    let mut out = BufWriter::new(alloc, io::writer(rt))?;
    let mut workspace = Workspace::new(alloc);
    for line in BufReader::new(alloc, rt.reader())?.lines(alloc) {
        let line = line?;
        if let Err(fault) = workspace.take(line.as_str(), &mut out) {
            eprintln!(rt; "{line}")?;
            return Err(fault);
        }
    }
    Ok(out.flush()?)
}

fn main(rt: HostRuntime) -> ExitCode {
    match play(&rt) {
        Ok(()) => ExitCode::SUCCESS,
        Err(fault) => {
            let _ = eprintln!(rt; "{fault}");
            ExitCode::from(2)
        }
    }
}
