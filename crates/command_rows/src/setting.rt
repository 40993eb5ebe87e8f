//! What a command finds beside its images: its script, what fails, and the room for its lines.
use crate::fault::Fault;
use crate::print::{print_bytes, print_lines};
use image_run::{MemFile, MemShelf, MemSink, MemSource, Source, image_main, read_all};
use member_bank::{FailAt, LogRoom, MemDisk};
use std::alloc::Global;
use std::io::Write;

/// The room for the log of device calls.
const LOG: LogRoom = LogRoom {
    calls: 64,
    sectors: 16,
};

/// The script of a command, which reads, opens, device calls and writes of it fail, and how many bytes can be written.
#[derive(Drop)]
pub struct Setting {
    pub script: Vec<u8>,
    reads: Vec<u64>,
    opens: Vec<u64>,
    calls: Vec<FailAt>,
    writes: Vec<u64>,
    pub room: u64,
}

impl Setting {
    /// No script, and nothing fails.
    pub fn new(alloc: Global) -> Setting {
        Setting {
            script: Vec::new(alloc),
            reads: Vec::new(alloc),
            opens: Vec::new(alloc),
            calls: Vec::new(alloc),
            writes: Vec::new(alloc),
            room: 4096,
        }
    }

    /// Names a call that fails. A write to a disk that fails stores nothing.
    pub fn fail(&mut self, kind: &str, number: u64) -> Result<(), Fault> {
        match kind {
            "read" => self.reads.push(number)?,
            "open" => self.opens.push(number)?,
            "call" => self.calls.push(FailAt {
                call: number,
                kept: 0,
            })?,
            "write" => self.writes.push(number)?,
            _ => return Err(Fault::Line),
        }
        Ok(())
    }

    /// Runs a command over files, prints its status and its lines, and gives the disks that it opened as it left them.
    pub fn run<W: Write>(
        &self,
        alloc: Global,
        words: &[String],
        files: Vec<MemFile>,
        out: &mut W,
    ) -> Result<Vec<MemDisk>, Fault> {
        let (opens, calls) = (self.opens.to_vec(alloc)?, self.calls.to_vec(alloc)?);
        let mut shelf = MemShelf::new(alloc, files, opens, calls, LOG)?;
        let mut source = MemSource::new(self.script.to_vec(alloc)?, self.reads.to_vec(alloc)?);
        let writes = self.writes.to_vec(alloc)?;
        let mut sink = MemSink::new(alloc, writes, self.room)?;
        let status = image_main(alloc, words, &mut shelf, &mut source, &mut sink);
        writeln!(out, "status {}", status.0)?;
        print_lines(out, sink.written())?;
        Ok(match shelf.into_bank() {
            Some(bank) => bank.into_disks(),
            None => Vec::new(alloc),
        })
    }

    /// Reads the script to its end, and prints what came, how many reads failed, and what two more reads give.
    pub fn read<W: Write>(&self, alloc: Global, out: &mut W) -> Result<(), Fault> {
        let mut source = MemSource::new(self.script.to_vec(alloc)?, self.reads.to_vec(alloc)?);
        match read_all(alloc, &mut source) {
            Ok(bytes) => {
                writeln!(out, "all {}", bytes.len())?;
                print_bytes(out, &bytes)?;
            }
            Err(fault) => writeln!(out, "{fault}")?,
        }
        writeln!(out, "faults {}", source.faults())?;
        for _ in 0..2 {
            let mut piece = [0; 4];
            match source.read(&mut piece) {
                Ok(count) => writeln!(out, "next {count}")?,
                Err(fault) => writeln!(out, "next {fault:?}")?,
            }
            print_bytes(out, &piece)?;
        }
        Ok(())
    }
}
