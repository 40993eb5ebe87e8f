//! Rows of metadata blocks: what is read of one, how it is edited and printed, what stands on disks, and which blocks
//! are made. Each line of the input is a row, and its answer is printed. A line that begins with `#` is printed as it
//! stands.
#![tactic(auto)]

mod banks;
mod bench;
mod bytes;
mod calls;
mod editing;
mod making;
mod reading;
mod row;
mod storing;

use bench::Bench;
use row::Row;
use std::io;

fn main(rt: HostRuntime) -> io::Result<()> {
    let mut bench = Bench::new(rt.alloc());
    for line in rt.lines(rt.alloc()) {
        let line = line?;
        bench.answer(&rt, line.as_str(), &mut Row::of(line.as_str()))?;
    }
    Ok(())
}
