//! How bytes and lines are printed.
use std::io;
use std::io::Write;

/// Bytes in hex.
fn print_hex<W: Write>(out: &mut W, bytes: &[u8]) -> io::Result<()> {
    for byte in bytes {
        write!(out, "{byte:02x}")?;
    }
    Ok(())
}

/// A word that stands so often one after the other.
fn print_run<W: Write>(out: &mut W, word: &[u8], count: u64) -> io::Result<()> {
    write!(out, "| ")?;
    print_hex(out, word)?;
    if count > 1 {
        write!(out, " x {count}")?;
    }
    writeln!(out)
}

/// Bytes in words of 8. Of equal words that follow each other one is printed, and how many there are.
pub fn print_bytes<W: Write>(out: &mut W, bytes: &[u8]) -> io::Result<()> {
    let mut last: &[u8] = &[];
    let mut count: u64 = 0;
    for word in bytes.chunks(8) {
        if count > 0 && word != last {
            print_run(out, last, count)?;
            count = 0;
        }
        last = word;
        count = count.saturating_add(1);
    }
    if count > 0 {
        print_run(out, last, count)?;
    }
    Ok(())
}

/// What a command wrote. A last line without its end is marked.
pub fn print_lines<W: Write>(out: &mut W, bytes: &[u8]) -> io::Result<()> {
    for line in bytes.split_inclusive(|byte| *byte == b'\n') {
        write!(out, "| ")?;
        out.write_all(line)?;
        if !line.ends_with(b"\n") {
            writeln!(out, "(cut)")?;
        }
    }
    Ok(())
}
