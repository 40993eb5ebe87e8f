//! Rows of device calls, on disks in memory and on a file.
use crate::banks::{FIRST, Setting, bank_of, free_of};
use crate::row::Row;
use member_bank::{Bank, FileBank, MemDisk};
use std::fs::{File, OpenOptions};
use std::{fs, io};
use units::{DiskNo, Sector, Serial};

/// What a disk's sectors are before a call reads them.
const UNREAD: u8 = 0xEE;

/// Reads a place, and prints the first byte of its sector, or that the read failed.
fn read<B: Bank>(rt: &HostRuntime, bank: &mut B, place: u64) -> io::Result<()> {
    if bank.disks() == 0 || place >= bank.sectors(FIRST) {
        return println!(rt; "no place");
    }
    let mut sector = Sector([UNREAD; 512]);
    match bank.read(FIRST, place, &mut sector) {
        Ok(()) => println!(rt; "read {place}: {}", sector.0[0]),
        Err(fault) => println!(rt; "read {place}: {fault:?}"),
    }
}

/// Writes two sectors of these bytes from a place on.
fn write<B: Bank>(
    rt: &HostRuntime,
    bank: &mut B,
    place: u64,
    first: u8,
    second: u8,
) -> io::Result<()> {
    if bank.disks() == 0 || bank.sectors(FIRST) < 2 || place > bank.sectors(FIRST) - 2 {
        return println!(rt; "no place");
    }
    let answer = bank.write(FIRST, place, &[Sector([first; 512]), Sector([second; 512])]);
    println!(rt; "write {place}: {answer:?}")
}

fn sync<B: Bank>(rt: &HostRuntime, bank: &mut B) -> io::Result<()> {
    if bank.disks() == 0 {
        return println!(rt; "no disk");
    }
    let answer = bank.sync(FIRST);
    println!(rt; "sync: {answer:?}")
}

/// Prints how many sectors the first disk has, and how often it has failed.
fn tell<B: Bank>(rt: &HostRuntime, bank: &B) -> io::Result<()> {
    if bank.disks() == 0 {
        return println!(rt; "no disk");
    }
    let (sectors, faults) = (bank.sectors(FIRST), bank.faults(FIRST));
    println!(rt; "sectors {sectors} faults {faults}")
}

/// Makes the calls that are left of a row, each a word, on the first disk.
fn make_calls<B: Bank>(rt: &HostRuntime, bank: &mut B, row: &Row<'_>) -> io::Result<()> {
    for word in row.rest().split(' ') {
        let mut parts = Row::of_parts(word);
        match parts.word() {
            "read" => read(rt, bank, parts.number())?,
            "write" => {
                let place = parts.number();
                let first = parts.number_of_8();
                write(rt, bank, place, first, parts.number_of_8())?;
            }
            "sync" => sync(rt, bank)?,
            _ => tell(rt, bank)?,
        }
    }
    Ok(())
}

/// Prints the first byte of each sector of disks.
fn print_disks(rt: &HostRuntime, disks: &[MemDisk]) -> io::Result<()> {
    for disk in disks {
        let (letter, count) = (disk.serial.0[0], disk.sectors.len());
        print!(rt; "disk {letter} of {count}:")?;
        for sector in disk.sectors.as_slice() {
            print!(rt; " {}", sector.0[0])?;
        }
        println!(rt; "")?;
    }
    Ok(())
}

/// Makes the calls of a row on the disk that is held, and prints the first byte of each of its sectors.
pub(crate) fn call_disk(
    rt: &HostRuntime,
    row: &mut Row<'_>,
    setting: &mut Setting,
) -> io::Result<()> {
    let mut bank = bank_of(rt.alloc(), setting)?;
    make_calls(rt, &mut bank, row)?;
    print_disks(rt, bank.into_disks().as_slice())
}

/// The same on a bank on which no call fails.
pub(crate) fn call_free(
    rt: &HostRuntime,
    row: &mut Row<'_>,
    setting: &mut Setting,
) -> io::Result<()> {
    let mut bank = free_of(rt.alloc(), setting)?;
    make_calls(rt, &mut bank, row)?;
    print_disks(rt, bank.into_disks().as_slice())
}

/// The file of a path, opened as a word says.
fn opened(rt: &HostRuntime, path: &str, mode: &str) -> io::Result<File> {
    if mode == "write" {
        OpenOptions::new().write(true).open(rt, path)
    } else {
        OpenOptions::new().read(true).write(true).open(rt, path)
    }
}

/// Makes the calls of a row on a file of 1,100 bytes of 9, opened to be read and written or to be written alone.
pub(crate) fn call_file(rt: &HostRuntime, row: &mut Row<'_>) -> io::Result<()> {
    let path = "bank_row.img";
    fs::write(rt, path, [9u8; 1100].as_slice())?;
    let file = opened(rt, path, row.word())?;
    let mut bank = FileBank::new(rt.alloc());
    if bank.add(Serial([1; 16]), file).is_err() {
        return println!(rt; "not added");
    }
    make_calls(rt, &mut bank, row)?;
    let kept = fs::read(rt, path)?;
    let (size, last) = (kept.len(), kept.last().copied().unwrap_or(0));
    println!(rt; "file of {size}, last {last}")?;
    fs::remove_file(rt, path)
}
