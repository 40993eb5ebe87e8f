//! Rows of the block on the first disk: what is found there, and that what is written is found.
ghost use Rattle.std.specs.Prelude.{◌<◌, ◌≤◌, length};
ghost use Rattle.member_bank.specs.Contents.{sizes_of};

use crate::banks::{FIRST, Setting, bank_of};
use imsm_buffer::MpbBuf;
use imsm_codec::{MpbRef, check};
use member_bank::{Bank, Failed, MemBank};
use mpb_store::{Found, Step, WriteSteps, found, sectors_of};
use std::alloc::{AllocError, Global};
use std::io;
use units::{
    DiskNo, HEADER_BYTES, MAX_BLOCK_BYTES, MAX_BLOCK_SECTORS, MAX_WRITE_SECTORS, METADATA_SECTORS,
    Sector,
};

/// Prints what is found on the first disk of a bank, and whether a whole block is the front of these bytes.
fn print_found(rt: &HostRuntime, bank: &mut MemBank, bytes: &[u8]) -> io::Result<()> {
    if bank.disks() == 0 {
        return println!(rt; "no disk");
    }
    let Ok(mut into) = MpbBuf::new(rt.alloc(), MAX_BLOCK_SECTORS) else {
        return println!(rt; "memory");
    };
    let answer = found(bank, FIRST, &mut into);
    if answer == Found::Whole {
        let same = bytes.get(..into.bytes().len()) == Some(into.bytes());
        return println!(rt; "Whole {} same {same}", into.bytes().len());
    }
    println!(rt; "{answer:?}")
}

/// Prints what is found on the disk that is held.
pub(crate) fn find_block(rt: &HostRuntime, setting: &mut Setting, bytes: &[u8]) -> io::Result<()> {
    let mut bank = bank_of(rt.alloc(), setting)?;
    print_found(rt, &mut bank, bytes)
}

/// Writes sectors to the first disk from a place on, where it has room for them.
fn put(bank: &mut MemBank, place: u64, part: &[Sector]) -> Result<(), Failed> {
    let count = part.len();
    if bank.disks() == 0 || count == 0 || count > MAX_WRITE_SECTORS {
        return Err(Failed);
    }
    let sectors = bank.sectors(FIRST);
    if place > sectors || sectors - place < count as u64 {
        return Err(Failed);
    }
    bank.write(FIRST, place, part)
}

fn sync(bank: &mut MemBank) -> Result<(), Failed> {
    if bank.disks() == 0 {
        return Err(Failed);
    }
    bank.sync(FIRST)
}

/// Carries out a step of the writing of a block, and tells whether there was one.
fn carry_out(
    bank: &mut MemBank,
    step: Step,
    sectors: &[Sector; MAX_WRITE_SECTORS],
) -> Result<bool, Failed> {
    match step {
        Step::Extended(place, count) => {
            let extended = sectors[1..].get(..usize::from(count)).ok_or(Failed)?;
            put(bank, place, extended)?;
        }
        Step::Anchor(place) => put(bank, place, &sectors[..1])?,
        Step::Sync => sync(bank)?,
        Step::Over => return Ok(false),
    }
    Ok(true)
}

/// How many sectors the first disk has, if there is one.
fn sectors_of_first(bank: &MemBank) -> Option<u64> {
    if bank.disks() == 0 {
        return None;
    }
    Some(bank.sectors(FIRST))
}

/// Prints the steps of writing a block to the first disk, as they are carried out.
fn write_steps(rt: &HostRuntime, bank: &mut MemBank, written: &MpbBuf) -> io::Result<()> {
    let Some(count) = sectors_of_first(bank) else {
        return println!(rt; "no disk");
    };
    let size = written.bytes().len();
    if size < HEADER_BYTES || size > MAX_BLOCK_BYTES || count < METADATA_SECTORS {
        return println!(rt; "no room");
    }
    let mut sectors = [Sector([0; 512]); MAX_WRITE_SECTORS];
    sectors_of(written, &mut sectors);
    let mut steps = WriteSteps::new(size as u16, count);
    for _step in 0..4 {
        let step = steps.next();
        println!(rt; "{step:?}")?;
        match carry_out(bank, step, &sectors) {
            Ok(true) => {}
            Ok(false) => return Ok(()),
            Err(fault) => return println!(rt; "{fault:?}"),
        }
    }
    Ok(())
}

/// The block of these bytes, if they begin with a whole one.
fn copy_of(alloc: Global, mpb: &MpbRef<'_>) -> Result<MpbBuf, AllocError> {
    MpbBuf::from_ref(alloc, mpb, MAX_BLOCK_BYTES as u16).map_err(|_| AllocError)
}

/// Writes the block at hand to the disk that is held, and prints what is found there before and after.
pub(crate) fn write_block(rt: &HostRuntime, setting: &mut Setting, bytes: &[u8]) -> io::Result<()> {
    let Ok(mpb) = check(bytes) else {
        return println!(rt; "not whole");
    };
    let mut bank = bank_of(rt.alloc(), setting)?;
    print_found(rt, &mut bank, bytes)?;
    let written = copy_of(rt.alloc(), &mpb)?;
    write_steps(rt, &mut bank, &written)?;
    print_found(rt, &mut bank, bytes)
}
