//! Rows that make the block of a new container, over disks A, B and so on of one size.
ghost use Rattle.std.specs.Prelude.{◌≡◌, ◌∷◌, ◌+◌, ◌≤◌, true, IsTrue, replicate};
ghost use Rattle.units.specs.declared.bounds.TheConstants.{METADATA_SECTORS as METADATA};
ghost use Rattle.new_container.specs.Fits.{container_fits, total_rows};

use crate::row::Row;
use imsm_buffer::{CodecFault, MpbBuf};
use new_container::{NewContainer, NewDisk, NewVolume, new_block};
use std::alloc::Global;
use std::io;
use units::{Level, METADATA_SECTORS, Serial};

/// A disk of so many sectors, under a serial of one letter.
fn disk(letter: u8, sectors: u64) -> NewDisk
    ensures { result ≡ record { serial = record { 0 = letter ∷ replicate 15 0 }; sectors = sectors } }
{
    let mut serial = Serial([0; 16]);
    serial.0[0] = letter;
    NewDisk { serial, sectors }
}

/// The volume that the next three words name, if they name one: its level, its strip and its size.
fn volume_of(row: &mut Row<'_>) -> Option<NewVolume> {
    let level = match row.word() {
        "1" => Level::One,
        "5" => Level::Five,
        "10" => Level::Ten,
        _ => return None,
    };
    Some(NewVolume {
        level,
        strip: row.number_of_16(),
        size: row.number(),
    })
}

/// Whether so many disks of so many sectors hold a container.
fn fits(made: &NewContainer, disks: usize, sectors: u64) -> bool
    ensures { IsTrue result → (container_fits made.now disks ≡ true)
        × (total_rows made.now disks + METADATA ≤ sectors) }
{
    made.fits(disks) && made.total_rows(disks) + METADATA_SECTORS <= sectors
}

fn over_two(alloc: Global, made: &NewContainer, sectors: u64) -> Option<MpbBuf> {
    if !fits(made, 2, sectors) {
        return None;
    }
    new_block(alloc, made, &[disk(b'A', sectors), disk(b'B', sectors)]).ok()
}

fn over_three(alloc: Global, made: &NewContainer, sectors: u64) -> Option<MpbBuf> {
    if !fits(made, 3, sectors) {
        return None;
    }
    let disks = [
        disk(b'A', sectors),
        disk(b'B', sectors),
        disk(b'C', sectors),
    ];
    new_block(alloc, made, &disks).ok()
}

fn over_four(alloc: Global, made: &NewContainer, sectors: u64) -> Option<MpbBuf> {
    if !fits(made, 4, sectors) {
        return None;
    }
    let disks = [
        disk(b'A', sectors),
        disk(b'B', sectors),
        disk(b'C', sectors),
        disk(b'D', sectors),
    ];
    new_block(alloc, made, &disks).ok()
}

/// The block of the container that a row names: how many disks of how many sectors, the number of the family or `-`,
/// and its one or two volumes.
fn container_of(alloc: Global, row: &mut Row<'_>) -> Option<MpbBuf> {
    let (disks, sectors) = (row.number_of_8(), row.number());
    let family = u32::from_str_radix(row.word(), 16).ok();
    let first = volume_of(row)?;
    let made = NewContainer {
        family,
        first,
        second: volume_of(row),
    };
    match disks {
        2 => over_two(alloc, &made, sectors),
        3 => over_three(alloc, &made, sectors),
        4 => over_four(alloc, &made, sectors),
        _ => None,
    }
}

/// Prints the size of a new block, the numbers of its family and of the first one, and its checksum.
pub(crate) fn make_container(rt: &HostRuntime, row: &mut Row<'_>) -> io::Result<()> {
    let Some(block) = container_of(rt.alloc(), row) else {
        return println!(rt; "refused");
    };
    let parts = block.parts();
    let (size, sum) = (block.bytes().len(), parts.checksum());
    let (family, orig) = (parts.family(), parts.orig_family());
    println!(rt; "made {size} family {family:08x} orig {orig:08x} checksum {sum:08x}")
}
