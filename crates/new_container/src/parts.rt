//! The parts of a new block, pushed behind one another.
ghost use Rattle.std.specs.Prelude.{◌≡◌, ◌+◌, ◌*◌, ◌/◌, ◌^◌, ◌<◌, ◌≤◌, ◌++◌, true, length, map, All, Option, OnOk};
ghost use Rattle.std.specs.List.{concat, flat_map};
ghost use Rattle.units.specs.declared.volume.Level.{Level};
ghost use Rattle.imsm_base.specs.Layout.{map_bytes, volume_bytes, state_lengths};
ghost use Rattle.imsm_base.specs.EditsOfTables.{blank_part};
ghost use Rattle.new_container.specs.declared.container.NewContainer.{NewContainer};
ghost use Rattle.new_container.specs.declared.volume.NewVolume.{NewVolume};
ghost use Rattle.new_container.specs.Fits.{container_fits, rows_over, second_fits, volume_fits};
ghost use Rattle.byteorder.specs.Endian.{little_bytes};
ghost use Rattle.new_container.specs.Created.{IsDisk, low_half, high_half, created_volume, created_volumes, device_part, disk_part, domain_count, entries_part, header_part, level_byte, map_part, second_volume};

use crate::bytes::{push, push_high_half, push_low_half, push_u16, push_u32};
use crate::container::NewContainer;
use crate::disk::NewDisk;
use crate::volume::NewVolume;
use imsm_buffer::CodecFault;
use units::Level;

/// Pushes the header of a block of so many bytes, disks and volumes, without a checksum and a number of the family.
pub(crate) fn push_header(
    bytes: &mut Vec<u8>,
    size: u32,
    disks: u8,
    volumes: u8,
) -> Result<(), CodecFault>
    ensures { OnOk result (bytes.new.items ≡ bytes.old.items ++ concat (header_part 0 size 0 disks volumes)) }
{
    push(bytes, b"Intel Raid ISM Cfg Sig. 1.3.00\0\0\0\0\0\0")?;
    push_u32(bytes, size)?;
    push(bytes, &[0, 0, 0, 0, 1, 0, 0, 0])?;
    push(bytes, &[0; 8])?;
    push(bytes, &[disks, volumes])?;
    push(bytes, &[0; 158])
}

/// Pushes the record of a disk.
fn push_disk(bytes: &mut Vec<u8>, disk: &NewDisk) -> Result<(), CodecFault>
    ensures bytes { OnOk result (bytes.new.items ≡ bytes.old.items ++ concat (disk_part disk.now)) }
    ensures disk { OnOk result (IsDisk disk.now) }
{
    push(bytes, &disk.serial.0)?;
    push_low_half(bytes, disk.sectors)?;
    push(bytes, &[0, 0, 0, 0, 2, 0, 0, 0])?;
    push(bytes, &[0; 4])?;
    push_high_half(bytes, disk.sectors)?;
    push(bytes, &[0; 12])
}

/// Pushes the records of disks.
pub(crate) fn push_disks(bytes: &mut Vec<u8>, disks: &[NewDisk]) -> Result<(), CodecFault>
    ensures bytes { OnOk result (bytes.new.items ≡ bytes.old.items ++ flat_map concat (map disk_part disks.now)) }
    ensures disks { OnOk result (All IsDisk disks.now) }
{
    for disk in disks {
        push_disk(bytes, disk)?;
    }
    Ok(())
}

/// Pushes the record of a volume of this number.
fn push_device(bytes: &mut Vec<u8>, number: u8, size: u64) -> Result<(), CodecFault>
    requires { number < 10 }
    ensures { OnOk result (bytes.new.items ≡ bytes.old.items ++ concat (device_part number size)) }
{
    push(bytes, b"Volume")?;
    push(bytes, &[b'0' + number])?;
    push(bytes, &[0; 9])?;
    push_low_half(bytes, size)?;
    push_high_half(bytes, size)?;
    push(bytes, &[0; 56])
}

/// The byte of a level.
fn level_byte(level: Level) -> u8
    ensures { result ≡ level_byte level }
{
    match level {
        Level::One | Level::Ten => 1,
        Level::Five => 5,
    }
}

/// How many sets of one copy each the disks of a level are in.
fn domain_count(level: Level) -> u8
    ensures { result ≡ domain_count level }
{
    match level {
        Level::One | Level::Ten => 2,
        Level::Five => 1,
    }
}

/// Pushes the low halves of a map's three numbers, and then its strip.
fn push_low_halves(bytes: &mut Vec<u8>, pba: u64, rows: u64, strip: u16) -> Result<(), CodecFault>
    requires { 1 ≤ strip }
    ensures { OnOk result (bytes.new.items ≡ bytes.old.items
        ++ (low_half pba ++ (low_half rows ++ (low_half (rows / strip) ++ little_bytes 2 strip)))) }
{
    push_low_half(bytes, pba)?;
    push_low_half(bytes, rows)?;
    push_low_half(bytes, rows / u64::from(strip))?;
    push_u16(bytes, strip)
}

/// Pushes the high halves of a map's three numbers.
fn push_high_halves(bytes: &mut Vec<u8>, pba: u64, rows: u64, strip: u16) -> Result<(), CodecFault>
    requires { 1 ≤ strip }
    ensures { OnOk result (bytes.new.items ≡ bytes.old.items
        ++ (high_half pba ++ (high_half rows ++ high_half (rows / strip)))) }
{
    push_high_half(bytes, pba)?;
    push_high_half(bytes, rows)?;
    push_high_half(bytes, rows / u64::from(strip))
}

/// Pushes the fields of a map: the volume lies from sector `pba` on.
fn push_map(
    bytes: &mut Vec<u8>,
    volume: &NewVolume,
    pba: u64,
    rows: u64,
    disks: u8,
) -> Result<(), CodecFault>
    requires { 1 ≤ volume.now.strip }
    ensures { OnOk result (bytes.new.items ≡ bytes.old.items ++ concat (map_part volume.now pba rows disks)) }
{
    push_low_halves(bytes, pba, rows, volume.strip)?;
    let level = level_byte(volume.level);
    let domains = domain_count(volume.level);
    push(bytes, &[0, level, disks, domains, 0xFF, 1])?;
    push_high_halves(bytes, pba, rows, volume.strip)?;
    push(bytes, &[0; 16])
}

/// Pushes the entries of a map: each slot has the disk of its number.
fn push_entries(bytes: &mut Vec<u8>, disks: u8) -> Result<(), CodecFault>
    ensures { OnOk result (bytes.new.items ≡ bytes.old.items ++ concat (entries_part disks)) }
{
    for slot in 0..disks {
        push_u32(bytes, u32::from(slot))?;
    }
    Ok(())
}

/// Pushes a volume of this number over so many disks, from sector `pba` on.
fn push_volume(
    bytes: &mut Vec<u8>,
    number: u8,
    pba: u64,
    volume: &NewVolume,
    disks: u8,
) -> Result<(), CodecFault>
    requires number { number < 10 }
    requires fits { volume_fits volume.now disks ≡ true }
    ensures { OnOk result (bytes.new.items ≡ bytes.old.items
        ++ volume_bytes (created_volume number pba volume.now disks)) }
{
    push_device(bytes, number, volume.size)?;
    push(bytes, &[0; 32])?;
    let rows = volume.rows(usize::from(disks));
    push_map(bytes, volume, pba, rows, disks)?;
    push_entries(bytes, disks)
}

/// Pushes the second volume, if there is one.
fn push_second(
    bytes: &mut Vec<u8>,
    pba: u64,
    second: Option<NewVolume>,
    disks: u8,
) -> Result<(), CodecFault>
    requires { second_fits second disks ≡ true }
    ensures { OnOk result (bytes.new.items ≡ bytes.old.items
        ++ flat_map volume_bytes (second_volume pba second disks)) }
{
    match second {
        None => Ok(()),
        Some(volume) => push_volume(bytes, 1, pba, &volume, disks),
    }
}

/// Pushes the volumes of a container over so many disks, the second one behind the first.
pub(crate) fn push_volumes(
    bytes: &mut Vec<u8>,
    made: &NewContainer,
    disks: u8,
) -> Result<(), CodecFault>
    requires { container_fits made.now disks ≡ true }
    ensures { OnOk result (bytes.new.items ≡ bytes.old.items
        ++ flat_map volume_bytes (created_volumes made.now disks)) }
{
    push_volume(bytes, 0, 0, &made.first, disks)?;
    let pba = made.first.rows(usize::from(disks));
    push_second(bytes, pba, made.second, disks)
}
