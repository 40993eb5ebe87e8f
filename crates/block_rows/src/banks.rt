//! Rows of a disk in memory.
use crate::row::Row;
use member_bank::{FailAt, FailFree, LogRoom, MemBank, MemDisk};
use std::alloc::{AllocError, Global};
use std::io;
use units::{DiskNo, SECTOR_BYTES, Sector};

/// The first disk of a bank.
pub(crate) const FIRST: DiskNo = DiskNo(0);

/// The room of a bank's log, which most rows pass: what a bank does is the same behind it.
const ROOM: LogRoom = LogRoom {
    calls: 3,
    sectors: 4,
};

/// The disk of the next bank, if there is one, and the calls that fail on it.
#[derive(Drop)]
pub(crate) struct Setting {
    disk: Option<MemDisk>,
    fails: Vec<FailAt>,
}

impl Setting {
    pub(crate) fn new(alloc: Global) -> Setting {
        Setting {
            disk: None,
            fails: Vec::new(alloc),
        }
    }
}

/// The sector of this number in the order of the bytes, with zeros behind their end.
pub(crate) fn sector_at(bytes: &[u8], number: usize) -> Sector {
    let first = number.saturating_mul(SECTOR_BYTES);
    let mut sector = Sector([0; 512]);
    for (to, from) in sector.0.iter_mut().zip(bytes.iter().skip(first)) {
        *to = *from;
    }
    sector
}

/// What stands at a place of a disk of so many sectors: the anchor is the second to last, so many extended sectors
/// stand before it, and all others are of one byte.
fn standing(bytes: &[u8], sectors: u32, extended: u8, place: u32) -> Sector {
    let anchor = sectors.saturating_sub(2);
    let first = anchor.saturating_sub(u32::from(extended));
    if place == anchor {
        return sector_at(bytes, 0);
    }
    if first <= place && place < anchor {
        return sector_at(bytes, (place - first) as usize + 1);
    }
    Sector([0xEE; 512])
}

/// Holds the disk of the next bank: its serial, how many sectors it has, and how many extended sectors of the bytes at
/// hand stand before their first one.
pub(crate) fn hold_disk(
    alloc: Global,
    row: &mut Row<'_>,
    bytes: &[u8],
    setting: &mut Setting,
) -> io::Result<()> {
    let serial = row.serial();
    let (count, extended) = (row.number_of_32(), row.number_of_8());
    let mut sectors = Vec::new(alloc);
    for place in 0..count {
        sectors.push(standing(bytes, count, extended, place))?;
    }
    setting.disk = Some(MemDisk { serial, sectors });
    Ok(())
}

/// Holds a call that is to fail: its number, and how many sectors of a write are kept.
pub(crate) fn hold_fail(row: &mut Row<'_>, setting: &mut Setting) -> io::Result<()> {
    let call = row.number();
    setting.fails.push(FailAt {
        call,
        kept: row.number_of_8(),
    })?;
    Ok(())
}

/// A bank of the disk that is held, which is held no more.
pub(crate) fn bank_of(alloc: Global, setting: &mut Setting) -> Result<MemBank, AllocError> {
    let Setting { disk, fails } = std::mem::replace(setting, Setting::new(alloc));
    let mut bank = MemBank::new(alloc, Vec::new(alloc), fails, ROOM).map_err(|_| AllocError)?;
    if let Some(disk) = disk {
        bank.add(alloc, disk).map_err(|_| AllocError)?;
    }
    Ok(bank)
}

/// The same, on which no call fails.
pub(crate) fn free_of(alloc: Global, setting: &mut Setting) -> Result<FailFree, AllocError> {
    let Setting { disk, .. } = std::mem::replace(setting, Setting::new(alloc));
    let mut bank = FailFree::new(alloc, Vec::new(alloc), ROOM).map_err(|_| AllocError)?;
    if let Some(disk) = disk {
        bank.add(alloc, disk).map_err(|_| AllocError)?;
    }
    Ok(bank)
}
