//! Disks and their sectors.

/// The bytes of a sector.
#[derive(Clone, Copy, Debug, PartialEq, Eq)]
pub struct Sector(pub [u8; 512]);

/// The number of a disk in a bank, from 0.
#[derive(Clone, Copy, Debug, Default, PartialEq, Eq)]
pub struct DiskNo(pub u8);

/// A disk's serial, padded with zero bytes.
#[derive(Clone, Copy, Debug, PartialEq, Eq)]
pub struct Serial(pub [u8; 16]);

impl Default for Serial {
    fn default() -> Serial {
        Serial([0; 16])
    }
}
