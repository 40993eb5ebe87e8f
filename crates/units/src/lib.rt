//! Sectors, disks, volumes and their bounds, and in `specs/` where a metadata block stands on a disk and what a RAID
//! level needs: what devices, laws and metadata have in common.
//!
//! It has types and constants, and promises nothing. It stands on nothing. Devices and laws stand on it and not on
//! `imsm_base`, and so know nothing of a block's bytes; each crate that names a sector, a disk or a volume cites it.
#![tactic(auto)]

mod bounds;
mod disk;
mod volume;

pub use bounds::{
    CLIENTS, FIRST_GENERATION_REFUSED, HEADER_BYTES, MAX_BLOCK_BYTES, MAX_BLOCK_SECTORS, MAX_DISKS,
    MAX_MEMBERS, MAX_VOLUME_SECTORS, MAX_VOLUMES, MAX_WRITE_SECTORS, METADATA_SECTORS,
    SECTOR_BYTES, SERIAL_BYTES, UNIT_ROWS,
};
pub use disk::{DiskNo, Sector, Serial};
pub use volume::{Geometry, Level, Slot, VolNo};
