//! Volumes, and how they lie on disks.

/// The number of a volume in a container, from 0.
#[derive(Clone, Copy, Debug, PartialEq, Eq)]
pub struct VolNo(pub u8);

/// The place of a member in a volume, from 0.
#[derive(Clone, Copy, Debug, PartialEq, Eq)]
pub struct Slot(pub u8);

/// A RAID level: two copies, rotating parity (left-asymmetric), or two copies in stripes (near-2 over four).
#[derive(Clone, Copy, Debug, PartialEq, Eq)]
pub enum Level {
    One,
    Five,
    Ten,
}

/// How a volume lies on its members: the strip in sectors (not read at level one), the size in sectors of the
/// volume, the first sector of each member, and the rows, of one sector on each member.
#[derive(Clone, Copy, Debug, PartialEq, Eq)]
pub struct Geometry {
    pub level: Level,
    pub members: u8,
    pub strip: u16,
    pub size: u64,
    pub pba: u64,
    pub rows: u64,
}
