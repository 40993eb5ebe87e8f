//! The bounds that contracts cite. Where no source is named, a bound is this project's own.

/// Bytes of a sector (`MAX_SECTOR_SIZE` of super-intel.c is for disks of other sectors).
pub const SECTOR_BYTES: usize = 512;

/// Bytes of a disk's serial (`MAX_RAID_SERIAL_LEN` of super-intel.c).
pub const SERIAL_BYTES: usize = 16;

/// Disks of a bank, records of a block and images of a command.
pub const MAX_DISKS: usize = 16;

/// Volumes of a container.
pub const MAX_VOLUMES: usize = 2;

/// Members of a volume.
pub const MAX_MEMBERS: usize = 8;

/// Bytes of a metadata block's header, which is also the least size of a block.
pub const HEADER_BYTES: usize = 216;

/// The greatest size of a metadata block, in bytes.
pub const MAX_BLOCK_BYTES: usize = 8192;

/// Sectors of the largest metadata block.
pub const MAX_BLOCK_SECTORS: u8 = 16;

/// Sectors at the end of a disk that are kept for metadata.
pub const METADATA_SECTORS: u64 = 18;

/// The most sectors that one write takes.
pub const MAX_WRITE_SECTORS: usize = 16;

/// The most sectors of a volume.
pub const MAX_VOLUME_SECTORS: u64 = 1 << 40;

/// Rows of a unit, in which a block counts how far a pass has come (`curr_migr_unit` of super-intel.c). How many they
/// are is this project's own.
pub const UNIT_ROWS: u64 = 128;

/// Clients of a run, by number from 0.
pub const CLIENTS: usize = 16;

/// A container of this generation or a higher one isn't started, so that a run never counts to the end.
pub const FIRST_GENERATION_REFUSED: u32 = 0xFF00_0000;
