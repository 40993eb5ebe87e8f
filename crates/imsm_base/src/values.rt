//! Values in the fields of a block.

/// Indices of disk records are below it: an index is the low bits of a slot's entry (`ord_to_idx` of super-intel.c).
pub const INDEX_RANGE: u32 = 1 << 24;

/// The signature of a checkpoint that this project writes (`checkpoint_id`). The number is this project's own.
pub const CHECKPOINT_SIGNATURE: u32 = 0x494D_0001;

/// The signature of a bad-block log (`BBM_LOG_SIGNATURE` of super-intel.c).
pub const LOG_SIGNATURE: u32 = 0xABAD_B10C;
