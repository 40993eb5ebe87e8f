//! A disk's record that is added to a block (`struct imsm_disk` of super-intel.c).
use units::Serial;

/// A disk's serial, how many sectors it has, and the words of its record: `scsi_id`, `status`, `owner_cfg_num`.
#[derive(Clone, Copy, Debug, PartialEq, Eq)]
pub struct DiskRecord {
    pub serial: Serial,
    pub blocks: u64,
    pub scsi: u32,
    pub status: u32,
    pub owner: u32,
}
