//! Disks as they were seen.
use imsm_buffer::MpbBuf;
use mpb_store::StoreFault;
use units::{DiskNo, Serial};

/// What was seen on a disk, with the block where it is whole: a container's where it has a volume, else a spare's.
#[derive(Drop)]
pub enum SeenAs {
    Whole(MpbBuf),
    Blank,
    Torn(StoreFault),
    Unread,
}

/// A disk that is there: its number, its serial, how many sectors it has, and what was seen on it.
#[derive(Drop)]
pub struct Seen {
    pub disk: DiskNo,
    pub serial: Serial,
    pub sectors: u64,
    pub holds: SeenAs,
}
