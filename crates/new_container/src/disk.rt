//! A disk that a container is made over.
use units::Serial;

/// A disk that a container is made over: its serial, and how many sectors it has.
#[derive(Clone, Copy, Debug, PartialEq, Eq)]
pub struct NewDisk {
    pub serial: Serial,
    pub sectors: u64,
}
