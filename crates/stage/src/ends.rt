//! How several turns in a row end.

use units::DiskNo;

/// How a list of turns ended: all were made; the journal is full; or a call on this disk failed.
#[derive(Clone, Copy, Debug, PartialEq, Eq)]
pub enum DriveEnd {
    Over,
    Full,
    Member(DiskNo),
}

/// How a cycle of turns ended: nobody had anything to do; something was done; or no more can be.
#[derive(Clone, Copy, Debug, PartialEq, Eq)]
pub enum Cycle {
    Rested,
    Went,
    Ends(DriveEnd),
}
