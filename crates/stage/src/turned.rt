//! How a turn is answered.

use units::DiskNo;

/// What a turn did: it moved the run; its actor had nothing to do; the journal is full, or too many calls were made; or
/// a call on this disk failed, in this turn or before, which ends the run.
#[derive(Clone, Copy, Debug, PartialEq, Eq)]
pub enum Turned {
    Moved,
    Idle,
    JournalFull,
    Member(DiskNo),
}
