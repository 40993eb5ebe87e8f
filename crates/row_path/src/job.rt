//! Row jobs.
ghost use Rattle.std.specs.Prelude.{◌≡◌, ◌<◌, ◌≤◌};

use crate::slots::Slots;
use raid_map::Place;
use units::{Geometry, Sector, Slot};

/// What a job is there for: to read a sector of a volume, or to write this one.
#[derive(Clone, Copy, Debug, PartialEq, Eq)]
pub enum JobKind {
    Read,
    Write(Sector),
}

/// What a job needs next: a call on the disk of a slot; nothing, as its volume is write-pending or one of its disks is
/// blocked; to be answered; or nothing ever, as its volume is broken.
#[derive(Clone, Copy, Debug, PartialEq, Eq)]
pub enum Need {
    Read(Slot),
    Write(Slot),
    Sync(Slot),
    HeldPending,
    HeldBlocked,
    Done,
    Broken,
}

/// What a job reads: nothing; the slot of the data, that of the mirror or of the parity, both; all slots but that of
/// the data; or of these all but the parity's.
#[derive(Clone, Copy, Debug, PartialEq, Eq)]
pub enum Plan {
    Nothing,
    Main,
    Other,
    Pair,
    Others,
    OtherData,
}

/// The job of one row. Of what was read it keeps the sum, onto the value that it writes.
#[derive(Clone, Copy)]
pub struct RowJob {
    pub kind: JobKind,
    pub geometry: Geometry,
    pub place: Place,
    pub begun: bool,
    pub plan: Option<Plan>,
    pub has_read: bool,
    pub read: Slots,
    pub written: Slots,
    pub synced: Slots,
    pub sum: Sector,
    ghost members: { geometry.members ≤ 8 },
    ghost main: { place.main.0 < geometry.members },
    ghost other: { place.other.0 < geometry.members },
}

impl RowJob {
    ghost use Rattle.array_machine.specs.Setting.{Setting};
    ghost use Rattle.array_machine.specs.Clients.{no_row};
    ghost use Rattle.row_path.specs.Jobs.{StandsFor};

    /// A job that made no call yet.
    pub fn new(kind: JobKind, g: &Geometry, place: Place) -> RowJob
        requires members { g.now.members ≤ 8 }
        requires main { place.main.0 < g.now.members }
        requires other { place.other.0 < g.now.members }
        ensures kind { result.kind ≡ kind }
        ensures geometry { result.geometry ≡ g.now }
        ensures place { result.place ≡ place }
        ensures row { (S : Setting) → StandsFor S result no_row }
    {
        RowJob {
            kind,
            geometry: *g,
            place,
            begun: false,
            plan: None,
            has_read: false,
            read: Slots::none(),
            written: Slots::none(),
            synced: Slots::none(),
            sum: kind.first_sum(),
        }
    }
}
