//! What is said of images.
ghost use Rattle.std.specs.Prelude.{◌≡◌};
ghost use Rattle.image_verdict.specs.Text.{report_status, starts};

use arrayvec::ArrayVec;
use image_outside::Status;
use units::{MAX_DISKS, Serial};

/// What is said of images of the first form: the first that isn't one; or which disks of the table are absent; or that
/// the volume starts, with the disks that are there.
#[derive(Drop)]
pub enum Report {
    Unbuilt(Serial),
    Waiting {
        family: u32,
        generation: u32,
        missing: ArrayVec<Serial, MAX_DISKS>,
    },
    Started {
        family: u32,
        generation: u32,
        present: ArrayVec<Serial, MAX_DISKS>,
    },
}

impl Report {
    /// The status with which the report is printed.
    pub fn status(&self) -> Status
        ensures { result.0 ≡ report_status self.now }
    {
        match self {
            Report::Unbuilt(_) => Status::UNBUILT,
            Report::Waiting { .. } => Status::WAITING,
            Report::Started { .. } => Status::DONE,
        }
    }

    /// Whether the volume starts.
    pub fn starts(&self) -> bool
        ensures { result ≡ starts self.now }
    {
        matches!(self, Report::Started { .. })
    }
}
