//! What an edit takes as given.
ghost use Rattle.std.specs.Prelude.{◌≡◌, ◌<◌, ◌≤◌, length, true};
ghost use Rattle.imsm_edit.specs.Meanings.{is_told};

use arrayvec::ArrayVec;
use units::{MAX_DISKS, MAX_VOLUMES, VolNo};

/// For each volume of a block, whether it is started and whether it is broken, and for each record, whether its disk is
/// working.
#[derive(Drop)]
pub struct EditFacts {
    pub started: ArrayVec<bool, MAX_VOLUMES>,
    pub broken: ArrayVec<bool, MAX_VOLUMES>,
    pub working: ArrayVec<bool, MAX_DISKS>,
}

impl EditFacts {
    /// Facts are of two volumes at most and of 16 records, as they hold no more.
    pub(crate) fn are_few(&self)
        ensures volumes { length self.now.started.items ≤ MAX_VOLUMES }
        ensures disks { length self.now.working.items ≤ MAX_DISKS }
    {
        let _volumes = self.started.len();
        let _disks = self.working.len();
    }

    /// Whether a volume is started.
    pub(crate) fn is_started(&self, v: VolNo) -> bool
        ensures { result ≡ is_told self.now.started.items v.0 }
    {
        match self.started.get(usize::from(v.0)) {
            Some(started) => *started,
            None => false,
        }
    }

    /// Whether a volume is broken.
    pub(crate) fn is_broken(&self, v: VolNo) -> bool
        ensures { result ≡ is_told self.now.broken.items v.0 }
    {
        match self.broken.get(usize::from(v.0)) {
            Some(broken) => *broken,
            None => false,
        }
    }
}
