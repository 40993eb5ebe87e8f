//! The members of a volume as jobs and passes see them, and what a call of theirs came to.
ghost use Rattle.std.specs.Prelude.{◌≡◌};
ghost use Rattle.array_machine.specs.Volumes.{member_at, is_usable};
ghost use Rattle.row_path.specs.Seen.{member_seen, members_seen};

use arrayvec::ArrayVec;
use units::{Sector, Slot};

/// A slot: its disk is there without a fault, it is in sync, and its disk is blocked.
#[derive(Clone, Copy, Debug, Default, PartialEq, Eq)]
pub struct MemberFact {
    pub working: bool,
    pub in_sync: bool,
    pub blocked: bool,
}

/// The slots of a volume, and whether it is write-pending and whether it is broken.
#[derive(Drop)]
pub struct Members {
    pub slots: ArrayVec<MemberFact, 8>,
    pub pending: bool,
    pub broken: bool,
}

/// What came of a call: a read gave this sector, a write or a sync went through, or the disk of a slot became faulty.
#[derive(Clone, Copy, Debug, PartialEq, Eq)]
pub enum Fed {
    Got(Sector),
    Went,
    Lost(Slot),
}

impl Members {
    /// What is known of a slot; past the last slot nothing works.
    pub fn member(&self, slot: Slot) -> MemberFact
        ensures { member_seen result ≡ member_at (members_seen self.now) slot.0 }
    {
        match self.slots.as_slice().get(slot.0 as usize) {
            Some(member) => *member,
            None => MemberFact::default(),
        }
    }

    /// Whether a slot may be read.
    pub fn is_usable(&self, slot: Slot) -> bool
        ensures { result ≡ is_usable (member_at (members_seen self.now) slot.0) }
    {
        let member = self.member(slot);
        member.working && member.in_sync
    }

    /// Whether a slot may be written.
    pub fn is_working(&self, slot: Slot) -> bool
        ensures { result ≡ (member_at (members_seen self.now) slot.0).working }
    {
        self.member(slot).working
    }

    /// Whether the disk of a slot is blocked.
    pub fn is_blocked(&self, slot: Slot) -> bool
        ensures { result ≡ (member_at (members_seen self.now) slot.0).blocked }
    {
        self.member(slot).blocked
    }
}
