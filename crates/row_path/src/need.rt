//! What a job needs next.
use crate::job::{JobKind, Need, RowJob};
use crate::members::Members;
use units::Slot;

impl RowJob {
    ghost use Rattle.std.specs.Prelude.{◌≡◌, ◌<◌, ◌&&◌, not, ℕ, IfSome, slice_index_or, true, false};
    ghost use Rattle.std.specs.Option.{option_map};
    ghost use Rattle.array_model.specs.declared.journal.Answer.{Answer};
    ghost use Rattle.array_machine.specs.Numbers.{first_of};
    ghost use Rattle.array_machine.specs.Volumes.{member_at};
    ghost use Rattle.array_machine.specs.Setting.{Setting};
    ghost use Rattle.array_machine.specs.Clients.{Row};
    ghost use Rattle.array_machine.specs.RowJobs.{pair_of, any_blocked, unwritten, unsynced, after_reads, answer_if};
    ghost use Rattle.row_path.specs.Seen.{members_seen};
    ghost use Rattle.row_path.specs.Plans.{number_of};
    ghost use Rattle.row_path.specs.Jobs.{StandsFor, is_write, place_for, need_of, need_seen, need_unless, IsOnMember};

    /// Whether the job writes.
    pub fn is_write(&self) -> bool
        ensures { result ≡ is_write self.now.kind }
    {
        match &self.kind {
            JobKind::Read => false,
            JobKind::Write(_) => true,
        }
    }

    /// Whether a slot is a target that wasn't written yet.
    fn is_unwritten(&self, members: &Members, slot: Slot) -> bool
        ensures { result ≡ ((member_at (members_seen members.now) slot.0).working
            && not (slice_index_or self.now.written.marks slot.0 false)) }
    {
        members.is_working(slot) && !self.written.has(slot)
    }

    /// Whether a slot is a target that was written and not synced.
    fn is_unsynced(&self, members: &Members, slot: Slot) -> bool
        ensures { result ≡ ((member_at (members_seen members.now) slot.0).working
            && (slice_index_or self.now.written.marks slot.0 false
            && not (slice_index_or self.now.synced.marks slot.0 false))) }
    {
        members.is_working(slot) && (self.written.has(slot) && !self.synced.has(slot))
    }

    /// The first target that wasn't written yet.
    fn next_write(&self, members: &Members) -> Option<Slot>
        ensures slot { (S : Setting) → (r : Row) → StandsFor S self.now r
            → option_map number_of result
            ≡ first_of (unwritten (members_seen members.now) (pair_of (place_for self.now)) r) }
        ensures below { IfSome result (λ s. s.0 < self.now.geometry.members) }
    {
        let (first, second) = self.pair();
        if self.is_unwritten(members, first) {
            Some(first)
        } else if self.is_unwritten(members, second) {
            Some(second)
        } else {
            None
        }
    }

    /// The first target that was written and not synced.
    fn next_sync(&self, members: &Members) -> Option<Slot>
        ensures slot { (S : Setting) → (r : Row) → StandsFor S self.now r
            → option_map number_of result
            ≡ first_of (unsynced (members_seen members.now) (pair_of (place_for self.now)) r) }
        ensures below { IfSome result (λ s. s.0 < self.now.geometry.members) }
    {
        let (first, second) = self.pair();
        if self.is_unsynced(members, first) {
            Some(first)
        } else if self.is_unsynced(members, second) {
            Some(second)
        } else {
            None
        }
    }

    /// Whether a blocked disk holds the job once its calls are made.
    fn is_held(&self, members: &Members) -> bool
        ensures { result ≡ any_blocked (members_seen members.now) (pair_of (place_for self.now)) }
    {
        let (first, second) = self.pair();
        members.is_blocked(first) || members.is_blocked(second)
    }

    /// What a job needs whose calls are made.
    fn answer(&self, members: &Members) -> Need
        ensures need { (answer : Answer) → result
            ≡ need_seen (answer_if (any_blocked (members_seen members.now) (pair_of (place_for self.now))) answer) }
        ensures below { (n : ℕ) → IsOnMember n result }
    {
        if self.is_held(members) {
            Need::HeldBlocked
        } else {
            Need::Done
        }
    }

    /// What a write needs that has read all.
    fn write_need(&self, members: &Members) -> Need
        ensures need { (S : Setting) → (r : Row) → StandsFor S self.now r
            → result ≡ need_seen (after_reads S (members_seen members.now) (pair_of (place_for self.now)) true r) }
        ensures below { IsOnMember self.now.geometry.members result }
    {
        match self.next_write(members) {
            Some(slot) => Need::Write(slot),
            None => match self.next_sync(members) {
                Some(slot) => Need::Sync(slot),
                None => self.answer(members),
            },
        }
    }

    /// What a job needs that has read all.
    fn need_after_reads(&self, members: &Members) -> Need
        ensures need { (S : Setting) → (r : Row) → StandsFor S self.now r
            → result ≡ need_seen (after_reads S (members_seen members.now) (pair_of (place_for self.now))
            (is_write self.now.kind) r) }
        ensures below { IsOnMember self.now.geometry.members result }
    {
        match &self.kind {
            JobKind::Read => self.answer(members),
            JobKind::Write(_) => self.write_need(members),
        }
    }

    /// What a job needs that its volume doesn't hold.
    pub fn need(&self, members: &Members) -> Need
        ensures need { (S : Setting) → (r : Row) → StandsFor S self.now r
            → result ≡ need_seen (need_of S self.now members.now r) }
        ensures below { IsOnMember self.now.geometry.members result }
    {
        match self.next_read(self.plan_now(members)) {
            Some(slot) => Need::Read(slot),
            None => self.need_after_reads(members),
        }
    }

    /// What a job needs next: nothing where its volume is broken, is write-pending for a write, or has a blocked disk,
    /// else what the machine's row of the job needs.
    pub fn next(&self, members: &Members) -> Need
        ensures need { (S : Setting) → (r : Row) → StandsFor S self.now r
            → result ≡ need_unless members.now.broken (is_write self.now.kind && members.now.pending)
            (need_of S self.now members.now r) }
        ensures below { IsOnMember self.now.geometry.members result }
    {
        if members.broken {
            Need::Broken
        } else if self.is_write() && members.pending {
            Need::HeldPending
        } else {
            self.need(members)
        }
    }
}
