//! What a view of a volume answers.
ghost use Rattle.std.specs.Prelude.{◌≡◌, ◌<◌, ◌&&◌, ◌||◌, map, not, Some, false};
ghost use Rattle.std.specs.List.{list_any, count_by};
ghost use Rattle.std.specs.Option.{option_map_or};
ghost use Rattle.units.specs.Levels.{suffices};
ghost use Rattle.imsm_view.specs.Questions.{is_slot_in_sync, is_in_sync_at, is_resync, is_unfinished, is_degraded, can_run, is_resumed, pass_start, wants_pass};

use crate::volume::{SlotView, Volume};
use imsm_base::CHECKPOINT_SIGNATURE;
use units::{Level, Slot, UNIT_ROWS};

impl SlotView {
    /// Whether the slot's data are those of the volume.
    fn is_in_sync(&self) -> bool
        ensures { result ≡ is_slot_in_sync self.now }
    {
        !self.out && self.expected
    }
}

fn is_any_in_sync(slots: &[SlotView]) -> bool
    ensures { result ≡ list_any is_slot_in_sync slots.now }
{
    slots.iter().any(|slot| slot.is_in_sync())
}

fn count_out_of_sync(slots: &[SlotView]) -> usize
    ensures { result ≡ count_by (λ s. not (is_slot_in_sync s)) slots.now }
{
    let mut count = 0;
    for slot in slots {
        if !slot.is_in_sync() {
            count += 1;
        }
    }
    count
}

/// Whether the slots that are in sync hold all data.
fn suffices(level: Level, slots: &[SlotView]) -> bool
    ensures { result ≡ suffices (Some level) (map is_slot_in_sync slots.now) }
{
    match level {
        Level::One => is_any_in_sync(slots),
        Level::Five => count_out_of_sync(slots) <= 1,
        Level::Ten => {
            let pair = slots.len().min(2);
            is_any_in_sync(&slots[..pair]) && is_any_in_sync(&slots[pair..])
        }
    }
}

/// Whether a pass that makes the members agree is open.
fn has_resync(pass: Option<u8>) -> bool
    ensures { result ≡ option_map_or is_resync pass false }
{
    match pass {
        Some(kind) => kind == 0 || kind == 2 || kind == 5,
        None => false,
    }
}

/// Whether a slot whose disk is expected is out of sync.
fn is_any_to_be_rebuilt(slots: &[SlotView]) -> bool
    ensures { result ≡ list_any (λ s. s.out && s.expected) slots.now }
{
    slots.iter().any(|slot| slot.out && slot.expected)
}

impl Volume {
    /// Whether a slot is there and in sync.
    pub fn in_sync(&self, slot: Slot) -> bool
        ensures { result ≡ is_in_sync_at self.now slot.0 }
    {
        match self.slots.get(usize::from(slot.0)) {
            Some(slot) => slot.is_in_sync(),
            None => false,
        }
    }

    /// Whether the members may differ: the volume is dirty or uninitialised, or a pass is open that makes them agree.
    pub fn unfinished(&self) -> bool
        ensures { result ≡ is_unfinished self.now }
    {
        self.dirty || self.state == 1 || has_resync(self.pass)
    }

    /// Whether some slot isn't in sync.
    pub fn degraded(&self) -> bool
        ensures { result ≡ is_degraded self.now }
    {
        self.slots.as_slice().iter().any(|slot| !slot.is_in_sync())
    }

    /// Whether the slots in sync hold all data, and the volume hasn't failed.
    pub fn can_run(&self) -> bool
        ensures { result ≡ can_run self.now }
    {
        suffices(self.geometry.level, self.slots.as_slice()) && self.state != 3
    }

    /// Whether the checkpoint tells where the open pass goes on.
    fn is_resumed(&self) -> bool
        ensures { result ≡ is_resumed self.now }
    {
        match self.pass {
            Some(kind) => kind != 2 && self.checkpoint == CHECKPOINT_SIGNATURE && !self.dirty,
            None => false,
        }
    }

    /// The row that the open pass goes on from: that of its checkpoint where it is honoured, else 0.
    pub fn pass_start(&self) -> u64
        ensures { result ≡ pass_start self.now }
    {
        if self.is_resumed() && self.unit <= self.geometry.rows / UNIT_ROWS {
            self.unit * UNIT_ROWS
        } else {
            0
        }
    }

    /// Whether a pass has something to do: the volume is unfinished, or a slot is to be rebuilt.
    pub fn wants_pass(&self) -> bool
        ensures { result ≡ wants_pass self.now }
    {
        self.unfinished() || is_any_to_be_rebuilt(self.slots.as_slice())
    }
}
