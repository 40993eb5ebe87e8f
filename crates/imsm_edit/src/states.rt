//! The states of a volume's maps.
ghost use Rattle.std.specs.Prelude.{◌≡◌, ◌<◌, ◌&&◌, not, false, if◌then◌else◌};
ghost use Rattle.std.specs.Option.{option_map_or};
ghost use Rattle.std.specs.List.{list_any};
ghost use Rattle.imsm_base.specs.Layout.{volume_count_of};
ghost use Rattle.imsm_base.specs.EditsOfTables.{with_volume};
ghost use Rattle.imsm_codec.specs.Mpb.{volume_at};
ghost use Rattle.imsm_buffer.specs.Buffer.{parts_of};
ghost use Rattle.imsm_edit.specs.Meanings.{is_init, seen_now, seen_before, with_states, Tells};
ghost use Rattle.imsm_edit.specs.Passes.{seen_resync};

use imsm_buffer::MpbBuf;
use imsm_view::{SlotView, Volume};
use units::VolNo;

fn is_any_out(slots: &[SlotView]) -> bool
    ensures { result ≡ list_any (λ s. s.out) slots.now }
{
    slots.iter().any(|slot| slot.out)
}

/// Whether a slot is out of sync that no pass brings back, since its disk isn't expected.
fn is_any_lost(slots: &[SlotView]) -> bool
    ensures { result ≡ list_any (λ s. s.out && not s.expected) slots.now }
{
    slots.iter().any(|slot| slot.out && !slot.expected)
}

/// Whether a slot is out of sync that a pass may bring back.
pub(crate) fn is_any_to_rebuild(slots: &[SlotView]) -> bool
    ensures { result ≡ list_any (λ s. s.out && s.expected) slots.now }
{
    slots.iter().any(|slot| slot.out && slot.expected)
}

fn is_init(pass: Option<u8>) -> bool
    ensures { result ≡ option_map_or is_init pass false }
{
    match pass {
        Some(kind) => kind == 0,
        None => false,
    }
}

/// The state that a volume has: 0 normal, 1 uninitialised, 2 degraded, 3 failed.
fn state_now(view: &Volume, broken: bool) -> u8
    ensures { result ≡ seen_now broken view.now }
{
    if broken {
        3
    } else if is_any_out(view.slots.as_slice()) {
        2
    } else if is_init(view.pass) {
        1
    } else {
        0
    }
}

/// The state that a volume comes from while a pass is open.
fn state_before(view: &Volume, broken: bool) -> u8
    ensures { result ≡ seen_before broken view.now }
{
    if broken {
        3
    } else if is_any_lost(view.slots.as_slice()) {
        2
    } else {
        0
    }
}

/// The state of a volume without a pass.
pub(crate) fn state_alone(broken: bool, out: bool) -> u8
    ensures { result ≡ (if broken then 3 else (if out then 2 else 0)) }
{
    if broken {
        3
    } else if out {
        2
    } else {
        0
    }
}

/// The type of the pass that makes the members of an unfinished volume agree: 0 init, 5 repair.
pub(crate) fn resync_type(view: &Volume) -> u8
    ensures { result ≡ seen_resync view.now }
{
    if view.state == 1 || is_init(view.pass) {
        0
    } else {
        5
    }
}

/// Sets the states of a volume's maps, by a view that tells its pass and its slots.
pub(crate) fn set_states(book: &mut MpbBuf, v: VolNo, view: &Volume, broken: bool)
    requires volume { v.0 < volume_count_of (parts_of book.old) }
    requires told { Tells (parts_of book.old) (volume_at v.0 (parts_of book.old)) view.now }
    ensures block { parts_of book.new ≡ with_volume v.0 (with_states (parts_of book.old) broken) (parts_of book.old) }
    ensures room { book.new.room ≡ book.old.room }
{
    let now = state_now(view, broken);
    if view.pass.is_none() {
        book.set_state(v, 0, now);
    } else {
        book.set_state(v, 0, state_before(view, broken));
        book.set_state(v, 1, now);
    }
}
