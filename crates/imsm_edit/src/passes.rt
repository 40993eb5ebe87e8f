//! The edits that open a volume's pass, or close it.
ghost use Rattle.std.specs.Prelude.{◌≡◌, ◌<◌, ◌≤◌, ◌+◌, ◌⊎◌, ◌↔◌, map, length, true, false, if◌then◌else◌, IsOk, OnOk, OnErr, IfErr};
ghost use Rattle.imsm_base.specs.Layout.{volume_count_of};
ghost use Rattle.imsm_base.specs.Volumes.{first_map, members, has_pass, wants_pass};
ghost use Rattle.imsm_base.specs.Parts.{map_room};
ghost use Rattle.imsm_base.specs.EditsOfTables.{with_volume, volume_with_pass, volume_without_migration};
ghost use Rattle.imsm_codec.specs.Mpb.{volume_at};
ghost use Rattle.imsm_buffer.specs.Buffer.{parts_of};
ghost use Rattle.imsm_view.specs.Views.{slot_view};
ghost use Rattle.imsm_edit.specs.Meanings.{AreFacts, is_told, edited};
ghost use Rattle.imsm_edit.specs.Passes.{with_migration, started_pass, marked_started};
ghost use Rattle.imsm_edit.specs.Slots.{marked_in_sync};

use crate::facts::EditFacts;
use crate::marks::view_of;
use crate::slots::{has_out, mark_maps};
use crate::states::{resync_type, set_states, state_alone};
use imsm_buffer::{MpbBuf, NoRoom};
use imsm_view::Volume;
use units::{UNIT_ROWS, VolNo};

/// Opens a migration of a volume, where none is open.
fn open_pass(book: &mut MpbBuf, v: VolNo) -> Result<(), NoRoom>
    requires { v.0 < volume_count_of (parts_of book.old) }
    ensures block { OnOk result (parts_of book.new ≡ with_volume v.0 with_migration (parts_of book.old)) }
    ensures room { OnOk result (book.new.room ≡ book.old.room) }
    ensures err { OnErr result (book.new ≡ book.old) }
    ensures variant { IsOk result ↔ ((has_pass (volume_at v.0 (parts_of book.old)) ≡ true)
        ⊎ (length book.old.bytes + map_room (first_map (volume_at v.0 (parts_of book.old))) ≤ book.old.room)) }
    ensures told { IfErr result (λ e.
        (e.needed ≡ length book.old.bytes + map_room (first_map (volume_at v.0 (parts_of book.old))))
        × (e.room ≡ book.old.room)) }
{
    if book.parts().migr_state(v) != 0 {
        return Ok(());
    }
    book.open_migration(v)
}

/// The same, where it is wanted.
fn open_wanted(book: &mut MpbBuf, v: VolNo, wanted: bool) -> Result<(), NoRoom>
    requires { v.0 < volume_count_of (parts_of book.old) }
    ensures block { OnOk result (parts_of book.new
        ≡ (if wanted then with_volume v.0 with_migration (parts_of book.old) else parts_of book.old)) }
    ensures room { OnOk result (book.new.room ≡ book.old.room) }
    ensures err { OnErr result (book.new ≡ book.old) }
    ensures variant { IsOk result ↔ ((wanted ≡ false) ⊎ ((has_pass (volume_at v.0 (parts_of book.old)) ≡ true)
        ⊎ (length book.old.bytes + map_room (first_map (volume_at v.0 (parts_of book.old))) ≤ book.old.room))) }
    ensures told { IfErr result (λ e.
        (e.needed ≡ length book.old.bytes + map_room (first_map (volume_at v.0 (parts_of book.old))))
        × (e.room ≡ book.old.room)) }
{
    if !wanted {
        return Ok(());
    }
    open_pass(book, v)
}

/// Makes the open migration of a volume a pass of this type, which goes on from a unit, and sets the states by a view
/// that tells the slots.
fn set_open_pass(book: &mut MpbBuf, v: VolNo, view: Volume, kind: u8, unit: u64, broken: bool)
    requires volume { v.0 < volume_count_of (parts_of book.old) }
    requires open { has_pass (volume_at v.0 (parts_of book.old)) ≡ true }
    requires slots { view.slots.items
        ≡ map (slot_view (parts_of book.old)) (members (volume_at v.0 (parts_of book.old))) }
    ensures block { parts_of book.new ≡ edited (parts_of book.old) v.0 broken (volume_with_pass kind unit) }
    ensures room { book.new.room ≡ book.old.room }
{
    let mut view = view;
    book.set_pass(v, kind, unit);
    view.pass = Some(kind);
    set_states(book, v, &view, broken);
}

/// Closes a volume's pass. The states are then those of the one map that is left, which a view of both doesn't tell.
pub(crate) fn close_pass(book: &mut MpbBuf, v: VolNo, broken: bool)
    requires volume { v.0 < volume_count_of (parts_of book.old) }
    requires open { has_pass (volume_at v.0 (parts_of book.old)) ≡ true }
    ensures block { parts_of book.new ≡ edited (parts_of book.old) v.0 broken volume_without_migration }
    ensures room { book.new.room ≡ book.old.room }
{
    book.close_migration(v);
    let state = state_alone(broken, has_out(book, v));
    book.set_state(v, 0, state);
}

/// Opens a pass of a started volume, or makes the open one a pass of this type, which begins at its first row.
pub fn start_pass(book: &mut MpbBuf, v: VolNo, kind: u8, facts: &EditFacts) -> Result<(), NoRoom>
    requires volume { v.0 < volume_count_of (parts_of book.old) }
    requires facts { AreFacts (parts_of book.old) facts.now }
    requires started { is_told facts.now.started.items v.0 ≡ true }
    ensures block { OnOk result (parts_of book.new
        ≡ started_pass (parts_of book.old) v.0 (is_told facts.now.broken.items v.0) kind) }
    ensures room { OnOk result (book.new.room ≡ book.old.room) }
    ensures err { OnErr result (book.new ≡ book.old) }
    // It is refused exactly where no pass is open and a second map doesn't fit.
    ensures variant { IsOk result ↔ ((has_pass (volume_at v.0 (parts_of book.old)) ≡ true)
        ⊎ (length book.old.bytes + map_room (first_map (volume_at v.0 (parts_of book.old))) ≤ book.old.room)) }
    ensures told { IfErr result (λ e.
        (e.needed ≡ length book.old.bytes + map_room (first_map (volume_at v.0 (parts_of book.old))))
        × (e.room ≡ book.old.room)) }
{
    let view = view_of(book, v);
    open_pass(book, v)?;
    set_open_pass(book, v, view, kind, 0, facts.is_broken(v));
    Ok(())
}

/// Starts a volume: an unfinished one and one with a slot to rebuild get a pass, which goes on from where an open one
/// was; a pass that has nothing to do is closed.
pub fn start_edit(book: &mut MpbBuf, v: VolNo, facts: &EditFacts) -> Result<(), NoRoom>
    requires volume { v.0 < volume_count_of (parts_of book.old) }
    requires facts { AreFacts (parts_of book.old) facts.now }
    requires started { is_told facts.now.started.items v.0 ≡ true }
    ensures block { OnOk result (parts_of book.new
        ≡ marked_started (parts_of book.old) v.0 (is_told facts.now.broken.items v.0)) }
    ensures room { OnOk result (book.new.room ≡ book.old.room) }
    ensures err { OnErr result (book.new ≡ book.old) }
    // It is refused exactly where a pass is wanted, none is open and a second map doesn't fit.
    ensures variant { IsOk result ↔ ((wants_pass (parts_of book.old) (volume_at v.0 (parts_of book.old)) ≡ false)
        ⊎ ((has_pass (volume_at v.0 (parts_of book.old)) ≡ true)
        ⊎ (length book.old.bytes + map_room (first_map (volume_at v.0 (parts_of book.old))) ≤ book.old.room))) }
    ensures told { IfErr result (λ e.
        (e.needed ≡ length book.old.bytes + map_room (first_map (volume_at v.0 (parts_of book.old))))
        × (e.room ≡ book.old.room)) }
{
    let view = view_of(book, v);
    let broken = facts.is_broken(v);
    let unit = view.pass_start() / UNIT_ROWS;
    let wanted = view.wants_pass();
    open_wanted(book, v, wanted)?;
    if view.unfinished() {
        let kind = resync_type(&view);
        book.set_dirty(v, false);
        set_open_pass(book, v, view, kind, unit, broken);
        return Ok(());
    }
    if wanted {
        set_open_pass(book, v, view, 1, unit, broken);
        return Ok(());
    }
    if view.pass.is_some() {
        close_pass(book, v, broken);
        return Ok(());
    }
    set_states(book, v, &view, broken);
    Ok(())
}

/// Ends the pass of a started volume: its slots whose disks are working are in sync, and the pass is closed.
pub fn mark_in_sync(book: &mut MpbBuf, v: VolNo, facts: &EditFacts)
    requires volume { v.0 < volume_count_of (parts_of book.old) }
    requires facts { AreFacts (parts_of book.old) facts.now }
    requires started { is_told facts.now.started.items v.0 ≡ true }
    requires open { has_pass (volume_at v.0 (parts_of book.old)) ≡ true }
    ensures block { parts_of book.new ≡ marked_in_sync (parts_of book.old) v.0 (is_told facts.now.broken.items v.0)
        facts.now.working.items }
    ensures room { book.new.room ≡ book.old.room }
{
    let view = view_of(book, v);
    mark_maps(
        book,
        v,
        view.slots.as_slice(),
        facts.working.as_slice(),
        false,
    );
    close_pass(book, v, facts.is_broken(v));
}
