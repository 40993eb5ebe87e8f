//! The edit that a disk's failure makes.
ghost use Rattle.std.specs.Prelude.{◌≡◌, ◌<◌, ◌==◌, ℕ, map, is_some, is_none, false, if◌then◌else◌, IfSome};
ghost use Rattle.std.specs.Option.{option_map_or};
ghost use Rattle.imsm_base.specs.Layout.{disk_count_of, volume_count_of, map_state_of};
ghost use Rattle.imsm_base.specs.Volumes.{first_map, is_expected_at, volume_fault};
ghost use Rattle.imsm_base.specs.EditsOfTables.{with_volume};
ghost use Rattle.imsm_codec.specs.Mpb.{volume_at};
ghost use Rattle.imsm_buffer.specs.Buffer.{parts_of};
ghost use Rattle.imsm_edit.specs.Meanings.{AreFacts, Tells, is_told};
ghost use Rattle.imsm_edit.specs.Failures.{record_failed, lost, TellsLost, is_rebuild, seen_idle_rebuild, settled, volume_failed, marked_failed};

use crate::facts::EditFacts;
use crate::passes::close_pass;
use crate::slots::mark_maps;
use crate::states::{is_any_to_rebuild, set_states};
use imsm_buffer::MpbBuf;
use imsm_view::{SlotView, Volume, volume_of};
use units::{MAX_DISKS, VolNo};

/// Sets the failed bit of a disk's record.
fn fail_record(book: &mut MpbBuf, i: u8)
    requires { i < disk_count_of (parts_of book.old) }
    ensures block { parts_of book.new ≡ record_failed (parts_of book.old) i }
    ensures failed { is_expected_at (parts_of book.new) i ≡ false }
    ensures room { book.new.room ≡ book.old.room }
{
    let status = book.parts().disk_status(i);
    book.set_status(i, status / 8 * 8 + 4 + status % 4);
}

/// A slot's view after the failure of a disk.
fn lost(slot: SlotView, i: u8) -> SlotView
    ensures { result ≡ lost i slot }
{
    if slot.index != i {
        return slot;
    }
    SlotView {
        index: i,
        out: true,
        expected: false,
    }
}

fn lose(slots: &mut [SlotView], i: u8)
    ensures { slots.new ≡ map (lost i) slots.old }
{
    for slot in slots.iter_mut() {
        *slot = lost(*slot, i);
    }
}

/// The view of a volume that is there and supported, with its slots as they are after the failure of a disk.
fn lost_view(book: &MpbBuf, v: VolNo, i: u8) -> Option<Volume>
    ensures there { IfSome result (λ _. v.0 < volume_count_of (parts_of book.now)) }
    ensures view { IfSome result (λ view. TellsLost (parts_of book.now) i (volume_at v.0 (parts_of book.now)) view) }
    ensures some { v.0 < volume_count_of (parts_of book.now)
        → is_some result ≡ is_none (volume_fault (parts_of book.now) v.0 (volume_at v.0 (parts_of book.now))) }
{
    let mpb = book.parts();
    if v.0 >= mpb.volumes() {
        return None;
    }
    match volume_of(&mpb, v) {
        Ok(mut view) => {
            lose(view.slots.as_mut_slice(), i);
            Some(view)
        }
        Err(_) => None,
    }
}

/// A list over the disks' indices that names one of them.
fn only(i: u8) -> [bool; MAX_DISKS]
    requires { i < 16 }
    ensures { (k : ℕ) → is_told result k ≡ (k == i) }
{
    let mut disks = [false; MAX_DISKS];
    disks[usize::from(i)] = true;
    disks
}

fn is_rebuild(pass: Option<u8>) -> bool
    ensures { result ≡ option_map_or is_rebuild pass false }
{
    match pass {
        Some(kind) => kind == 1,
        None => false,
    }
}

/// Whether a rebuild is open that has no slot to rebuild.
fn is_idle_rebuild(view: &Volume) -> bool
    ensures { result ≡ seen_idle_rebuild view.now }
{
    is_rebuild(view.pass) && !is_any_to_rebuild(view.slots.as_slice())
}

/// Closes a rebuild that has nothing left to rebuild, and sets the states, but for those of an uninitialised volume.
fn settle(book: &mut MpbBuf, v: VolNo, view: &Volume, broken: bool)
    requires volume { v.0 < volume_count_of (parts_of book.old) }
    requires told { Tells (parts_of book.old) (volume_at v.0 (parts_of book.old)) view.now }
    requires state { view.now.state ≡ map_state_of (first_map (volume_at v.0 (parts_of book.old))) }
    ensures block { parts_of book.new ≡ with_volume v.0 (settled (parts_of book.old) broken) (parts_of book.old) }
    ensures room { book.new.room ≡ book.old.room }
{
    let is_idle = is_idle_rebuild(view);
    let keeps = view.state == 1;
    if keeps && is_idle {
        book.close_migration(v);
        return;
    }
    if keeps {
        return;
    }
    if is_idle {
        close_pass(book, v, broken);
        return;
    }
    set_states(book, v, view, broken);
}

/// What the failure of a disk, whose record says so by now, means for a volume that has the disk or not.
fn fail_volume(book: &mut MpbBuf, v: VolNo, view: Volume, i: u8, facts: &EditFacts)
    requires volume { v.0 < volume_count_of (parts_of book.old) }
    requires index { i < 16 }
    requires failed { is_expected_at (parts_of book.old) i ≡ false }
    requires told { TellsLost (parts_of book.old) i (volume_at v.0 (parts_of book.old)) view }
    ensures block { parts_of book.new
        ≡ with_volume v.0 (volume_failed (parts_of book.old) i facts.now v.0) (parts_of book.old) }
    ensures room { book.new.room ≡ book.old.room }
{
    mark_maps(book, v, view.slots.as_slice(), &only(i), true);
    if !facts.is_started(v) {
        return;
    }
    settle(book, v, &view, facts.is_broken(v));
}

/// The same where there is a view.
fn fail_seen(book: &mut MpbBuf, v: VolNo, view: Option<Volume>, i: u8, facts: &EditFacts)
    requires index { i < 16 }
    requires failed { is_expected_at (parts_of book.old) i ≡ false }
    requires there { IfSome view (λ _. v.0 < volume_count_of (parts_of book.old)) }
    requires told { IfSome view (λ x. TellsLost (parts_of book.old) i (volume_at v.0 (parts_of book.old)) x) }
    ensures block { parts_of book.new ≡ with_volume v.0
        (λ x. if is_some view then volume_failed (parts_of book.old) i facts.now v.0 x else x) (parts_of book.old) }
    ensures room { book.new.room ≡ book.old.room }
{
    match view {
        Some(view) => fail_volume(book, v, view, i, facts),
        None => {}
    }
}

/// Marks a disk failed by the index of its record: the record says so, and in each supported volume the slot of the
/// disk is out of sync. In a started one a rebuild that has lost its disk is closed.
pub fn mark_failed(book: &mut MpbBuf, i: u8, facts: &EditFacts)
    requires record { i < disk_count_of (parts_of book.old) }
    requires facts { AreFacts (parts_of book.old) facts.now }
    ensures block { parts_of book.new ≡ marked_failed (parts_of book.old) i facts.now }
    ensures room { book.new.room ≡ book.old.room }
{
    facts.are_few();
    // Both views are of the block before the edit: whether a volume is supported is asked of that block.
    let first = lost_view(book, VolNo(0), i);
    let second = lost_view(book, VolNo(1), i);
    fail_record(book, i);
    fail_seen(book, VolNo(0), first, i, facts);
    fail_seen(book, VolNo(1), second, i, facts);
}
