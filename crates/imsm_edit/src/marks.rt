//! The edits that leave a volume's pass open or closed, as it is.
ghost use Rattle.std.specs.Prelude.{◌≡◌, ◌<◌, None, true};
ghost use Rattle.imsm_base.specs.Layout.{volume_count_of};
ghost use Rattle.imsm_base.specs.Volumes.{volume_fault};
ghost use Rattle.imsm_codec.specs.Mpb.{volume_at};
ghost use Rattle.imsm_buffer.specs.Buffer.{parts_of};
ghost use Rattle.imsm_view.specs.Views.{IsVolume};
ghost use Rattle.imsm_edit.specs.Meanings.{AreFacts, is_told, marked_dirty, marked_clean, marked_point};

use crate::facts::EditFacts;
use crate::states::set_states;
use imsm_buffer::MpbBuf;
use imsm_view::{Volume, volume_of};
use units::VolNo;

/// The view of a volume that is supported.
pub(crate) fn view_of(book: &MpbBuf, v: VolNo) -> Volume
    requires volume { v.0 < volume_count_of (parts_of book.now) }
    requires supported { volume_fault (parts_of book.now) v.0 (volume_at v.0 (parts_of book.now)) ≡ None }
    ensures { IsVolume (parts_of book.now) (volume_at v.0 (parts_of book.now)) result }
{
    volume_of(&book.parts(), v).unwrap()
}

/// Sets the dirty bit of a started volume.
pub fn mark_dirty(book: &mut MpbBuf, v: VolNo, facts: &EditFacts)
    requires volume { v.0 < volume_count_of (parts_of book.old) }
    requires facts { AreFacts (parts_of book.old) facts.now }
    requires started { is_told facts.now.started.items v.0 ≡ true }
    ensures block { parts_of book.new ≡ marked_dirty (parts_of book.old) v.0 (is_told facts.now.broken.items v.0) }
    ensures room { book.new.room ≡ book.old.room }
{
    let view = view_of(book, v);
    book.set_dirty(v, true);
    set_states(book, v, &view, facts.is_broken(v));
}

/// Clears the dirty bit of a started volume.
pub fn mark_clean(book: &mut MpbBuf, v: VolNo, facts: &EditFacts)
    requires volume { v.0 < volume_count_of (parts_of book.old) }
    requires facts { AreFacts (parts_of book.old) facts.now }
    requires started { is_told facts.now.started.items v.0 ≡ true }
    ensures block { parts_of book.new ≡ marked_clean (parts_of book.old) v.0 (is_told facts.now.broken.items v.0) }
    ensures room { book.new.room ≡ book.old.room }
{
    let view = view_of(book, v);
    book.set_dirty(v, false);
    set_states(book, v, &view, facts.is_broken(v));
}

/// Notes how far the pass of a started volume has come, in units of 128 rows.
pub fn mark_point(book: &mut MpbBuf, v: VolNo, unit: u64, facts: &EditFacts)
    requires volume { v.0 < volume_count_of (parts_of book.old) }
    requires facts { AreFacts (parts_of book.old) facts.now }
    requires started { is_told facts.now.started.items v.0 ≡ true }
    ensures block { parts_of book.new ≡ marked_point (parts_of book.old) v.0 (is_told facts.now.broken.items v.0) unit }
    ensures room { book.new.room ≡ book.old.room }
{
    let view = view_of(book, v);
    let kind = book.parts().migr_type(v);
    book.set_pass(v, kind, unit);
    set_states(book, v, &view, facts.is_broken(v));
}
