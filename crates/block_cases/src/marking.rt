//! A mirror that is marked.
ghost use Rattle.std.specs.Prelude.{◌≡◌, ◌<◌, IfSome, IsTrue, true};
ghost use Rattle.imsm_base.specs.Layout.{disk_count_of, volume_count_of};
ghost use Rattle.imsm_base.specs.Volumes.{has_pass};
ghost use Rattle.imsm_codec.specs.Mpb.{volume_at};
ghost use Rattle.imsm_buffer.specs.Buffer.{parts_of};
ghost use Rattle.imsm_edit.specs.Meanings.{AreFacts, is_told};

use crate::mirror::changed;
use arrayvec::ArrayVec;
use imsm_buffer::{MpbBuf, NoRoom};
use imsm_codec::check;
use imsm_edit::{
    EditFacts, mark_clean, mark_dirty, mark_failed, mark_in_sync, mark_point, start_edit,
    start_pass,
};
use imsm_view::volume_of;
use units::VolNo;

/// The facts of a block whose one volume is started, and whose two disks are working.
fn facts_of(book: &MpbBuf) -> Option<EditFacts>
    ensures { IfSome result (λ facts. AreFacts (parts_of book.now) facts × (is_told facts.started.items 0 ≡ true)
        × (1 < disk_count_of (parts_of book.now))) }
{
    let parts = book.parts();
    if parts.volumes() != 1 || parts.disks() != 2 || volume_of(&parts, VolNo(0)).is_err() {
        return None;
    }
    let mut facts = EditFacts {
        started: ArrayVec::new(),
        broken: ArrayVec::new(),
        working: ArrayVec::new(),
    };
    facts.started.push(true);
    facts.broken.push(false);
    facts.working.push(true);
    facts.working.push(true);
    Some(facts)
}

fn has_pass(book: &MpbBuf) -> bool
    ensures { IsTrue result
        → (0 < volume_count_of (parts_of book.now)) × (has_pass (volume_at 0 (parts_of book.now)) ≡ true) }
{
    let parts = book.parts();
    parts.volumes() != 0 && parts.migr_state(VolNo(0)) != 0
}

/// One slot is out of sync, which the state of the map doesn't say yet; the checksum is right.
#[test]
fn marks_a_mirror(rt: HostRuntime) {
    let out = changed(&[(35, 0x48), (479, 1)]);
    let Ok(mpb) = check(&out) else {
        assert!(rt; false);
        return;
    };
    let Ok(mut book) = MpbBuf::from_ref(rt.alloc(), &mpb, 512) else {
        assert!(rt; false);
        return;
    };
    let Some(facts) = facts_of(&book) else {
        assert!(rt; false);
        return;
    };
    mark_dirty(&mut book, VolNo(0), &facts);
    let dirty = changed(&[(35, 0x48), (479, 1), (402, 1), (438, 2)]);
    assert!(rt; book.bytes() == dirty.as_slice());
    let Some(facts) = facts_of(&book) else {
        assert!(rt; false);
        return;
    };
    mark_clean(&mut book, VolNo(0), &facts);
    let clean = changed(&[(35, 0x48), (479, 1), (438, 2)]);
    assert!(rt; book.bytes() == clean.as_slice());
    let Some(facts) = facts_of(&book) else {
        assert!(rt; false);
        return;
    };
    mark_point(&mut book, VolNo(0), 3, &facts);
    let point = changed(&[
        (35, 0x48),
        (479, 1),
        (438, 2),
        (392, 3),
        (396, 1),
        (398, 0x4D),
        (399, 0x49),
    ]);
    assert!(rt; book.bytes() == point.as_slice());
}

/// A pass takes a second map of 56 bytes; the first then has the state that the volume comes from, and the second the
/// state that it has.
#[test]
fn opens_a_pass(rt: HostRuntime) {
    let out = changed(&[(35, 0x48), (479, 1)]);
    let Ok(mpb) = check(&out) else {
        assert!(rt; false);
        return;
    };
    for (room, answer) in [
        (
            535,
            Err(NoRoom {
                needed: 536,
                room: 535,
            }),
        ),
        (536, Ok(())),
    ] {
        let Ok(mut book) = MpbBuf::from_ref(rt.alloc(), &mpb, room) else {
            assert!(rt; false);
            return;
        };
        let Some(facts) = facts_of(&book) else {
            assert!(rt; false);
            return;
        };
        assert_eq!(rt; start_pass(&mut book, VolNo(0), 1, &facts), answer);
        if answer.is_ok() {
            assert_eq!(rt; book.bytes().len(), 536);
            assert_eq!(rt; book.bytes().get(400..402), Some([1, 1].as_slice()));
            assert_eq!(rt; book.bytes().get(438).copied(), Some(0));
            assert_eq!(rt; book.bytes().get(494).copied(), Some(2));
        }
    }
}

/// A dirty volume gets a pass of type 5, and an uninitialised one of type 0, from its first row; the dirty bit goes.
#[test]
fn starts_a_mirror(rt: HostRuntime) {
    for (place, byte, kind, now) in [(402, 1, 5, 0), (438, 1, 0, 1)] {
        let block = changed(&[(34, 0x71), (place, byte)]);
        let Ok(mpb) = check(&block) else {
            assert!(rt; false);
            return;
        };
        let Ok(mut book) = MpbBuf::from_ref(rt.alloc(), &mpb, 536) else {
            assert!(rt; false);
            return;
        };
        let Some(facts) = facts_of(&book) else {
            assert!(rt; false);
            return;
        };
        assert_eq!(rt; start_edit(&mut book, VolNo(0), &facts), Ok(()));
        assert_eq!(rt; book.bytes().len(), 536);
        assert_eq!(rt; book.bytes().get(400..403), Some([1, kind, 0].as_slice()));
        assert_eq!(rt; book.bytes().get(438).copied(), Some(0));
        assert_eq!(rt; book.bytes().get(494).copied(), Some(now));
    }
}

/// The record of a failed disk and its slot say so. The state follows, but for one of an uninitialised volume.
#[test]
fn fails_a_disk(rt: HostRuntime) {
    for (sum, before, after) in [(0x70, 0, 2), (0x71, 1, 1)] {
        let block = changed(&[(34, sum), (438, before)]);
        let Ok(mpb) = check(&block) else {
            assert!(rt; false);
            return;
        };
        let Ok(mut book) = MpbBuf::from_ref(rt.alloc(), &mpb, 536) else {
            assert!(rt; false);
            return;
        };
        let Some(facts) = facts_of(&book) else {
            assert!(rt; false);
            return;
        };
        mark_failed(&mut book, 1, &facts);
        let failed = changed(&[(34, sum), (288, 6), (479, 1), (438, after)]);
        assert!(rt; book.bytes() == failed.as_slice());
    }
}

/// A rebuild that is over leaves one map, in which each slot of a working disk is in sync.
#[test]
fn ends_a_rebuild(rt: HostRuntime) {
    let out = changed(&[(35, 0x48), (479, 1)]);
    let Ok(mpb) = check(&out) else {
        assert!(rt; false);
        return;
    };
    let Ok(mut book) = MpbBuf::from_ref(rt.alloc(), &mpb, 536) else {
        assert!(rt; false);
        return;
    };
    let Some(facts) = facts_of(&book) else {
        assert!(rt; false);
        return;
    };
    assert_eq!(rt; start_edit(&mut book, VolNo(0), &facts), Ok(()));
    assert_eq!(rt; book.bytes().get(400..402), Some([1, 1].as_slice()));
    let Some(facts) = facts_of(&book) else {
        assert!(rt; false);
        return;
    };
    if !has_pass(&book) {
        assert!(rt; false);
        return;
    }
    mark_in_sync(&mut book, VolNo(0), &facts);
    let whole = changed(&[(35, 0x48)]);
    assert!(rt; book.bytes() == whole.as_slice());
}
