//! The verdict on a volume.
ghost use Rattle.std.specs.Prelude.{◌≡◌, ◌<◌, ◌≤◌, Some, length, map};
ghost use Rattle.std.specs.List.{list_any};
ghost use Rattle.std.specs.Str.{bytes_eq};
ghost use Rattle.imsm_base.specs.Layout.{disk_count_of, volume_count_of};
ghost use Rattle.imsm_codec.specs.Mpb.{block_of, disk_at, volume_at};
ghost use Rattle.imsm_view.specs.Questions.{pass_start as view_start, wants_pass as view_wants};
ghost use Rattle.container.specs.Views.{count_out, view_verdict};
ghost use Rattle.container.specs.Volumes.{AreVolumeVerdicts, IsVolumeVerdict, has_parity, is_any_started, is_listed, is_listed_as, pass_from, starts};

use crate::missing::Missing;
use crate::record::is_expected;
use arrayvec::ArrayVec;
use imsm_codec::MpbRef;
use imsm_view::{SlotView, Volume, VolumeFault, volume_of};
use units::{Level, MAX_MEMBERS, MAX_VOLUMES, Serial, VolNo};

/// What is said of a volume: the first of these that holds.
#[derive(Clone, Copy, Debug, Default, PartialEq, Eq)]
pub enum VolumeVerdict {
    /// There is no view of it.
    Unsupported(VolumeFault),
    /// The slots that are in sync don't hold all data, or its state says that it has failed.
    #[default]
    Broken,
    /// It is of RAID 5, a slot isn't in sync, and its rows may not agree: what the slot held can't be told.
    Unfinished,
    /// It starts without a slot. A pass that is wanted starts at this row.
    Degraded(Option<u64>),
    /// It starts. A pass that is wanted starts at this row.
    Started(Option<u64>),
}

impl VolumeVerdict {
    /// Whether the volume starts, with or without a slot.
    pub fn starts(&self) -> bool
        ensures { result ≡ starts self.now }
    {
        match self {
            VolumeVerdict::Unsupported(_) | VolumeVerdict::Broken | VolumeVerdict::Unfinished =>
                false,
            VolumeVerdict::Degraded(_) | VolumeVerdict::Started(_) => true,
        }
    }
}

fn has_parity(level: Level) -> bool
    ensures { result ≡ has_parity (Some level) }
{
    match level {
        Level::Five => true,
        Level::One | Level::Ten => false,
    }
}

/// The row at which a pass starts, where one is wanted.
fn pass_of(volume: &Volume) -> Option<u64>
    ensures { result ≡ pass_from (view_wants volume.now) (view_start volume.now) }
{
    if volume.wants_pass() {
        Some(volume.pass_start())
    } else {
        None
    }
}

/// What is said of a supported volume by its view.
fn verdict_on(volume: &Volume) -> VolumeVerdict
    ensures { result ≡ view_verdict volume.now }
{
    if !volume.can_run() {
        return VolumeVerdict::Broken;
    }
    if has_parity(volume.geometry.level) && volume.unfinished() && volume.degraded() {
        return VolumeVerdict::Unfinished;
    }
    let pass = pass_of(volume);
    if volume.degraded() {
        VolumeVerdict::Degraded(pass)
    } else {
        VolumeVerdict::Started(pass)
    }
}

/// Whether a serial is listed.
fn has_entry(missing: &[Missing], serial: &Serial) -> bool
    ensures { result ≡ list_any (λ m. bytes_eq m.serial.0 serial.now.0) missing.now }
{
    missing.iter().any(|entry| entry.serial.0 == serial.0)
}

/// Whether the disk of a record is listed as one that lacks.
fn is_record_listed(mpb: &MpbRef<'_>, missing: &[Missing], i: u8) -> bool
    requires { i < disk_count_of (block_of mpb.now) }
    ensures { result ≡ is_listed_as missing.now (disk_at i (block_of mpb.now)) }
{
    is_expected(mpb, i) && has_entry(missing, &mpb.disk_serial(i))
}

/// Whether the disk of an index is listed as one that lacks.
fn is_listed(mpb: &MpbRef<'_>, missing: &[Missing], i: u8) -> bool
    ensures { result ≡ is_listed (block_of mpb.now) missing.now i }
{
    if i < mpb.disks() {
        is_record_listed(mpb, missing, i)
    } else {
        false
    }
}

/// A slot, which counts as out of sync where its disk lacks.
fn counted(mpb: &MpbRef<'_>, missing: &[Missing], slot: &SlotView) -> SlotView
    ensures { result ≡ count_out (is_listed (block_of mpb.now) missing.now) slot.now }
{
    SlotView {
        index: slot.index,
        out: slot.out || is_listed(mpb, missing, slot.index),
        expected: slot.expected,
    }
}

/// Slots, of which those count as out of sync whose disks lack.
fn count_out(
    mpb: &MpbRef<'_>,
    missing: &[Missing],
    slots: &[SlotView],
) -> ArrayVec<SlotView, MAX_MEMBERS>
    requires { length slots.now ≤ 8 }
    ensures { result.items ≡ map (count_out (is_listed (block_of mpb.now) missing.now)) slots.now }
{
    let mut list = ArrayVec::new();
    for slot in slots {
        list.push(counted(mpb, missing, slot));
    }
    list
}

/// What is said of a volume of a block, where these disks lack.
fn verdict_of(mpb: &MpbRef<'_>, v: VolNo, missing: &[Missing]) -> VolumeVerdict
    requires { v.0 < volume_count_of (block_of mpb.now) }
    ensures { IsVolumeVerdict (block_of mpb.now) (is_listed (block_of mpb.now) missing.now)
        v.0 (volume_at v.0 (block_of mpb.now)) result }
{
    match volume_of(mpb, v) {
        Ok(mut volume) => {
            volume.slots = count_out(mpb, missing, volume.slots.as_slice());
            verdict_on(&volume)
        }
        Err(fault) => VolumeVerdict::Unsupported(fault),
    }
}

/// What is said of each volume of a block, where these disks lack.
pub(crate) fn verdicts_of(
    mpb: &MpbRef<'_>,
    missing: &[Missing],
) -> ArrayVec<VolumeVerdict, MAX_VOLUMES>
    requires { volume_count_of (block_of mpb.now) ≤ MAX_VOLUMES }
    ensures { AreVolumeVerdicts (block_of mpb.now) missing.now result.items }
{
    let mut list = ArrayVec::new();
    for v in 0..mpb.volumes() {
        list.push(verdict_of(mpb, VolNo(v), missing));
    }
    list
}

/// Whether a volume starts.
pub(crate) fn is_any_started(list: &[VolumeVerdict]) -> bool
    ensures { result ≡ is_any_started list.now }
{
    list.iter().any(|verdict| verdict.starts())
}
