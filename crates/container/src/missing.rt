//! Expected disks that lack.
ghost use Rattle.std.specs.Prelude.{◌≡◌, ◌+◌, ◌≤◌, ◌<◌, ◌++◌};
ghost use Rattle.std.specs.Option.{option_copied};
ghost use Rattle.arrayvec.specs.ArrayVec.{array_vec_len};
ghost use Rattle.imsm_base.specs.Layout.{disk_count_of, serial_of};
ghost use Rattle.imsm_codec.specs.Mpb.{block_of, disk_at};
ghost use Rattle.container.specs.Lacking.{AreMissing};
ghost use Rattle.container.specs.Steps.{disk_of, lack_by, lack_in, missing_as, missing_of};

use crate::record::is_expected;
use crate::seen::{Seen, SeenAs};
use arrayvec::ArrayVec;
use imsm_codec::MpbRef;
use mpb_store::StoreFault;
use units::{MAX_DISKS, Serial};

/// What is wrong with an expected disk.
#[derive(Clone, Copy, Debug, Default, PartialEq, Eq)]
pub enum Lack {
    /// It isn't there.
    #[default]
    Absent,
    /// It holds nothing that is signed.
    Blank,
    /// It holds a spare's block.
    Spare,
    /// A read failed.
    Unread,
    /// It holds a signed block that isn't whole, or isn't the disk's; or it is smaller than its record says.
    Torn(StoreFault),
}

/// An expected disk that lacks: its serial, and what is wrong with it.
#[derive(Clone, Copy, Debug, Default, PartialEq, Eq)]
pub struct Missing {
    pub serial: Serial,
    pub cause: Lack,
}

/// The disks that a container's newest block expects and that lack.
pub(crate) type MissingDisks = ArrayVec<Missing, MAX_DISKS>;

/// What is wrong with a disk on which this was seen, and which has so many sectors where its record names so many.
fn lack_in(holds: &SeenAs, named: u64, has: u64) -> Option<Lack>
    ensures { result ≡ lack_in holds.now named has }
{
    match holds {
        SeenAs::Whole(block) if block.parts().volumes() == 0 => Some(Lack::Spare),
        SeenAs::Whole(_) if named <= has => None,
        SeenAs::Whole(_) => Some(Lack::Torn(StoreFault::Small(named, has))),
        SeenAs::Blank => Some(Lack::Blank),
        SeenAs::Torn(fault) => Some(Lack::Torn(*fault)),
        SeenAs::Unread => Some(Lack::Unread),
    }
}

/// The disk of a serial, if it is there.
fn disk_of<'a>(seen: &'a [Seen], serial: &Serial) -> Option<&'a Seen>
    ensures { option_copied result ≡ disk_of serial.now.0 seen.now }
{
    seen.iter().find(|disk| disk.serial.0 == serial.0)
}

/// What is wrong with the disk of a record.
fn lack_of(mpb: &MpbRef<'_>, i: u8, seen: &[Seen]) -> Option<Lack>
    requires { i < disk_count_of (block_of mpb.now) }
    ensures { result ≡ lack_by (disk_at i (block_of mpb.now))
        (disk_of (serial_of (disk_at i (block_of mpb.now))) seen.now) }
{
    match disk_of(seen, &mpb.disk_serial(i)) {
        Some(disk) => lack_in(&disk.holds, mpb.disk_blocks(i), disk.sectors),
        None => Some(Lack::Absent),
    }
}

/// Appends the disk of a record, if it is expected and lacks.
fn push_missing(out: &mut MissingDisks, mpb: &MpbRef<'_>, i: u8, seen: &[Seen])
    requires record { i < disk_count_of (block_of mpb.now) }
    requires room { array_vec_len out.old < MAX_DISKS }
    ensures items { out.new.items ≡ out.old.items ++ missing_as (disk_at i (block_of mpb.now)) seen.now }
    ensures len { array_vec_len out.new ≤ array_vec_len out.old + 1 }
{
    if !is_expected(mpb, i) {
        return;
    }
    if let Some(cause) = lack_of(mpb, i, seen) {
        out.push(Missing {
            serial: mpb.disk_serial(i),
            cause,
        });
    }
}

/// Lists the disks of all records that are expected and lack.
fn list_missing(mpb: &MpbRef<'_>, seen: &[Seen]) -> MissingDisks
    requires { disk_count_of (block_of mpb.now) ≤ MAX_DISKS }
    ensures { result.items ≡ missing_of (block_of mpb.now).disks seen.now }
{
    let mut out = ArrayVec::new();
    for i in 0..mpb.disks() {
        push_missing(&mut out, mpb, i, seen);
    }
    out
}

/// The disks that a container's newest block expects and that lack, in the order of its table.
pub(crate) fn missing_of(mpb: &MpbRef<'_>, seen: &[Seen]) -> MissingDisks
    requires { disk_count_of (block_of mpb.now) ≤ MAX_DISKS }
    ensures { AreMissing seen.now (block_of mpb.now).disks result.items }
{
    list_missing(mpb, seen)
}
