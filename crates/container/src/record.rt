//! The records of a disk table.
ghost use Rattle.std.specs.Prelude.{◌≡◌, ◌<◌, ◌==◌, ◌&&◌, MatchOption};
ghost use Rattle.std.specs.Int.{bit_at};
ghost use Rattle.imsm_base.specs.Layout.{disk_count_of};
ghost use Rattle.imsm_base.specs.Whole.{is_expected};
ghost use Rattle.imsm_codec.specs.Mpb.{block_of, disk_at};
ghost use Rattle.container.specs.Roles.{HasNone, IsFirst, NamesAs};
ghost use Rattle.container.specs.Steps.{is_named};

use imsm_codec::MpbRef;
use units::Serial;

/// Whether a status says that a disk is configured and hasn't failed.
fn is_expected_status(status: u32) -> bool
    ensures { result ≡ ((bit_at status 1 == 1) && (bit_at status 2 == 0)) }
{
    (status >> 1) & 1 == 1 && (status >> 2) & 1 == 0
}

/// Whether a record is of a disk that is expected.
pub(crate) fn is_expected(mpb: &MpbRef<'_>, i: u8) -> bool
    requires { i < disk_count_of (block_of mpb.now) }
    ensures { result ≡ is_expected (disk_at i (block_of mpb.now)) }
{
    is_expected_status(mpb.disk_status(i))
}

/// Whether a record has the serial, and is expected if that is asked.
fn is_named(mpb: &MpbRef<'_>, i: u8, serial: &Serial, only_expected: bool) -> bool
    requires { i < disk_count_of (block_of mpb.now) }
    ensures { result ≡ is_named only_expected serial.now.0 (disk_at i (block_of mpb.now)) }
{
    (!only_expected || is_expected(mpb, i)) && mpb.disk_serial(i).0 == serial.0
}

/// The index of the first record that has the serial, and is expected if that is asked.
pub(crate) fn index_of(mpb: &MpbRef<'_>, serial: &Serial, only_expected: bool) -> Option<u8>
    ensures { MatchOption result (HasNone (NamesAs only_expected serial.now.0) (block_of mpb.now).disks)
        (λ i. IsFirst (NamesAs only_expected serial.now.0) (block_of mpb.now).disks i) }
{
    for i in 0..mpb.disks() {
        if is_named(mpb, i, serial, only_expected) {
            return Some(i);
        }
    }
    None
}
