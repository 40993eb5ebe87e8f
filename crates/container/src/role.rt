//! The role of a disk that is there.
ghost use Rattle.std.specs.Prelude.{◌≤◌, length};
ghost use Rattle.imsm_codec.specs.Mpb.{block_of};
ghost use Rattle.container.specs.Roles.{AreRoles, IsRole, IsRoleBy};

use crate::record::index_of;
use crate::seen::{Seen, SeenAs};
use arrayvec::ArrayVec;
use imsm_codec::MpbRef;
use mpb_store::StoreFault;
use units::MAX_DISKS;

/// The role of a disk: what the table of the newest block says of it, else what was seen on it.
#[derive(Clone, Copy, Debug, Default, PartialEq, Eq)]
pub enum DiskRole {
    /// It is expected, by the record of this index.
    Member(u8),
    /// The table has its serial, and doesn't expect it; the first such record has this index.
    Failed(u8),
    /// It holds a spare's block.
    Spare,
    /// It holds the block of a container that doesn't name it.
    Stranger,
    /// It holds nothing that is signed.
    #[default]
    Blank,
    /// It holds a signed block that isn't whole, or isn't the disk's.
    Torn(StoreFault),
    /// A read failed.
    Unread,
}

/// The role of a disk that the table doesn't name.
fn role_by(holds: &SeenAs) -> DiskRole
    ensures { IsRoleBy holds.now result }
{
    match holds {
        SeenAs::Whole(block) if block.parts().volumes() == 0 => DiskRole::Spare,
        SeenAs::Whole(_) => DiskRole::Stranger,
        SeenAs::Blank => DiskRole::Blank,
        SeenAs::Torn(fault) => DiskRole::Torn(*fault),
        SeenAs::Unread => DiskRole::Unread,
    }
}

/// The role of a disk by a container's newest block: the table's word comes first.
fn role_of(mpb: &MpbRef<'_>, disk: &Seen) -> DiskRole
    ensures { IsRole (block_of mpb.now) disk.now result }
{
    if let Some(i) = index_of(mpb, &disk.serial, true) {
        return DiskRole::Member(i);
    }
    match index_of(mpb, &disk.serial, false) {
        Some(i) => DiskRole::Failed(i),
        None => role_by(&disk.holds),
    }
}

/// The role of each disk.
pub(crate) fn roles_of(mpb: &MpbRef<'_>, seen: &[Seen]) -> ArrayVec<DiskRole, MAX_DISKS>
    requires { length seen.now ≤ MAX_DISKS }
    ensures { AreRoles (block_of mpb.now) seen.now result.items }
{
    let mut list = ArrayVec::new();
    for disk in seen {
        list.push(role_of(mpb, disk));
    }
    list
}
