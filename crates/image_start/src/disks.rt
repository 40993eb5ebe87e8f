//! The disks of a bank by the newest block.
ghost use Rattle.std.specs.Prelude.{◌≡◌, ◌<◌, ◌≤◌, ℕ, List, length, position, true, Some};
ghost use Rattle.std.specs.List.{range_with_len};
ghost use Rattle.std.specs.Str.{bytes_eq};
ghost use Rattle.units.specs.declared.disk.Sector.{Sector as SectorBytes};
ghost use Rattle.imsm_base.specs.Volumes.{member};
ghost use Rattle.imsm_codec.specs.Mpb.{block_bytes, block_of, volume_at};
ghost use Rattle.block_meaning.specs.Meaning.{slot_words};
ghost use Rattle.control_state.specs.Seen.{numbers};
ghost use Rattle.first_opening.specs.Opened.{targets_of, members_of};
ghost use Rattle.image_verdict.specs.Reports.{first_block, is_there};
ghost use Rattle.image_verdict.specs.declared.images.ImageRead.{ImageRead as Image};
ghost use Rattle.image_start.specs.Starts.{Starts};
ghost use Rattle.image_start.specs.Openings.{opened_on};

use arrayvec::ArrayVec;
use image_verdict::ImageRead;
use imsm_base::INDEX_RANGE;
use imsm_codec::MpbRef;
use units::{DiskNo, MAX_DISKS, Serial, Slot, VolNo};

/// The disks that the block expects: all of them, since each has a record, and each record is expected.
pub(crate) fn targets_of(images: &[ImageRead]) -> ArrayVec<DiskNo, MAX_DISKS>
    requires { Starts images.now }
    ensures { (contents : List (List SectorBytes)) → numbers result.items ≡ targets_of (opened_on images.now contents) }
{
    let mut targets = ArrayVec::new();
    for d in 0..images.len() {
        targets.push(DiskNo(d as u8));
    }
    targets
}

/// The number of the image with a serial.
fn image_of(images: &[ImageRead], serial: &Serial) -> DiskNo
    requires few { length images.now ≤ MAX_DISKS }
    requires there { is_there images.now serial.now.0 ≡ true }
    ensures { position (λ (i : Image). bytes_eq i.serial.0 serial.now.0) images.now ≡ Some result.0 }
{
    let place = images.iter().position(|image| image.serial.0 == serial.0);
    DiskNo(place.unwrap() as u8)
}

/// The disk in a slot of the volume.
fn member_of(images: &[ImageRead], mpb: &MpbRef<'_>, slot: Slot) -> DiskNo
    requires starts { Starts images.now }
    requires block { block_bytes mpb.now ≡ first_block images.now }
    requires slot { slot.0 < 2 }
    ensures { position (λ (i : Image). bytes_eq i.serial.0
        (slot_words (block_of mpb.now) (member (volume_at 0 (block_of mpb.now)) slot.0)).serial) images.now
        ≡ Some result.0 }
{
    let index = (mpb.map_ord(VolNo(0), 0, slot) % INDEX_RANGE) as u8;
    image_of(images, &mpb.disk_serial(index))
}

/// The disks of the volume, in the order of its two slots.
pub(crate) fn members_of(images: &[ImageRead], mpb: &MpbRef<'_>) -> ArrayVec<DiskNo, MAX_DISKS>
    requires starts { Starts images.now }
    requires block { block_bytes mpb.now ≡ first_block images.now }
    ensures { (contents : List (List SectorBytes)) → numbers result.items ≡ members_of (opened_on images.now contents) }
{
    let mut members = ArrayVec::new();
    members.push(member_of(images, mpb, Slot(0)));
    members.push(member_of(images, mpb, Slot(1)));
    members
}
