//! The verdict on images of the first form.
ghost use Rattle.std.specs.Prelude.{◌≡◌, ◌<◌, ◌≤◌, ℕ, List, [], ◌∷◌, ◌++◌, if◌then◌else◌, length, map, take, filter, not, IsTrue, IfSome, IfNone, ◌↔◌, MatchOption};
ghost use Rattle.std.specs.List.{AllByRecursion};
ghost use Rattle.arrayvec.specs.ArrayVec.{array_vec_len};
ghost use Rattle.imsm_base.specs.Layout.{disk_count_of, serial_of};
ghost use Rattle.imsm_base.specs.Whole.{IsWhole, IsWholeBlock};
ghost use Rattle.imsm_base.specs.FirstForm.{IsFirstForm};
ghost use Rattle.imsm_base.specs.Parts.{block_in};
ghost use Rattle.imsm_codec.specs.Mpb.{block_of, block_bytes};
ghost use Rattle.image_verdict.specs.Reports.{Holds, IsFirstAnchor, anchor_block, IsFirstOther, IsReport, IsReportOf, absent, bytes_of_all, is_there};
ghost use Rattle.image_verdict.specs.Images.{serials_of_all};

use crate::images::ImageRead;
use crate::report::Report;
use arrayvec::ArrayVec;
use imsm_codec::{MpbRef, check, is_first_form, is_whole_disk};
use units::{MAX_DISKS, Sector, Serial};

/// The block in an anchor, if it is whole there.
fn checked(anchor: &Sector) -> Option<MpbRef<'_>>
    ensures some { IfSome result (λ mpb.
        (block_bytes mpb ≡ anchor_block anchor.now) × IsWholeBlock (block_bytes mpb) (block_of mpb)) }
    ensures none { IfNone result (IsWhole (anchor_block anchor.now) → ⊥) }
{
    check(&anchor.0).ok()
}

/// Whether a whole block is of the first form, and an image by it a whole disk.
fn is_first_anchor(mpb: &MpbRef<'_>, image: &ImageRead) -> bool
    requires { IsWholeBlock (block_bytes mpb.now) (block_of mpb.now) }
    ensures { IsTrue result ↔ IsFirstAnchor image.now.serial.0 image.now.sectors (block_bytes mpb.now) }
{
    is_whole_disk(mpb, &image.serial, image.sectors) && is_first_form(mpb)
}

/// The block in an image's anchor, if the image is of the first form.
fn form_of(image: &ImageRead) -> Option<MpbRef<'_>>
    ensures some { IfSome result (λ mpb. Holds (block_bytes mpb) image.now) }
    ensures none { IfNone result ((block : List ℕ) → Holds block image.now → ⊥) }
{
    let anchor = image.anchor.as_ref()?;
    let mpb = checked(anchor)?;
    if is_first_anchor(&mpb, image) {
        Some(mpb)
    } else {
        None
    }
}

/// Whether an image holds this block.
fn holds(image: &ImageRead, block: &[u8]) -> bool
    ensures { IsTrue result ↔ Holds block.now image.now }
{
    match form_of(image) {
        Some(mpb) => mpb.bytes() == block,
        None => false,
    }
}

/// The serial of the first image that doesn't hold this block.
fn first_other(images: &[ImageRead], block: &[u8]) -> Option<Serial>
    ensures { MatchOption result (AllByRecursion (Holds block.now) images.now) (IsFirstOther block.now images.now) }
{
    for image in images {
        if !holds(image, block) {
            return Some(image.serial);
        }
    }
    None
}

/// Whether an image of this serial is there.
fn has_image(images: &[ImageRead], serial: &Serial) -> bool
    ensures { result ≡ is_there images.now serial.now.0 }
{
    images.iter().any(|image| image.serial.0 == serial.0)
}

/// Appends a serial of which no image is there.
fn push_missing(missing: &mut ArrayVec<Serial, MAX_DISKS>, images: &[ImageRead], serial: Serial)
    requires { array_vec_len missing.old < MAX_DISKS }
    ensures { missing.new.items
        ≡ (if is_there images.now serial.0 then missing.old.items else missing.old.items ++ serial ∷ []) }
{
    if !has_image(images, &serial) {
        missing.push(serial);
    }
}

/// The serials of a block's table of which no image is there.
fn missing(images: &[ImageRead], mpb: &MpbRef<'_>) -> ArrayVec<Serial, MAX_DISKS>
    requires { disk_count_of (block_of mpb.now) ≤ MAX_DISKS }
    ensures { bytes_of_all result.items ≡ absent images.now (block_of mpb.now) }
{
    let mut missing = ArrayVec::new();
    for i in 0..mpb.disks() {
        push_missing(&mut missing, images, mpb.disk_serial(i));
    }
    missing
}

fn serials(images: &[ImageRead]) -> ArrayVec<Serial, MAX_DISKS>
    requires { length images.now ≤ MAX_DISKS }
    ensures { result.items ≡ serials_of_all images.now }
{
    let mut serials = ArrayVec::new();
    for image in images {
        serials.push(image.serial);
    }
    serials
}

/// The report on images that all hold the block.
fn report_on_table(images: &[ImageRead], mpb: &MpbRef<'_>) -> Report
    requires held { AllByRecursion (Holds (block_bytes mpb.now)) images.now }
    requires few { length images.now ≤ MAX_DISKS }
    requires table { disk_count_of (block_of mpb.now) ≤ MAX_DISKS }
    ensures { IsReportOf (block_bytes mpb.now) images.now result }
{
    let family = mpb.family();
    let generation = mpb.generation();
    let missing = missing(images, mpb);
    if missing.is_empty() {
        Report::Started {
            family,
            generation,
            present: serials(images),
        }
    } else {
        Report::Waiting {
            family,
            generation,
            missing,
        }
    }
}

/// The report on images, of which there are 1 to 16.
pub fn report_on(images: &[ImageRead]) -> Report
    requires some { 1 ≤ length images.now }
    requires few { length images.now ≤ MAX_DISKS }
    ensures { IsReport images.now result }
{
    let first = &images[0];
    let Some(mpb) = form_of(first) else {
        return Report::Unbuilt(first.serial);
    };
    match first_other(images, mpb.bytes()) {
        Some(serial) => Report::Unbuilt(serial),
        None => report_on_table(images, &mpb),
    }
}
