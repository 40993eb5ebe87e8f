//! Images as they are found: the anchor of each is read once.
ghost use Rattle.std.specs.Prelude.{◌≡◌, ◌≢◌, ℕ, ◌<◌, ◌≤◌, Option, Some, length, map, slice_get, slice_index, IfSome, IfOk};
ghost use Rattle.std.specs.List.{AllPairs};
ghost use Rattle.units.specs.declared.disk.Sector.{Sector as SectorBytes};
ghost use Rattle.units.specs.Places.{anchor_place};
ghost use Rattle.member_bank.specs.Told.{Keeps, LogsAll, Gives};
ghost use Rattle.image_outside.specs.Told.{bank_told};
ghost use Rattle.image_outside.specs.Shelves.{IsUncalled};
ghost use Rattle.image_verdict.specs.Images.{anchor_calls, HasReadAnchors, HasReadFirst, IsAnchorOn, IsFoundOn};

use member_bank::Bank;
use std::alloc::{AllocError, Global};
use units::{DiskNo, MAX_DISKS, METADATA_SECTORS, Sector, Serial};

/// An image: the serial under which it was opened, how many sectors it has, and its anchor, the second to last sector,
/// where that was read.
#[derive(Clone, Copy, Debug, PartialEq, Eq)]
pub struct ImageRead {
    pub serial: Serial,
    pub sectors: u64,
    pub anchor: Option<Sector>,
}

/// Reads the anchor of a disk of so many sectors, if it is large enough to have one.
fn read_anchor<B: Bank>(bank: &mut B, d: DiskNo, sectors: u64) -> Option<Sector>
    requires disk { d.0 < length (B.sizes bank.old) }
    requires sectors { sectors ≡ slice_index (B.sizes bank.old) d.0 }
    ensures logs { LogsAll (B.log bank.old) (B.log bank.new) (anchor_calls d.0 sectors result) }
    ensures gives { IfSome result (λ anchor.
        Gives (B.opening bank.new) (B.log bank.new) d.0 (anchor_place sectors) anchor) }
    ensures anchor { IsAnchorOn (bank_told B.Bank bank.new) d.0 sectors result }
    ensures opening { Keeps (B.opening bank.old) (B.opening bank.new) }
    ensures later { (k : ℕ) → B.faults_of bank.old k ≤ B.faults_of bank.new k }
    ensures sizes { B.sizes bank.new ≡ B.sizes bank.old }
    ensures serials { B.serials bank.new ≡ B.serials bank.old }
{
    if sectors < METADATA_SECTORS {
        return None;
    }
    let mut anchor = Sector([0; 512]);
    match bank.read(d, sectors - 2, &mut anchor) {
        Ok(()) => Some(anchor),
        Err(_) => None,
    }
}

/// What is known of a disk, after its anchor was read.
fn read_image<B: Bank>(bank: &mut B, d: DiskNo) -> ImageRead
    requires { d.0 < length (B.sizes bank.old) }
    ensures serial { slice_get (B.serials bank.old) d.0 ≡ Some result.serial }
    ensures sectors { result.sectors ≡ slice_index (B.sizes bank.old) d.0 }
    ensures logs { LogsAll (B.log bank.old) (B.log bank.new) (anchor_calls d.0 result.sectors result.anchor) }
    ensures gives { IfSome result.anchor (λ anchor.
        Gives (B.opening bank.new) (B.log bank.new) d.0 (anchor_place result.sectors) anchor) }
    ensures anchor { IsAnchorOn (bank_told B.Bank bank.new) d.0 result.sectors result.anchor }
    ensures opening { Keeps (B.opening bank.old) (B.opening bank.new) }
    ensures later { (k : ℕ) → B.faults_of bank.old k ≤ B.faults_of bank.new k }
    ensures sizes { B.sizes bank.new ≡ B.sizes bank.old }
    ensures serials { B.serials bank.new ≡ B.serials bank.old }
{
    let serial = bank.serial(d);
    let sectors = bank.sectors(d);
    let anchor = read_anchor(bank, d, sectors);
    ImageRead {
        serial,
        sectors,
        anchor,
    }
}

/// The images of a bank on which no call was made, after their anchors were read.
pub fn read_images<B: Bank>(alloc: Global, bank: &mut B) -> Result<Vec<ImageRead>, AllocError>
    requires { IsUncalled (bank_told B.Bank bank.old) }
    ensures found { IfOk result (λ images. IsFoundOn (bank_told B.Bank bank.new) images.items) }
    ensures calls { IfOk result (λ images. HasReadAnchors (bank_told B.Bank bank.new) images.items) }
    ensures first { HasReadFirst (bank_told B.Bank bank.new) }
    ensures count { IfOk result (λ images. length images.items ≡ length (B.serials bank.old)) }
    ensures few { IfOk result (λ images. length images.items ≤ MAX_DISKS) }
    ensures distinct { AllPairs (λ a b. a ≢ b) (B.serials bank.new) }
    ensures later { (k : ℕ) → B.faults_of bank.old k ≤ B.faults_of bank.new k }
    ensures sizes { B.sizes bank.new ≡ B.sizes bank.old }
    ensures serials { B.serials bank.new ≡ B.serials bank.old }
{
    let count = bank.disks();
    let mut images = Vec::new(alloc);
    for d in 0..count {
        images.push(read_image(bank, DiskNo(d)))?;
    }
    Ok(images)
}
