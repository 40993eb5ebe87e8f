//! The images of a command are opened on a shelf.
ghost use Rattle.std.specs.Prelude.{◌≡◌, ℕ, ◌<◌, ◌≤◌, true, length, take, IsSome, IfErr, OnOk, OnErr, Err};
ghost use Rattle.std.specs.List.{AllByRecursion};
ghost use Rattle.std.specs.Option.{IsSomeAnd};
ghost use Rattle.member_bank.specs.Faults.{Rose};
ghost use Rattle.image_outside.specs.Shelves.{IsUnused};
ghost use Rattle.image_outside.specs.Views.{shelf_told, sink_told};
ghost use Rattle.image_outside.specs.Endings.{EndsIfMemory};
ghost use Rattle.image_words.specs.Words.{IsImageWord, are_distinct};
ghost use Rattle.image_words.specs.Args.{words_of};
ghost use Rattle.image_run.specs.Openings.{OpensFresh, OpensFront, OpensNot};

use image_outside::{Shelf, ShelfFault, Sink, Status, end_line, end_without_memory};
use image_words::ImageArg;
use imsm_text::Word;
use std::alloc::Global;
use units::MAX_DISKS;

/// Why not all images were opened.
#[derive(Clone, Copy, Debug, PartialEq, Eq)]
enum OpenFault {
    /// There was no memory.
    Memory,
    /// The image of this number, counted from 0, couldn't be opened.
    Failed(usize),
}

/// Opens images in their order.
fn open_all<H: Shelf>(
    alloc: Global,
    images: &[ImageArg<'_>],
    shelf: &mut H,
) -> Result<(), OpenFault>
    requires unused { IsSomeAnd (shelf_told H.Shelf H.Held.Bank shelf.old).bank IsUnused }
    requires few { length images.now ≤ MAX_DISKS }
    requires each { AllByRecursion IsImageWord (words_of images.now) }
    requires distinct { are_distinct (words_of images.now) ≡ true }
    ensures ok { OnOk result (OpensFresh (words_of images.now)
        (shelf_told H.Shelf H.Held.Bank shelf.old) (shelf_told H.Shelf H.Held.Bank shelf.new)) }
    ensures front { OnErr result (OpensFront (words_of images.now)
        (shelf_told H.Shelf H.Held.Bank shelf.old) (shelf_told H.Shelf H.Held.Bank shelf.new)) }
    ensures failed { (i : ℕ) → result ≡ Err (OpenFault.Failed i) → (i < length images.now)
        × Rose (H.faults_of shelf.old) (H.faults_of shelf.new)
        × OpensFresh (take i (words_of images.now))
        (shelf_told H.Shelf H.Held.Bank shelf.old) (shelf_told H.Shelf H.Held.Bank shelf.new) }
{
    for (i, image) in images.iter().enumerate() {
        match shelf.open(alloc, image.serial(), image.file) {
            Ok(_) => {}
            Err(ShelfFault::Memory) => return Err(OpenFault::Memory),
            Err(ShelfFault::Failed) => return Err(OpenFault::Failed(i)),
        }
    }
    Ok(())
}

/// Opens the images of a command in their order, or ends it where one can't be opened.
pub fn open_images<H: Shelf, K: Sink>(
    alloc: Global,
    images: &[ImageArg<'_>],
    shelf: &mut H,
    sink: &mut K,
) -> Result<(), Status>
    requires unused { IsSomeAnd (shelf_told H.Shelf H.Held.Bank shelf.old).bank IsUnused }
    requires few { length images.now ≤ MAX_DISKS }
    requires each { AllByRecursion IsImageWord (words_of images.now) }
    requires distinct { are_distinct (words_of images.now) ≡ true }
    ensures ok { OnOk result (OpensFresh (words_of images.now)
        (shelf_told H.Shelf H.Held.Bank shelf.old) (shelf_told H.Shelf H.Held.Bank shelf.new)) }
    ensures front { OnErr result (OpensFront (words_of images.now)
        (shelf_told H.Shelf H.Held.Bank shelf.old) (shelf_told H.Shelf H.Held.Bank shelf.new)) }
    ensures silent { OnOk result (sink.new ≡ sink.old) }
    ensures ends { IfErr result (λ status. EndsIfMemory (sink_told K.Sink sink.old) (sink_told K.Sink sink.new)
        (OpensNot (words_of images.now)
        (shelf_told H.Shelf H.Held.Bank shelf.old) (shelf_told H.Shelf H.Held.Bank shelf.new)) status.0) }
{
    match open_all(alloc, images, shelf) {
        Ok(()) => Ok(()),
        Err(OpenFault::Memory) => Err(end_without_memory(sink)),
        Err(OpenFault::Failed(i)) => {
            let name = Word::Plain(images[i].name.as_bytes());
            Err(end_line(sink, b"open", &[name], Status::OPEN_FAULT))
        }
    }
}
