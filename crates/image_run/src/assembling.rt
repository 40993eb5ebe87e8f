//! The commands `assemble` and `incremental`: images are opened, and the verdict on them is printed.
ghost use Rattle.std.specs.Prelude.{◌≤◌, length};
ghost use Rattle.std.specs.Option.{IsSomeAnd};
ghost use Rattle.image_outside.specs.Views.{shelf_told, sink_told};
ghost use Rattle.image_outside.specs.Shelves.{IsUnused};
ghost use Rattle.image_outside.specs.Endings.{EndsIfMemory};
ghost use Rattle.image_words.specs.Words.{AreImages};
ghost use Rattle.image_words.specs.Args.{words_of};
ghost use Rattle.image_assemble.specs.Endings.{Assembles, HasLookedFirst};
ghost use Rattle.image_incremental.specs.Endings.{Arrives};
ghost use Rattle.image_run.specs.Does.{OnImages};
ghost use Rattle.image_run.specs.Runs.{OnFront};

use crate::opening::open_images;
use image_assemble::print_assembly;
use image_incremental::print_arrivals;
use image_outside::{Shelf, Sink, Status};
use image_words::ImageArg;
use std::alloc::Global;
use units::MAX_DISKS;

/// Opens the images, and prints the verdict on them, with `run` that of a start without disks that lack.
pub(crate) fn assemble_images<H: Shelf, K: Sink>(
    alloc: Global,
    images: &[ImageArg<'_>],
    run: bool,
    shelf: &mut H,
    sink: &mut K,
) -> Status
    requires unused { IsSomeAnd (shelf_told H.Shelf H.Held.Bank shelf.old).bank IsUnused }
    requires named { AreImages (words_of images.now) }
    requires few { length images.now ≤ MAX_DISKS }
    ensures leaves { OnFront (words_of images.now)
        (shelf_told H.Shelf H.Held.Bank shelf.old) (shelf_told H.Shelf H.Held.Bank shelf.new) HasLookedFirst }
    ensures ends { EndsIfMemory (sink_told K.Sink sink.old) (sink_told K.Sink sink.new)
        (OnImages (words_of images.now)
        (shelf_told H.Shelf H.Held.Bank shelf.old) (shelf_told H.Shelf H.Held.Bank shelf.new)
        (Assembles run)) result.0 }
{
    if let Err(status) = open_images(alloc, images, shelf, sink) {
        return status;
    }
    let mut bank = shelf.lend();
    let status = print_assembly(alloc, &mut bank, run, sink);
    shelf.hand_back(bank);
    status
}

/// Opens the images, and prints the verdict on each and those before it, as they arrive one by one.
pub(crate) fn arrive_images<H: Shelf, K: Sink>(
    alloc: Global,
    images: &[ImageArg<'_>],
    run: bool,
    shelf: &mut H,
    sink: &mut K,
) -> Status
    requires unused { IsSomeAnd (shelf_told H.Shelf H.Held.Bank shelf.old).bank IsUnused }
    requires named { AreImages (words_of images.now) }
    requires few { length images.now ≤ MAX_DISKS }
    ensures leaves { OnFront (words_of images.now)
        (shelf_told H.Shelf H.Held.Bank shelf.old) (shelf_told H.Shelf H.Held.Bank shelf.new) HasLookedFirst }
    ensures ends { EndsIfMemory (sink_told K.Sink sink.old) (sink_told K.Sink sink.new)
        (OnImages (words_of images.now)
        (shelf_told H.Shelf H.Held.Bank shelf.old) (shelf_told H.Shelf H.Held.Bank shelf.new)
        (Arrives run)) result.0 }
{
    if let Err(status) = open_images(alloc, images, shelf, sink) {
        return status;
    }
    let mut bank = shelf.lend();
    let status = print_arrivals(alloc, &mut bank, run, sink);
    shelf.hand_back(bank);
    status
}
