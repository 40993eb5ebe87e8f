//! The command `examine`: its image is opened, and what is found on it is printed.
ghost use Rattle.std.specs.Prelude.{◌≡◌, length};
ghost use Rattle.std.specs.Option.{IsSomeAnd};
ghost use Rattle.image_outside.specs.Views.{shelf_told, sink_told};
ghost use Rattle.image_outside.specs.Shelves.{IsUnused};
ghost use Rattle.image_outside.specs.Endings.{EndsIfMemory};
ghost use Rattle.image_words.specs.Words.{AreImages};
ghost use Rattle.image_words.specs.Args.{words_of};
ghost use Rattle.image_examine.specs.Endings.{Examines, HasLookedOrNot};
ghost use Rattle.image_run.specs.Does.{OnImages};
ghost use Rattle.image_run.specs.Runs.{OnFront};

use crate::opening::open_images;
use image_examine::examine;
use image_outside::{Shelf, Sink, Status};
use image_words::ImageArg;
use std::alloc::Global;

/// Opens the image, and prints what is found on it.
pub(crate) fn examine_image<H: Shelf, K: Sink>(
    alloc: Global,
    images: &[ImageArg<'_>],
    shelf: &mut H,
    sink: &mut K,
) -> Status
    requires unused { IsSomeAnd (shelf_told H.Shelf H.Held.Bank shelf.old).bank IsUnused }
    requires named { AreImages (words_of images.now) }
    requires one { length images.now ≡ 1 }
    ensures leaves { OnFront (words_of images.now)
        (shelf_told H.Shelf H.Held.Bank shelf.old) (shelf_told H.Shelf H.Held.Bank shelf.new) HasLookedOrNot }
    ensures ends { EndsIfMemory (sink_told K.Sink sink.old) (sink_told K.Sink sink.new)
        (OnImages (words_of images.now)
        (shelf_told H.Shelf H.Held.Bank shelf.old) (shelf_told H.Shelf H.Held.Bank shelf.new) Examines) result.0 }
{
    if let Err(status) = open_images(alloc, images, shelf, sink) {
        return status;
    }
    let mut bank = shelf.lend();
    let status = examine(alloc, &mut bank, sink);
    shelf.hand_back(bank);
    status
}
