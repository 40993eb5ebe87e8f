//! The command `create`: its images are opened, and a container is made over them.
ghost use Rattle.std.specs.Prelude.{◌≡◌, ◌≤◌, true, length};
ghost use Rattle.std.specs.Option.{IsSomeAnd};
ghost use Rattle.new_container.specs.Fits.{container_fits};
ghost use Rattle.image_outside.specs.declared.status.TheConstants.Status.{MEMORY};
ghost use Rattle.image_outside.specs.Views.{shelf_told, sink_told};
ghost use Rattle.image_outside.specs.Shelves.{IsUnused};
ghost use Rattle.image_outside.specs.Endings.{EndsIfMemory};
ghost use Rattle.image_words.specs.Words.{AreImages};
ghost use Rattle.image_words.specs.Args.{words_of};
ghost use Rattle.image_create.specs.Creates.{CreatesBy};
ghost use Rattle.image_run.specs.Does.{OnImages};
ghost use Rattle.image_run.specs.Openings.{OpensFront};

use crate::opening::open_images;
use image_create::create;
use image_outside::{Shelf, Sink, Status};
use image_words::ImageArg;
use new_container::NewContainer;
use std::alloc::Global;
use units::MAX_DISKS;

/// Opens the images, and makes a container over them.
pub(crate) fn create_images<H: Shelf, K: Sink>(
    alloc: Global,
    images: &[ImageArg<'_>],
    made: &NewContainer,
    shelf: &mut H,
    sink: &mut K,
) -> Status
    requires unused { IsSomeAnd (shelf_told H.Shelf H.Held.Bank shelf.old).bank IsUnused }
    requires named { AreImages (words_of images.now) }
    requires few { length images.now ≤ MAX_DISKS }
    requires fits { container_fits made.now (length images.now) ≡ true }
    ensures unmade { result.0 ≡ MEMORY.0 → OpensFront (words_of images.now)
        (shelf_told H.Shelf H.Held.Bank shelf.old) (shelf_told H.Shelf H.Held.Bank shelf.new) }
    ensures ends { EndsIfMemory (sink_told K.Sink sink.old) (sink_told K.Sink sink.new)
        (OnImages (words_of images.now)
        (shelf_told H.Shelf H.Held.Bank shelf.old) (shelf_told H.Shelf H.Held.Bank shelf.new)
        (CreatesBy made.now)) result.0 }
{
    if let Err(status) = open_images(alloc, images, shelf, sink) {
        return status;
    }
    let mut bank = shelf.lend();
    let status = create(alloc, &mut bank, made, sink);
    shelf.hand_back(bank);
    status
}
