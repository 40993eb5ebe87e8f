//! The command `replay`: images are opened, the script is read, and it is run on them.
ghost use Rattle.std.specs.Prelude.{◌≡◌, ◌≤◌, ◌^◌, length};
ghost use Rattle.std.specs.Option.{IsSomeAnd};
ghost use Rattle.run_script.specs.Within.{IsWithin};
ghost use Rattle.image_outside.specs.declared.status.TheConstants.Status.{MEMORY};
ghost use Rattle.image_outside.specs.Views.{shelf_told, sink_told};
ghost use Rattle.image_outside.specs.Shelves.{IsFresh, IsUnused};
ghost use Rattle.image_outside.specs.Endings.{EndsIfMemory};
ghost use Rattle.image_words.specs.Words.{AreImages, serials_named};
ghost use Rattle.image_words.specs.Args.{words_of};
ghost use Rattle.image_verdict.specs.Images.{HasReadFirst};
ghost use Rattle.image_replay.specs.Replays.{ReplaysBy};
ghost use Rattle.image_run.specs.Does.{ReplayEnds};
ghost use Rattle.image_run.specs.Outside.{outside_told};
ghost use Rattle.image_run.specs.Runs.{LeavesReplay};

use crate::opening::open_images;
use crate::script::{end_stopped, read_script};
use array_model::Script;
use image_outside::{Shelf, Sink, Source, Status};
use image_replay::replay;
use image_words::ImageArg;
use std::alloc::Global;
use units::MAX_DISKS;

/// Replays a script on the disks that a shelf holds, which are those of these images.
fn replay_on<H: Shelf, K: Sink>(
    alloc: Global,
    images: &[ImageArg<'_>],
    script: &Script,
    limit: u32,
    shelf: &mut H,
    sink: &mut K,
) -> Status
    requires some { 1 ≤ length images.now }
    requires fresh { IsSomeAnd (shelf_told H.Shelf H.Held.Bank shelf.old).bank
        (IsFresh (serials_named (words_of images.now))) }
    requires limit { limit ≤ 2 ^ 20 }
    requires script { IsWithin script.now }
    ensures unrun { result.0 ≡ MEMORY.0 → IsSomeAnd (shelf_told H.Shelf H.Held.Bank shelf.new).bank
        (λ bank. (bank.serials ≡ serials_named (words_of images.now)) × HasReadFirst bank) }
    ensures ends { EndsIfMemory (sink_told K.Sink sink.old) (sink_told K.Sink sink.new)
        (λ lines status. IsSomeAnd (shelf_told H.Shelf H.Held.Bank shelf.new).bank (λ bank.
        (bank.serials ≡ serials_named (words_of images.now)) × ReplaysBy script.now limit bank lines status)) result.0 }
    ensures paths { H.paths shelf.new ≡ H.paths shelf.old }
{
    let (bank, status) = replay(alloc, shelf.lend(), script, limit, sink);
    shelf.hand_back(bank);
    status
}

/// Opens the images, reads the script, and replays it.
pub(crate) fn replay_images<H: Shelf, S: Source, K: Sink>(
    alloc: Global,
    images: &[ImageArg<'_>],
    limit: u32,
    shelf: &mut H,
    source: &mut S,
    sink: &mut K,
) -> Status
    requires unused { IsSomeAnd (shelf_told H.Shelf H.Held.Bank shelf.old).bank IsUnused }
    requires named { AreImages (words_of images.now) }
    requires few { length images.now ≤ MAX_DISKS }
    requires limit { limit ≤ 2 ^ 20 }
    ensures unrun { result.0 ≡ MEMORY.0 → LeavesReplay (words_of images.now)
        (outside_told H.Shelf H.Held.Bank S.Source K.Sink shelf.old source.old sink.old)
        (outside_told H.Shelf H.Held.Bank S.Source K.Sink shelf.new source.new sink.new) }
    ensures ends { EndsIfMemory (sink_told K.Sink sink.old) (sink_told K.Sink sink.new)
        (ReplayEnds limit (words_of images.now)
        (outside_told H.Shelf H.Held.Bank S.Source K.Sink shelf.old source.old sink.old)
        (outside_told H.Shelf H.Held.Bank S.Source K.Sink shelf.new source.new sink.new)) result.0 }
{
    if let Err(status) = open_images(alloc, images, shelf, sink) {
        return status;
    }
    match read_script(alloc, source) {
        Ok(script) => replay_on(alloc, images, &script, limit, shelf, sink),
        Err(stop) => end_stopped(sink, stop),
    }
}
