//! The command: its words are read, and what they ask for is done.
ghost use Rattle.std.specs.Prelude.{◌≤◌, length};
ghost use Rattle.std.specs.Option.{IsSomeAnd};
ghost use Rattle.image_outside.specs.Shelves.{IsUnused};
ghost use Rattle.image_outside.specs.Views.{shelf_told};
ghost use Rattle.image_words.specs.Args.{Asks, words_of};
ghost use Rattle.image_words.specs.Words.{texts};
ghost use Rattle.image_run.specs.Outside.{outside_told};
ghost use Rattle.image_run.specs.Requests.{request_of};
ghost use Rattle.image_run.specs.Runs.{Carries, Runs};

use crate::assembling::{arrive_images, assemble_images};
use crate::creating::create_images;
use crate::examining::examine_image;
use crate::replaying::replay_images;
use image_outside::{Shelf, Sink, Source, Status, end, end_without_memory};
use image_words::{Command, Verb, WordsFault, parse};
use std::alloc::Global;
use units::MAX_DISKS;

/// Does what a command asks for.
fn carry_out<H: Shelf, S: Source, K: Sink>(
    alloc: Global,
    words: &[String],
    command: Command<'_>,
    shelf: &mut H,
    source: &mut S,
    sink: &mut K,
) -> Status
    requires unused { IsSomeAnd (shelf_told H.Shelf H.Held.Bank shelf.old).bank IsUnused }
    requires asked { Asks (texts words.now) command.verb (words_of command.images.items) }
    requires few { length command.images.items ≤ MAX_DISKS }
    ensures { Carries (request_of command.entry.verb (words_of command.entry.images.items))
        (outside_told H.Shelf H.Held.Bank S.Source K.Sink shelf.old source.old sink.old)
        (outside_told H.Shelf H.Held.Bank S.Source K.Sink shelf.new source.new sink.new) result.0 }
{
    let Command { verb, images } = command;
    match verb {
        Verb::Assemble { run } => assemble_images(alloc, images.as_slice(), run, shelf, sink),
        Verb::Incremental { run } => arrive_images(alloc, images.as_slice(), run, shelf, sink),
        Verb::Create(made) => create_images(alloc, images.as_slice(), &made, shelf, sink),
        Verb::Examine => examine_image(alloc, images.as_slice(), shelf, sink),
        Verb::Replay { limit } => {
            replay_images(alloc, images.as_slice(), limit, shelf, source, sink)
        }
    }
}

/// Runs a command: whatever its words ask for is carried out.
///
/// The words are `create`, perhaps `--family H`, the level, strip and size of one volume or two, and words NAME=FILE;
/// `examine` and one word NAME=FILE; `assemble` or `incremental`, perhaps `--run`, and words NAME=FILE, at least one;
/// or `replay`, perhaps `--journal N`, and words NAME=FILE.
///
/// The status is 0 where the container was made, the block is whole, a volume starts or the replay is done, 1 where the
/// words are others, 2 where disks of the container are waited for, 3 where an image is too small, no whole block is
/// found, the container is refused or none of its volumes starts, or an operation names a volume that isn't there, 4
/// where a line of the script isn't in the grammar, 5 where the script couldn't be read, 6 where a line couldn't be
/// written, 7 where an image couldn't be opened, 8 where the journal is full, 9 without memory, 10 where a limit is
/// passed, 13 where a call on a disk failed, and 14 where a replay is of an image that isn't of the form that it runs
/// on today.
pub fn image_main<H: Shelf, S: Source, K: Sink>(
    alloc: Global,
    words: &[String],
    shelf: &mut H,
    source: &mut S,
    sink: &mut K,
) -> Status
    requires unused { IsSomeAnd (shelf_told H.Shelf H.Held.Bank shelf.old).bank IsUnused }
    ensures { Runs (texts words.now) (outside_told H.Shelf H.Held.Bank S.Source K.Sink shelf.old source.old sink.old)
        (outside_told H.Shelf H.Held.Bank S.Source K.Sink shelf.new source.new sink.new) result.0 }
{
    match parse(alloc, words) {
        Ok(command) => carry_out(alloc, words, command, shelf, source, sink),
        Err(WordsFault::Memory) => end_without_memory(sink),
        Err(WordsFault::Words) => end(sink, b"words\n", Status::WORDS),
        Err(WordsFault::Images) => end(sink, b"limit images 17\n", Status::LIMIT),
    }
}
