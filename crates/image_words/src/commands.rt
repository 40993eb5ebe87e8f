//! The commands that are in the grammar.
ghost use Rattle.std.specs.Prelude.{◌≡◌, ◌<◌, ◌≤◌, ◌&&◌, nat_le, List, length, map, Err, IsTrue, IfOk};
ghost use Rattle.image_words.specs.Words.{ImageWord, IsCommand, IsWithinLimit, IsPastLimit, are_distinct, spelled, texts};
ghost use Rattle.image_words.specs.Args.{Asks, fits, words_of};

use crate::verbs::{Verb, split_verb};
use crate::words::{ImageArg, WordsFault, are_apart, images_of};
use std::alloc::Global;
use units::MAX_DISKS;

/// A command: what it does, and the images that it opens.
#[derive(Drop)]
pub struct Command<'a> {
    pub verb: Verb,
    pub images: Vec<ImageArg<'a>>,
}

/// Whether images are some, each apart from the others, and as many as fit what is done with them.
fn are_taken(verb: Verb, images: &[ImageArg<'_>]) -> bool
    ensures { result ≡ ((nat_le 1 (length images.now) && are_distinct (words_of images.now))
        && fits verb (length images.now)) }
{
    !images.is_empty() && are_apart(images) && verb.fits(images.len())
}

/// The command of words. The grammar comes before the limit of images.
pub fn parse(alloc: Global, words: &[String]) -> Result<Command<'_>, WordsFault>
    ensures found { IfOk result (λ command. Asks (texts words.now) command.verb (words_of command.images.items)) }
    ensures only { IfOk result (λ command. (verb : Verb) (images : List ImageWord) → Asks (texts words.now) verb images
        → (command.verb ≡ verb) × (words_of command.images.items ≡ images)) }
    ensures few { IfOk result (λ command. length command.images.items ≤ MAX_DISKS) }
    ensures within { IfOk result (λ command. IsPastLimit (texts words.now) → ⊥) }
    ensures refused { result ≡ Err WordsFault.Words → IsCommand (texts words.now) → ⊥ }
    ensures past { result ≡ Err WordsFault.Images → IsPastLimit (texts words.now) }
    ensures past_alone { result ≡ Err WordsFault.Images → IsWithinLimit (texts words.now) → ⊥ }
{
    let Some((verb, named)) = split_verb(words) else {
        return Err(WordsFault::Words);
    };
    let images = images_of(alloc, named)?;
    if !are_taken(verb, images.as_slice()) {
        return Err(WordsFault::Words);
    }
    if images.len() > MAX_DISKS {
        return Err(WordsFault::Images);
    }
    Ok(Command { verb, images })
}
