//! The words that name images.
ghost use Rattle.std.specs.Prelude.{◌≡◌, ◌≢◌, ◌↔◌, ◌&&◌, nat_le, ℕ, ◌<◌, ◌≤◌, List, ◌∷◌, length, map, drop, Err, IsTrue, IsSome, IfSome, IfNone, IfOk};
ghost use Rattle.std.specs.List.{AllByRecursion, list_all};
ghost use Rattle.std.specs.Option.{IsSomeAnd};
ghost use Rattle.image_words.specs.Words.{ImageWord, IsImageWord, are_distinct, is_apart_from, is_name, is_name_byte, serial_named, spelled, texts};
ghost use Rattle.image_words.specs.Args.{word_of, words_of};
ghost use Rattle.image_words.specs.declared.words.WordsFault.TheVariants as faults;

use std::alloc::{AllocFailed, Global};
use thiserror::Error;
use units::{MAX_DISKS, SERIAL_BYTES, Serial};

/// A word NAME=FILE: the name of a disk, and the file that is its image.
#[derive(Clone, Copy, Default)]
pub struct ImageArg<'a> {
    pub name: &'a str,
    pub file: &'a str,
}

impl ImageArg<'_> {
    /// The serial under which the image is opened: its name, padded with zero bytes.
    pub fn serial(&self) -> Serial
        requires { length self.now.name.now ≤ SERIAL_BYTES }
        ensures { result ≡ serial_named (word_of self.now) }
    {
        let mut bytes = [0; SERIAL_BYTES];
        bytes[..self.name.len()].copy_from_slice(self.name.as_bytes());
        Serial(bytes)
    }
}

fn is_byte_of_name(byte: u8) -> bool
    ensures { result ≡ is_name_byte byte }
{
    byte >= 0x21 && byte <= 0x7e && byte != b'=' && byte != b'\\'
}

fn are_name_bytes(bytes: &[u8]) -> bool
    ensures { result ≡ list_all is_name_byte bytes.now }
{
    bytes.iter().all(|byte| is_byte_of_name(*byte))
}

fn is_name_length(length: usize) -> bool
    ensures { result ≡ (nat_le 1 length && nat_le length SERIAL_BYTES) }
{
    1 <= length && length <= SERIAL_BYTES
}

fn names_disk(name: &str) -> bool
    ensures { result ≡ is_name name.now }
{
    is_name_length(name.len()) && are_name_bytes(name.as_bytes())
}

/// The parts of a word around its first `=`.
fn parts(word: &str) -> Option<ImageArg<'_>>
    ensures split { IfSome result (λ image. word.now ≡ spelled (word_of image)) }
    ensures only { (w : ImageWord) → IsImageWord w → word.now ≡ spelled w
        → IsSomeAnd result (λ image. word_of image ≡ w) }
{
    let (name, file) = word.split_once('=')?;
    Some(ImageArg { name, file })
}

fn names_image(image: &ImageArg<'_>) -> bool
    ensures { IsTrue result ↔ IsImageWord (word_of image.now) }
{
    names_disk(image.name) && !image.file.is_empty()
}

/// The image that a word names, if it is of the form NAME=FILE.
pub fn image_of(word: &str) -> Option<ImageArg<'_>>
    ensures found { IfSome result (λ image. IsImageWord (word_of image) × (word.now ≡ spelled (word_of image))) }
    ensures none { IfNone result ((w : ImageWord) → IsImageWord w → word.now ≡ spelled w → ⊥) }
{
    let image = parts(word)?;
    if names_image(&image) {
        Some(image)
    } else {
        None
    }
}

/// Why words give no images to open.
#[derive(Clone, Copy, Debug, PartialEq, Eq, Error)]
pub enum WordsFault {
    #[error("out of memory")]
    Memory,
    #[error("the words are not in the grammar")]
    Words,
    #[error("more images are named than a command opens")]
    Images,
}

impl<T: Drop> From<AllocFailed<T>> for WordsFault {
    ghost from_gives = { λ _ fault. fault ≡ faults.Memory };

    fn from(_: AllocFailed<T>) -> WordsFault {
        WordsFault::Memory
    }
}

/// The images that words name, if each word names one.
pub fn images_of(alloc: Global, words: &[String]) -> Result<Vec<ImageArg<'_>>, WordsFault>
    ensures each { IfOk result (λ images. AllByRecursion IsImageWord (words_of images.items)) }
    ensures found { IfOk result (λ images. texts words.now ≡ map spelled (words_of images.items)) }
    ensures refused { result ≡ Err WordsFault.Words → (ws : List ImageWord) → AllByRecursion IsImageWord ws
        → texts words.now ≡ map spelled ws → ⊥ }
    ensures many { result ≢ Err WordsFault.Images }
{
    let mut images = Vec::new(alloc);
    for word in words {
        let Some(image) = image_of(word.as_str()) else {
            return Err(WordsFault::Words);
        };
        images.push(image)?;
    }
    Ok(images)
}

fn is_apart(image: &ImageArg<'_>, other: &ImageArg<'_>) -> bool
    ensures { result ≡ is_apart_from (word_of image.now) (word_of other.now) }
{
    other.name != image.name && other.file != image.file
}

fn is_apart_from_all(image: &ImageArg<'_>, others: &[ImageArg<'_>]) -> bool
    ensures { result ≡ list_all (λ other. is_apart_from (word_of image.now) (word_of other)) others.now }
{
    others.iter().all(|other| is_apart(image, other))
}

/// Whether the first image is apart from all behind it.
fn is_first_apart(images: &[ImageArg<'_>]) -> bool
    ensures { are_distinct (words_of images.now) ≡ (result && are_distinct (words_of (drop 1 images.now))) }
{
    match images.split_first() {
        None => true,
        Some((image, others)) => is_apart_from_all(image, others),
    }
}

pub fn are_apart(images: &[ImageArg<'_>]) -> bool
    ensures { result ≡ are_distinct (words_of images.now) }
{
    for i in 0..images.len() {
        if !is_first_apart(&images[i..]) {
            return false;
        }
    }
    true
}

/// The words behind a first word, if that is this one.
pub fn behind<'a>(first: &str, words: &'a [String]) -> Option<&'a [String]>
    ensures some { IfSome result (λ rest. texts words.now ≡ first.now ∷ texts rest.now) }
    ensures none { IfNone result ((rest : List (List ℕ)) → texts words.now ≡ first.now ∷ rest → ⊥) }
{
    let (word, rest) = words.split_first()?;
    if word.as_str() == first {
        Some(rest)
    } else {
        None
    }
}
