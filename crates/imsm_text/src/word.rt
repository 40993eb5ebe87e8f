//! Lines of words.
ghost use Rattle.std.specs.Prelude.{◌≡◌, ◌++◌, OnOk};
ghost use Rattle.std.specs.List.{flat_map};
ghost use Rattle.imsm_text.specs.Text.{word_text, words_text, spaced, line};

use crate::bytes::push_name;
use crate::number::{push_hex_number, push_number};
use std::alloc::AllocError;

/// A word of a line, and how it is printed.
#[derive(Clone, Copy)]
pub enum Word<'a> {
    /// As it is.
    Plain(&'a [u8]),
    /// In decimal digits.
    Number(u64),
    /// In eight hexadecimal digits.
    Hex(u32),
    /// A name or a serial, without the zeros at its end.
    Name(&'a [u8]),
}

/// Appends a word.
fn push_word(out: &mut Vec<u8>, word: &Word<'_>) -> Result<(), AllocError>
    ensures { OnOk result (out.new.items ≡ out.old.items ++ word_text word.now) }
{
    match word {
        Word::Plain(bytes) => out.extend_from_slice(bytes),
        Word::Number(value) => push_number(out, *value),
        Word::Hex(value) => push_hex_number(out, *value),
        Word::Name(bytes) => push_name(out, bytes),
    }
}

/// Appends a word with a space before it.
fn push_spaced(out: &mut Vec<u8>, word: &Word<'_>) -> Result<(), AllocError>
    ensures { OnOk result (out.new.items ≡ out.old.items ++ spaced (word_text word.now)) }
{
    out.push(b' ')?;
    push_word(out, word)
}

/// Appends words with a space before each, as they stand in a line behind its first word.
pub fn push_words(out: &mut Vec<u8>, words: &[Word<'_>]) -> Result<(), AllocError>
    ensures { OnOk result (out.new.items ≡ out.old.items ++ flat_map spaced (words_text words.now)) }
{
    for word in words {
        push_spaced(out, word)?;
    }
    Ok(())
}

/// Appends a line: its first word as it is, then words with a space before each, and a line feed.
pub fn push_line(out: &mut Vec<u8>, first: &[u8], words: &[Word<'_>]) -> Result<(), AllocError>
    ensures { OnOk result (out.new.items ≡ out.old.items ++ line first.now (words_text words.now)) }
{
    out.extend_from_slice(first)?;
    push_words(out, words)?;
    out.push(b'\n')?;
    Ok(())
}
