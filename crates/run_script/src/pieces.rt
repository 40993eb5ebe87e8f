//! Pieces of bytes between separators.
ghost use Rattle.std.specs.Prelude.{◌≡◌, ◌==◌, ◌∷◌, position};
ghost use Rattle.std.specs.List.{slice_split};
ghost use Rattle.run_script.specs.Pieces.{pieces_left, Takes};

use std::marker::Model;

/// Where the first separator stands.
fn place_of(bytes: &[u8], separator: u8) -> Option<usize>
    ensures { result ≡ position (λ c. c == separator) bytes.now }
{
    bytes.iter().position(|byte| *byte == separator)
}

/// The first piece, and what stands behind the separator after it.
fn cut(bytes: &[u8], separator: u8) -> (&[u8], Option<&[u8]>)
    ensures { slice_split (λ c. c == separator) bytes.now ≡ result.0.now ∷ pieces_left separator result.1 }
{
    match place_of(bytes, separator) {
        Some(at) => (&bytes[..at], Some(&bytes[at + 1..])),
        None => (bytes, None),
    }
}

/// The pieces that are still to be taken: the lines of a text, or the words of a line.
#[derive(Drop)]
pub struct Pieces<'a> {
    separator: u8,
    rest: Option<&'a [u8]>,
}

impl<'a> Model for Pieces<'a> {
    ghost use Rattle.std.specs.Prelude.{List, ℕ};
    ghost use Rattle.run_script.specs.Pieces.{pieces_left};

    ghost Value = { List (List ℕ) };

    ghost view = { λ p. pieces_left p.separator p.rest };
}

impl<'a> Pieces<'a> {
    /// The pieces of bytes, the first one first. There is always one.
    pub fn of(bytes: &'a [u8], separator: u8) -> Pieces<'a>
        ensures { result ≡ slice_split (λ c. c == separator) bytes.now }
    {
        Pieces {
            separator,
            rest: Some(bytes),
        }
    }

    /// Takes the next piece.
    pub fn next(&mut self) -> Option<&'a [u8]>
        ensures { Takes result self.old self.new }
    {
        let (piece, rest) = cut(self.rest?, self.separator);
        self.rest = rest;
        Some(piece)
    }
}
