//! Why a script isn't taken.

use thiserror::Error;

/// What is wrong with a word of a line.
#[derive(Clone, Copy, Debug, PartialEq, Eq)]
pub enum LineKind {
    /// The word is unknown, or one too many.
    Word,
    /// There is a word too few.
    Missing,
    /// No number as the line wants it.
    Number,
    /// No value of 16 lower-case hexadecimal digits.
    Value,
    /// No name.
    Name,
    /// A turn, where turns aren't taken.
    Turns,
}

/// What there is too much of.
#[derive(Clone, Copy, Debug, PartialEq, Eq)]
pub enum LimitKind {
    Images,
    Bytes,
    Ops,
    Asks,
    Turns,
    Clients,
}

/// Why a script isn't taken.
#[derive(Clone, Copy, Debug, PartialEq, Eq, Error)]
pub enum ScriptFault {
    #[error("out of memory")]
    Memory,
    /// The number of the line, from 1, and what is wrong with its first wrong word.
    #[error("line {0} is not in the grammar")]
    Line(u64, LineKind),
    /// What there is too much of, and the first number past the limit; for clients the client.
    #[error("{1} is past a limit")]
    Limit(LimitKind, u64),
}
