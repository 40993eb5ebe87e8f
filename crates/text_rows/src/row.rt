//! A line of the input, word by word.

/// What is left of a line, if anything: words with one space between them, which may be empty.
#[derive(Drop)]
pub(crate) struct Row<'a> {
    rest: Option<&'a str>,
}

impl<'a> Row<'a> {
    pub(crate) fn of(line: &'a str) -> Row<'a> {
        Row { rest: Some(line) }
    }

    /// What is left of the line.
    pub(crate) fn rest(&self) -> Option<&'a str> {
        self.rest
    }

    /// The next word, an empty one where none is left.
    pub(crate) fn word(&mut self) -> &'a str {
        let Some(rest) = self.rest else {
            return "";
        };
        match rest.split_once(' ') {
            Some((word, behind)) => {
                self.rest = Some(behind);
                word
            }
            None => {
                self.rest = None;
                rest
            }
        }
    }

    /// The number that the next word spells, 0 where it spells none.
    pub(crate) fn number(&mut self) -> u64 {
        self.word().parse::<u64>().unwrap_or(0)
    }

    /// The same of 32 bits.
    pub(crate) fn short(&mut self) -> u32 {
        self.word().parse::<u32>().unwrap_or(0)
    }

    /// The same of 8 bits.
    pub(crate) fn byte(&mut self) -> u8 {
        self.word().parse::<u8>().unwrap_or(0)
    }
}
