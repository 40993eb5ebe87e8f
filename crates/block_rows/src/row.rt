//! A line of the input, word by word.
use units::Serial;

/// What is left of a line, if anything: words with one separator between them, which may be empty.
#[derive(Drop)]
pub(crate) struct Row<'a> {
    rest: Option<&'a str>,
    separator: char,
}

impl<'a> Row<'a> {
    /// A line of words with spaces between them.
    pub(crate) fn of(line: &'a str) -> Row<'a> {
        Row {
            rest: Some(line),
            separator: ' ',
        }
    }

    /// A word of parts with colons between them.
    pub(crate) fn of_parts(word: &'a str) -> Row<'a> {
        Row {
            rest: Some(word),
            separator: ':',
        }
    }

    /// What is left of the line.
    pub(crate) fn rest(&self) -> &'a str {
        self.rest.unwrap_or("")
    }

    /// The next word, an empty one where none is left.
    pub(crate) fn word(&mut self) -> &'a str {
        let Some(rest) = self.rest else {
            return "";
        };
        match rest.split_once(self.separator) {
            Some((word, behind)) => {
                self.rest = Some(behind);
                word
            }
            None => {
                self.rest = None;
                rest
            }
        }
    }

    /// The number that the next word spells, 0 where it spells none.
    pub(crate) fn number(&mut self) -> u64 {
        self.word().parse::<u64>().unwrap_or(0)
    }

    /// The same of 32 bits.
    pub(crate) fn number_of_32(&mut self) -> u32 {
        self.word().parse::<u32>().unwrap_or(0)
    }

    /// The same of 16 bits.
    pub(crate) fn number_of_16(&mut self) -> u16 {
        self.word().parse::<u16>().unwrap_or(0)
    }

    /// The same of 8 bits.
    pub(crate) fn number_of_8(&mut self) -> u8 {
        self.word().parse::<u8>().unwrap_or(0)
    }

    /// The serial whose first bytes are the next word.
    pub(crate) fn serial(&mut self) -> Serial {
        let mut serial = Serial([0; 16]);
        for (to, from) in serial.0.iter_mut().zip(self.word().as_bytes()) {
            *to = *from;
        }
        serial
    }
}
