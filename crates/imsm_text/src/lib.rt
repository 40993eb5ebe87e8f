//! How bytes, names and numbers of a metadata block are printed, and lines of them.
//!
//! It owes each text as a function of the value: a byte as it is or as two digits, a name or a serial without the
//! zeros at its end, a number in decimal or in eight hexadecimal digits. `examine` prints blocks by it, and each
//! command its lines.
#![tactic(auto)]

mod bytes;
mod number;
mod word;

pub use bytes::{digits_of, is_plain, name_bytes, push_all_escaped, push_escaped, push_name};
pub use number::{digits_of_number, push_hex_byte, push_hex_number, push_number};
pub use word::{Word, push_line, push_words};
