//! A line, and what is appended to it.
ghost use Rattle.std.specs.Prelude.{◌≡◌, ◌+◌, ◌≤◌, ◌++◌, length};
ghost use Rattle.std.specs.Fmt.{decimal};
ghost use Rattle.arrayvec.specs.ArrayVec.{array_vec_len};
ghost use Rattle.journal_text.specs.Lines.{spaced};

use arrayvec::ArrayVec;
use itoa::Buffer;

/// Bytes of the longest line, which is that of a sector printed whole: 20 for the stamp, 4 and 21 for `ack` and the
/// operation's number, 6 and 1,025 for `value` and the digits, each word with the space before it, and the line feed.
pub const LINE_BYTES: usize = 1077;

/// Room for a line.
pub type Line = ArrayVec<u8, LINE_BYTES>;

pub fn push_bytes(line: &mut Line, bytes: &[u8])
    requires { array_vec_len line.old + length bytes.now ≤ LINE_BYTES }
    ensures items { line.new.items ≡ line.old.items ++ bytes.now }
    ensures len { array_vec_len line.new ≡ array_vec_len line.old + length bytes.now }
{
    line.try_extend_from_slice(bytes).unwrap();
}

/// Appends the decimal digits of a number.
pub fn push_digits(line: &mut Line, number: u64)
    requires { array_vec_len line.old + 20 ≤ LINE_BYTES }
    ensures items { line.new.items ≡ line.old.items ++ decimal number }
    ensures len { array_vec_len line.new ≤ array_vec_len line.old + 20 }
{
    push_bytes(line, Buffer::new().format(number).as_bytes());
}

/// Appends a word, after a space.
pub fn push_word(line: &mut Line, word: &[u8])
    requires { array_vec_len line.old + 1 + length word.now ≤ LINE_BYTES }
    ensures items { line.new.items ≡ line.old.items ++ spaced word.now }
    ensures len { array_vec_len line.new ≡ array_vec_len line.old + 1 + length word.now }
{
    line.push(b' ');
    push_bytes(line, word);
}

/// Appends a number, after a space.
pub fn push_number(line: &mut Line, number: u64)
    requires { array_vec_len line.old + 21 ≤ LINE_BYTES }
    ensures items { line.new.items ≡ line.old.items ++ spaced (decimal number) }
    ensures len { array_vec_len line.new ≤ array_vec_len line.old + 21 }
{
    line.push(b' ');
    push_digits(line, number);
}
