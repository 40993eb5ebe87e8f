//! The value of a read, in hexadecimal digits.
ghost use Rattle.std.specs.Prelude.{◌≡◌, ◌+◌, ◌*◌, ◌≤◌, ◌++◌, length};
ghost use Rattle.hex.specs.Hex.{encode_lower};
ghost use Rattle.arrayvec.specs.ArrayVec.{array_vec_len};
ghost use Rattle.journal_text.specs.Lines.{is_repeated, value_word, spaced};

use crate::pieces::{LINE_BYTES, Line, push_word};
use units::Sector;

/// Bytes of the value that a write repeats over its sector.
const VALUE_BYTES: usize = 8;

/// Whether a sector is 64 times its first eight bytes: then it is what it is eight bytes further on.
fn repeats(sector: &[u8]) -> bool
    requires { length sector.now ≡ 512 }
    ensures { result ≡ is_repeated sector.now }
{
    sector[VALUE_BYTES..] == sector[..sector.len() - VALUE_BYTES]
}

fn push_hex(line: &mut Line, bytes: &[u8])
    requires short { length bytes.now ≤ 512 }
    requires room { array_vec_len line.old + 1 + 2 * length bytes.now ≤ LINE_BYTES }
    ensures items { line.new.items ≡ line.old.items ++ spaced (encode_lower bytes.now) }
    ensures len { array_vec_len line.new ≡ array_vec_len line.old + 1 + 2 * length bytes.now }
{
    let mut room = [0; 1024];
    let digits = &mut room[..2 * bytes.len()];
    hex::encode_to_slice(bytes, digits).unwrap();
    push_word(line, digits);
}

/// Appends what was read: eight bytes where the sector repeats them, else the whole sector.
pub fn push_value(line: &mut Line, sector: &Sector)
    requires { array_vec_len line.old + 1025 ≤ LINE_BYTES }
    ensures items { line.new.items ≡ line.old.items ++ spaced (value_word sector.now) }
    ensures len { array_vec_len line.new ≤ array_vec_len line.old + 1025 }
{
    if repeats(&sector.0) {
        push_hex(line, &sector.0[..VALUE_BYTES]);
    } else {
        push_hex(line, &sector.0);
    }
}
