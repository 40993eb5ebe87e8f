//! Runs of bytes that are put in and taken out, in the room that there is.
ghost use Rattle.std.specs.Prelude.{◌≡◌, ◌+◌, ◌≤◌, ◌++◌, take, drop, replicate, vec_len, vec_capacity};

/// Moves the bytes from a place on further behind, by n. Those in the n places before them stay.
pub(crate) fn move_back(bytes: &mut Vec<u8>, at: usize, n: usize)
    requires inside { at ≤ vec_len bytes.old }
    requires room { vec_len bytes.old + n ≤ vec_capacity bytes.old }
    ensures items { bytes.new.items ≡ take (at + n) (bytes.old.items ++ replicate n 0) ++ drop at bytes.old.items }
    ensures capacity { vec_capacity bytes.old ≤ vec_capacity bytes.new }
{
    let len = bytes.len();
    bytes.resize(len + n, 0).unwrap();
    bytes.copy_within(at..len, at + n);
}

/// Puts a record in at a place.
pub(crate) fn put_in(bytes: &mut Vec<u8>, at: usize, added: &[u8; 48])
    requires inside { at ≤ vec_len bytes.old }
    requires room { vec_len bytes.old + 48 ≤ vec_capacity bytes.old }
    ensures items { bytes.new.items ≡ take at bytes.old.items ++ (added.now ++ drop at bytes.old.items) }
    ensures capacity { vec_capacity bytes.old ≤ vec_capacity bytes.new }
{
    move_back(bytes, at, 48);
    bytes[at..at + 48].copy_from_slice(added);
}

/// Puts a copy of the n bytes at a place in behind them.
pub(crate) fn put_twice(bytes: &mut Vec<u8>, at: usize, n: usize)
    requires inside { at + n ≤ vec_len bytes.old }
    requires room { vec_len bytes.old + n ≤ vec_capacity bytes.old }
    ensures items { bytes.new.items ≡ take (at + n) bytes.old.items ++ drop at bytes.old.items }
    ensures capacity { vec_capacity bytes.old ≤ vec_capacity bytes.new }
{
    move_back(bytes, at, n);
}

/// Takes n bytes out at a place.
pub(crate) fn take_out(bytes: &mut Vec<u8>, at: usize, n: usize)
    requires { at + n ≤ vec_len bytes.old }
    ensures items { bytes.new.items ≡ take at bytes.old.items ++ drop (at + n) bytes.old.items }
    ensures capacity { vec_capacity bytes.new ≡ vec_capacity bytes.old }
{
    let len = bytes.len();
    bytes.copy_within(at + n..len, at);
    bytes.truncate(len - n);
}
