//! Rows that set the bytes at hand.
use crate::row::Row;
use std::alloc::{AllocError, Global};
use std::io;

/// The most bytes that are set.
const MAX_BYTES: u64 = 16_384;

/// The bytes of an even number of hexadecimal digits, none where they are something else.
fn decoded(alloc: Global, digits: &str) -> Vec<u8> {
    hex::decode(alloc, digits).unwrap_or(Vec::new(alloc))
}

/// Puts bytes in from a place on, as far as there is room.
fn put(bytes: &mut Vec<u8>, at: u64, part: &[u8]) {
    for (byte, place) in part.iter().zip(at..u64::MAX) {
        if let Some(old) = bytes.get_mut(place as usize) {
            *old = *byte;
        }
    }
}

/// Puts in the changes that are left of a row: places and digits, with a colon between them.
fn put_changes(alloc: Global, row: &Row<'_>, bytes: &mut Vec<u8>) {
    for word in row.rest().split(' ') {
        let mut parts = Row::of_parts(word);
        let at = parts.number();
        let part = decoded(alloc, parts.word());
        put(bytes, at, &part);
    }
}

/// So many bytes, of 0 but for the changes of the row.
pub(crate) fn set_base(alloc: Global, row: &mut Row<'_>) -> Result<Vec<u8>, AllocError> {
    let size = row.number().min(MAX_BYTES);
    let mut bytes = vec![in alloc; 0u8; size as usize]?;
    put_changes(alloc, row, &mut bytes);
    Ok(bytes)
}

/// The base with the changes of the row.
pub(crate) fn set_block(
    alloc: Global,
    row: &mut Row<'_>,
    base: &[u8],
) -> Result<Vec<u8>, AllocError> {
    let mut bytes = base.to_vec(alloc)?;
    put_changes(alloc, row, &mut bytes);
    Ok(bytes)
}

/// Prints how many bytes there are, and those that differ from the base, behind whose end 0 stands.
pub(crate) fn print_changes(rt: &HostRuntime, bytes: &[u8], base: &[u8]) -> io::Result<()> {
    let size = bytes.len();
    print!(rt; "{size} bytes")?;
    for (at, byte) in bytes.iter().enumerate() {
        let byte = *byte;
        if byte != base.get(at).copied().unwrap_or(0) {
            print!(rt; " {at}:{byte:02x}")?;
        }
    }
    println!(rt; "")
}
