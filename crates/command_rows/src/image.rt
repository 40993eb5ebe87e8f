//! Images in memory.
use crate::block::put;
use crate::fault::Fault;
use std::alloc::{AllocError, Global};
use units::Sector;

/// An image of so many sectors, each of bytes of this value.
pub fn filled(alloc: Global, sectors: usize, byte: u8) -> Result<Vec<Sector>, AllocError> {
    vec![in alloc; Sector([byte; 512]); sectors]
}

/// Puts a metadata block where a reader looks for it: its first sector is the second to last of the image, and the
/// others stand before that.
pub fn hold(image: &mut [Sector], block: &[u8]) -> Result<(), Fault> {
    let count = block.len().div_ceil(512);
    for (number, part) in block.chunks(512).enumerate() {
        let back = if number == 0 {
            2
        } else {
            count.saturating_sub(number).saturating_add(2)
        };
        let place = image.len().checked_sub(back).ok_or(Fault::Line)?;
        let sector = image.get_mut(place).ok_or(Fault::Line)?;
        put(&mut sector.0, 0, part)?;
    }
    Ok(())
}

/// Bytes of an image, from a byte of a sector on. There are fewer where the image ends.
pub fn part_of(
    alloc: Global,
    image: &[Sector],
    sector: usize,
    from: usize,
    count: usize,
) -> Result<Vec<u8>, AllocError> {
    let sectors = image.iter().skip(sector);
    let bytes = sectors.flat_map(|sector| sector.0.iter());
    bytes.skip(from).take(count).copied().collect(alloc)
}

/// Whether a sector of an image is this block, with zeros behind its end.
pub fn is_block(image: &[Sector], sector: usize, block: &[u8]) -> Result<bool, Fault> {
    let mut wanted = [0; 512];
    put(&mut wanted, 0, block)?;
    Ok(image.get(sector) == Some(&Sector(wanted)))
}
