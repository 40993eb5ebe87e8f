//! The sectors of a metadata block.
ghost use Rattle.std.specs.Prelude.{◌≡◌, drop};
ghost use Rattle.imsm_base.specs.Edits.{first_sector};
ghost use Rattle.mpb_store.specs.Sectors.{block_sectors, bytes_in, filled};

use imsm_buffer::MpbBuf;
use units::{MAX_WRITE_SECTORS, SECTOR_BYTES, Sector};

/// The sector that begins at a place of the bytes, with zeros behind their end.
fn sector_from(bytes: &[u8], place: usize) -> Sector
    ensures { result.0 ≡ first_sector (drop place bytes.now) }
{
    let rest = &bytes[place.min(bytes.len())..];
    let len = rest.len().min(SECTOR_BYTES);
    let mut sector = [0; SECTOR_BYTES];
    sector[..len].copy_from_slice(&rest[..len]);
    Sector(sector)
}

/// Puts a block's sectors into a list: the anchor sector at 0, behind it the extended sectors, then sectors of zeros.
pub fn sectors_of(mpb: &MpbBuf, into: &mut [Sector; MAX_WRITE_SECTORS])
    ensures sectors { into.new ≡ block_sectors mpb.now.bytes }
    ensures bytes { bytes_in into.new ≡ filled mpb.now.bytes }
{
    let bytes = mpb.bytes();
    for number in 0..MAX_WRITE_SECTORS {
        into[number] = sector_from(bytes, SECTOR_BYTES * number);
    }
}
