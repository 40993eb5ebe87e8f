//! Parity: the sum, bit by bit, of the sectors of a row.
ghost use Rattle.std.specs.Prelude.{◌≡◌};
ghost use Rattle.array_model.specs.AnswerLaw.{xor_bytes};

use units::{SECTOR_BYTES, Sector};

/// Adds one sector to another, bit by bit.
pub fn xor_into(into: &mut Sector, from: &Sector)
    ensures { into.new.0 ≡ xor_bytes into.old.0 from.now.0 }
{
    for i in 0..SECTOR_BYTES {
        into.0[i] ^= from.0[i];
    }
}
