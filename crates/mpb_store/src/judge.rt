//! What a block says of the disk on which it stands.
ghost use Rattle.std.specs.Prelude.{◌≡◌, ◌≤◌, ℕ, List};
ghost use Rattle.units.specs.declared.bounds.TheConstants.{METADATA_SECTORS};
ghost use Rattle.imsm_base.specs.Whole.{IsWholeBlock};
ghost use Rattle.imsm_codec.specs.Given.{given_block};
ghost use Rattle.imsm_codec.specs.Mpb.{block_bytes, block_of};
ghost use Rattle.mpb_store.specs.Answers.{IsFound, IsPastFront, found_by};

use crate::answer::{Found, StoreFault};
use imsm_codec::{MpbFault, MpbRef, own_record};
use units::Serial;

/// What is found where the sectors that were read don't begin with a whole block. Of a disk without room for metadata
/// none was read, and else the anchor at least.
pub(crate) fn found_by(fault: MpbFault) -> Found
    ensures { result ≡ found_by fault }
{
    match fault {
        MpbFault::Short(_) | MpbFault::Signature => Found::Blank,
        _ => Found::Torn(StoreFault::Mpb(fault)),
    }
}

/// Whether a record of the block speaks for the disk, and asks for no more sectors than there are.
pub(crate) fn judge(mpb: &MpbRef<'_>, own: &Serial, sectors: u64) -> Found
    requires room { METADATA_SECTORS ≤ sectors }
    requires whole { IsWholeBlock (block_bytes mpb.now) (block_of mpb.now) }
    ensures found { (bytes : List ℕ) → given_block bytes ≡ block_bytes mpb.now
        → IsFound own.now.0 sectors bytes result }
    ensures behind { IsPastFront result }
{
    let Some(i) = own_record(mpb, own) else {
        return Found::Torn(StoreFault::NoOwn);
    };
    let named = mpb.disk_blocks(i);
    if named > sectors {
        return Found::Torn(StoreFault::Small(named, sectors));
    }
    Found::Whole
}
