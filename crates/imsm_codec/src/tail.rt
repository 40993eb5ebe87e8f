//! The tail of a metadata block: its bad-block log (`struct bbm_log` of super-intel.c).
ghost use Rattle.std.specs.Prelude.{◌≡◌, ◌+◌, ◌*◌, ◌<◌, ◌≤◌, ◌↔◌, ℕ, length, drop, MatchResult, IsTrue};
ghost use Rattle.imsm_base.specs.Fields.{number_at};
ghost use Rattle.imsm_base.specs.Whole.{IsAcceptedTail};
ghost use Rattle.imsm_base.specs.Parts.{block_in, behind_volumes};
ghost use Rattle.imsm_codec.specs.Checked.{IsFilled, IsChecked, HasBlockFault};

use crate::bytes::behind;
use crate::fault::MpbFault;
use imsm_base::{LOG_SIGNATURE, get_u32};
use units::HEADER_BYTES;

/// Bytes of a log's mark and its count of entries.
const LOG_HEAD: usize = 8;

fn is_accepted(tail: &[u8]) -> bool
    ensures { IsTrue result ↔ IsAcceptedTail tail.now }
{
    tail.is_empty()
        || (LOG_HEAD <= tail.len() && get_u32(tail, 0) == LOG_SIGNATURE && get_u32(tail, 4) == 0)
}

/// Whether the tail lies behind the volumes, of which `rest` has the bytes, and is of an accepted form.
#[tactic(auto, unfolding(imsm_base::specs::Parts::block_in))]
pub(crate) fn check_tail(bytes: &[u8], rest: &[u8]) -> Result<(), MpbFault>
    requires header { HEADER_BYTES ≤ length bytes.now }
    requires filled { IsFilled bytes.now }
    requires rest { rest.now ≡ behind_volumes bytes.now }
    ensures { MatchResult result (λ _. IsChecked bytes.now) (λ e. HasBlockFault bytes.now e) }
{
    let size = get_u32(bytes, 0x48);
    if rest.len() < size as usize {
        return Err(MpbFault::BadBlocks(size));
    }
    if !is_accepted(behind(rest, rest.len() - size as usize)) {
        return Err(MpbFault::BadBlocks(size));
    }
    Ok(())
}
