//! The text of a block.
ghost use Rattle.std.specs.Prelude.{◌≡◌, ◌++◌, IfOk, OnOk};
ghost use Rattle.imsm_codec.specs.Mpb.{block_of};
ghost use Rattle.examine.specs.Lines.{examine_lines};

use crate::disks::push_disks;
use crate::header::push_header;
use crate::volumes::push_volumes;
use imsm_codec::MpbRef;
use std::alloc::{AllocError, Global};
use thiserror::Error;

/// Why there is no text.
#[derive(Clone, Copy, Debug, PartialEq, Eq, Error)]
pub enum ExamineFault {
    #[error("out of memory")]
    Memory,
}

/// Appends all lines of a block.
fn push_block(out: &mut Vec<u8>, mpb: &MpbRef<'_>) -> Result<(), AllocError>
    ensures { OnOk result (out.new.items ≡ out.old.items ++ examine_lines (block_of mpb.now)) }
{
    push_header(out, mpb)?;
    push_disks(out, mpb)?;
    push_volumes(out, mpb)
}

/// What a block says, as lines, each of which ends with a line feed. An error is that there was no memory.
pub fn examine_text(alloc: Global, mpb: &MpbRef<'_>) -> Result<Vec<u8>, ExamineFault>
    ensures { IfOk result (λ text. text.items ≡ examine_lines (block_of mpb.now)) }
{
    let mut text = Vec::new(alloc);
    push_block(&mut text, mpb).map_err(|_| ExamineFault::Memory)?;
    Ok(text)
}
