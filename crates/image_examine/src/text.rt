//! The lines of what is found on a disk.
ghost use Rattle.std.specs.Prelude.{◌≡◌, ◌++◌, [], codes, IfOk, OnOk};
ghost use Rattle.imsm_text.specs.Text.{line};
ghost use Rattle.fault_text.specs.Words.{fault_words};
ghost use Rattle.image_examine.specs.Text.{found_status, found_text};

use examine::{ExamineFault, examine_text};
use fault_text::push_fault;
use image_outside::Status;
use imsm_buffer::MpbBuf;
use imsm_text::push_line;
use mpb_store::{Found, StoreFault};
use std::alloc::{AllocError, Global};

/// Appends the line of why a block isn't the disk's.
fn push_torn(out: &mut Vec<u8>, fault: StoreFault) -> Result<(), AllocError>
    ensures { OnOk result (out.new.items ≡ out.old.items ++ line (codes "torn") (fault_words fault)) }
{
    out.extend_from_slice(b"torn")?;
    push_fault(out, fault)?;
    out.push(b'\n')?;
    Ok(())
}

/// The line of why a block isn't the disk's.
fn fault_text(alloc: Global, fault: StoreFault) -> Result<Vec<u8>, AllocError>
    ensures { IfOk result (λ text. text.items ≡ line (codes "torn") (fault_words fault)) }
{
    let mut text = Vec::new(alloc);
    push_torn(&mut text, fault)?;
    Ok(text)
}

/// A line of one word.
fn word_line(alloc: Global, word: &[u8]) -> Result<Vec<u8>, AllocError>
    ensures { IfOk result (λ text. text.items ≡ line word.now []) }
{
    let mut text = Vec::new(alloc);
    push_line(&mut text, word, &[])?;
    Ok(text)
}

/// The text of what is found, where the block is this one if one is.
pub(crate) fn found_text(
    alloc: Global,
    found: Found,
    block: &MpbBuf,
) -> Result<Vec<u8>, ExamineFault>
    ensures { IfOk result (λ text. text.items ≡ found_text found block.now.bytes) }
{
    match found {
        Found::Whole => examine_text(alloc, &block.parts()),
        Found::Blank => word_line(alloc, b"blank").map_err(|_| ExamineFault::Memory),
        Found::Torn(fault) => fault_text(alloc, fault).map_err(|_| ExamineFault::Memory),
        Found::Unread => word_line(alloc, b"unread").map_err(|_| ExamineFault::Memory),
    }
}

/// The status with which what is found is printed.
pub(crate) fn found_status(found: Found) -> Status
    ensures { result.0 ≡ found_status found }
{
    match found {
        Found::Whole => Status::DONE,
        _ => Status::REFUSED,
    }
}
