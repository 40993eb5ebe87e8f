//! The words of a fault.
ghost use Rattle.std.specs.Prelude.{◌≡◌, ◌++◌, OnOk};
ghost use Rattle.std.specs.List.{flat_map};
ghost use Rattle.imsm_text.specs.Text.{spaced};
ghost use Rattle.fault_text.specs.Words.{block_words, fault_words};

use imsm_codec::MpbFault;
use imsm_text::{Word, push_words};
use mpb_store::StoreFault;
use std::alloc::AllocError;

/// Appends the words of what is wrong with a block.
fn push_block_fault(out: &mut Vec<u8>, fault: MpbFault) -> Result<(), AllocError>
    ensures { OnOk result (out.new.items ≡ out.old.items ++ flat_map spaced (block_words fault)) }
{
    use Word::{Hex, Number, Plain};
    match fault {
        MpbFault::Short(given) => push_words(out, &[Plain(b"short"), Number(given as u64)]),
        MpbFault::Signature => push_words(out, &[Plain(b"signature")]),
        MpbFault::Size(size) => push_words(out, &[Plain(b"size"), Number(u64::from(size))]),
        MpbFault::Cut(size, given) => push_words(
            out,
            &[Plain(b"cut"), Number(u64::from(size)), Number(given as u64)],
        ),
        MpbFault::Checksum(kept, summed) => {
            push_words(out, &[Plain(b"checksum"), Hex(kept), Hex(summed)])
        }
        MpbFault::Counts(disks, volumes) => push_words(
            out,
            &[
                Plain(b"counts"),
                Number(u64::from(disks)),
                Number(u64::from(volumes)),
            ],
        ),
        MpbFault::Serials(i, j) => push_words(
            out,
            &[
                Plain(b"serials"),
                Number(u64::from(i)),
                Number(u64::from(j)),
            ],
        ),
        MpbFault::Volume(i) => push_words(out, &[Plain(b"volume"), Number(u64::from(i))]),
        MpbFault::BadBlocks(size) => {
            push_words(out, &[Plain(b"badblocks"), Number(u64::from(size))])
        }
    }
}

/// Appends the words of why a block isn't the disk's, with a space before each.
pub fn push_fault(out: &mut Vec<u8>, fault: StoreFault) -> Result<(), AllocError>
    ensures { OnOk result (out.new.items ≡ out.old.items ++ flat_map spaced (fault_words fault)) }
{
    match fault {
        StoreFault::Mpb(fault) => push_block_fault(out, fault),
        StoreFault::NoOwn => push_words(out, &[Word::Plain(b"noown")]),
        StoreFault::Small(named, has) => push_words(
            out,
            &[
                Word::Plain(b"small"),
                Word::Number(named),
                Word::Number(has),
            ],
        ),
    }
}
