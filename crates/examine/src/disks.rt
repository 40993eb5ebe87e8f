//! The lines of disk records.
ghost use Rattle.std.specs.Prelude.{◌≡◌, ◌++◌, ◌<◌, OnOk};
ghost use Rattle.imsm_base.specs.Layout.{disk_count_of};
ghost use Rattle.imsm_codec.specs.Mpb.{block_of, disk_at};
ghost use Rattle.examine.specs.Lines.{numbered, disk_line};

use imsm_codec::MpbRef;
use imsm_text::{Word, push_line};
use std::alloc::AllocError;

/// Appends the line of the record of an index.
fn push_disk(out: &mut Vec<u8>, mpb: &MpbRef<'_>, i: u8) -> Result<(), AllocError>
    requires { i < disk_count_of (block_of mpb.now) }
    ensures { OnOk result (out.new.items ≡ out.old.items ++ disk_line i (disk_at i (block_of mpb.now))) }
{
    let serial = mpb.disk_serial(i);
    let words = [
        Word::Number(u64::from(i)),
        Word::Name(&serial.0),
        Word::Number(mpb.disk_blocks(i)),
        Word::Hex(mpb.disk_status(i)),
    ];
    push_line(out, b"disk", &words)
}

/// Appends the lines of all records.
pub(crate) fn push_disks(out: &mut Vec<u8>, mpb: &MpbRef<'_>) -> Result<(), AllocError>
    ensures { OnOk result (out.new.items ≡ out.old.items ++ numbered disk_line (block_of mpb.now).disks) }
{
    for i in 0..mpb.disks() {
        push_disk(out, mpb, i)?;
    }
    Ok(())
}
