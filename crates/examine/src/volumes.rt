//! The lines of volumes.
ghost use Rattle.std.specs.Prelude.{◌≡◌, ◌++◌, ◌<◌, OnOk};
ghost use Rattle.imsm_base.specs.Layout.{volume_count_of};
ghost use Rattle.imsm_codec.specs.Mpb.{block_of, volume_at};
ghost use Rattle.examine.specs.Lines.{numbered, pass_lines, volume_head, volume_lines};

use crate::maps::push_maps;
use imsm_codec::MpbRef;
use imsm_text::{Word, push_line};
use std::alloc::AllocError;
use units::VolNo;

/// Appends the line of a volume's pass, where one is open.
fn push_pass(out: &mut Vec<u8>, mpb: &MpbRef<'_>, v: VolNo) -> Result<(), AllocError>
    requires { v.0 < volume_count_of (block_of mpb.now) }
    ensures { OnOk result (out.new.items ≡ out.old.items ++ pass_lines (volume_at v.0 (block_of mpb.now))) }
{
    if mpb.migr_state(v) == 0 {
        return Ok(());
    }
    let words = [
        Word::Number(u64::from(mpb.migr_type(v))),
        Word::Number(mpb.unit(v)),
        Word::Hex(mpb.checkpoint(v)),
    ];
    push_line(out, b"pass", &words)
}

/// Appends the lines of a volume but for those of its maps.
fn push_head(out: &mut Vec<u8>, mpb: &MpbRef<'_>, v: VolNo) -> Result<(), AllocError>
    requires { v.0 < volume_count_of (block_of mpb.now) }
    ensures { OnOk result (out.new.items ≡ out.old.items ++ volume_head v.0 (volume_at v.0 (block_of mpb.now))) }
{
    let name = mpb.vol_name(v);
    let words = [
        Word::Number(u64::from(v.0)),
        Word::Name(&name),
        Word::Number(mpb.vol_size(v)),
    ];
    push_line(out, b"volume", &words)?;
    push_line(out, b"dirty", &[Word::Number(u64::from(mpb.dirty(v)))])?;
    push_pass(out, mpb, v)
}

/// Appends the lines of a volume and of its maps.
fn push_volume(out: &mut Vec<u8>, mpb: &MpbRef<'_>, v: VolNo) -> Result<(), AllocError>
    requires { v.0 < volume_count_of (block_of mpb.now) }
    ensures { OnOk result (out.new.items ≡ out.old.items ++ volume_lines v.0 (volume_at v.0 (block_of mpb.now))) }
{
    push_head(out, mpb, v)?;
    push_maps(out, mpb, v)
}

/// Appends the lines of all volumes.
pub(crate) fn push_volumes(out: &mut Vec<u8>, mpb: &MpbRef<'_>) -> Result<(), AllocError>
    ensures { OnOk result (out.new.items ≡ out.old.items ++ numbered volume_lines (block_of mpb.now).volumes) }
{
    for v in 0..mpb.volumes() {
        push_volume(out, mpb, VolNo(v))?;
    }
    Ok(())
}
