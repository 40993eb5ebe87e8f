//! The lines of volumes.
ghost use Rattle.std.specs.Prelude.{◌≡◌, ◌∷◌, ◌++◌, codes, OnOk};
ghost use Rattle.std.specs.List.{flat_map};
ghost use Rattle.imsm_text.specs.Text.{spaced};
ghost use Rattle.verdict_text.specs.Lines.{pass_words, volume_fault_words, volume_line, volume_lines, volume_words};

use container::VolumeVerdict;
use imsm_text::{Word, push_words};
use imsm_view::VolumeFault;
use std::alloc::AllocError;

/// Appends the words of why a volume isn't supported.
fn push_volume_fault(out: &mut Vec<u8>, fault: VolumeFault) -> Result<(), AllocError>
    ensures { OnOk result (out.new.items ≡ out.old.items ++ flat_map spaced (volume_fault_words fault)) }
{
    use Word::{Number, Plain};
    match fault {
        VolumeFault::Level(byte, members) => push_words(
            out,
            &[
                Plain(b"level"),
                Number(u64::from(byte)),
                Number(u64::from(members)),
            ],
        ),
        VolumeFault::Policy(byte) => push_words(out, &[Plain(b"policy"), Number(u64::from(byte))]),
        VolumeFault::Migration(kind) => {
            push_words(out, &[Plain(b"migration"), Number(u64::from(kind))])
        }
        VolumeFault::DiskIndex(slot) => {
            push_words(out, &[Plain(b"index"), Number(u64::from(slot.0))])
        }
        VolumeFault::Geometry => push_words(out, &[Plain(b"geometry")]),
        VolumeFault::Overlap(other) => {
            push_words(out, &[Plain(b"overlap"), Number(u64::from(other.0))])
        }
    }
}

/// Appends the words of a volume that isn't supported.
fn push_unsupported(out: &mut Vec<u8>, fault: VolumeFault) -> Result<(), AllocError>
    ensures { OnOk result (out.new.items
        ≡ out.old.items ++ flat_map spaced (codes "unsupported" ∷ volume_fault_words fault)) }
{
    push_words(out, &[Word::Plain(b"unsupported")])?;
    push_volume_fault(out, fault)
}

/// Appends the words of the row that a pass starts at, where one is wanted.
fn push_pass(out: &mut Vec<u8>, pass: Option<u64>) -> Result<(), AllocError>
    ensures { OnOk result (out.new.items ≡ out.old.items ++ flat_map spaced (pass_words pass)) }
{
    match pass {
        None => Ok(()),
        Some(row) => push_words(out, &[Word::Plain(b"pass"), Word::Number(row)]),
    }
}

/// Appends the words of a verdict.
fn push_volume_words(out: &mut Vec<u8>, verdict: VolumeVerdict) -> Result<(), AllocError>
    ensures { OnOk result (out.new.items ≡ out.old.items ++ flat_map spaced (volume_words verdict)) }
{
    match verdict {
        VolumeVerdict::Unsupported(fault) => push_unsupported(out, fault),
        VolumeVerdict::Broken => push_words(out, &[Word::Plain(b"broken")]),
        VolumeVerdict::Unfinished => push_words(out, &[Word::Plain(b"unfinished")]),
        VolumeVerdict::Degraded(pass) => {
            push_words(out, &[Word::Plain(b"degraded")])?;
            push_pass(out, pass)
        }
        VolumeVerdict::Started(pass) => {
            push_words(out, &[Word::Plain(b"started")])?;
            push_pass(out, pass)
        }
    }
}

/// Appends the line of a volume.
fn push_volume(out: &mut Vec<u8>, v: usize, verdict: VolumeVerdict) -> Result<(), AllocError>
    ensures { OnOk result (out.new.items ≡ out.old.items ++ volume_line v verdict) }
{
    out.extend_from_slice(b"volume")?;
    push_words(out, &[Word::Number(v as u64)])?;
    push_volume_words(out, verdict)?;
    out.push(b'\n')?;
    Ok(())
}

/// Appends a line for each volume.
pub(crate) fn push_volumes(out: &mut Vec<u8>, list: &[VolumeVerdict]) -> Result<(), AllocError>
    ensures { OnOk result (out.new.items ≡ out.old.items ++ volume_lines list.now) }
{
    for v in 0..list.len() {
        push_volume(out, v, list[v])?;
    }
    Ok(())
}
