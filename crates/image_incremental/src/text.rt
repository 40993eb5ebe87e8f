//! The text of disks that arrive one after the other.
ghost use Rattle.std.specs.Prelude.{◌≡◌, ◌<◌, ◌≤◌, ◌+◌, ◌++◌, IfOk, OnOk, length, take};
ghost use Rattle.std.specs.List.{flat_map};
ghost use Rattle.image_incremental.specs.Lines.{all_lines, arrival_lines, arrive_line, late_line};
ghost use Rattle.verdict_text.specs.Lines.{verdict_lines};

use container::Verdict;
use imsm_text::{Word, push_line};
use std::alloc::{AllocError, Global};
use units::Serial;
use verdict_text::verdict_text;

/// Appends the line of a disk that arrives, and those of the verdict on it and the disks before it.
fn push_arrival(
    alloc: Global,
    out: &mut Vec<u8>,
    serials: &[Serial],
    k: usize,
    verdict: &Verdict,
) -> Result<(), AllocError>
    requires { k < length serials.now }
    ensures { OnOk result (out.new.items ≡ out.old.items
        ++ (arrive_line serials.now k ++ verdict_lines serials.now (take (k + 1) serials.now) verdict.now)) }
{
    let lines = verdict_text(alloc, serials, &serials[..k + 1], verdict)?;
    push_line(out, b"arrive", &[Word::Name(&serials[k].0)])?;
    out.extend_from_slice(lines.as_slice())
}

/// Appends the lines of disks that arrive and of the verdicts on them, from the first on.
fn push_arrivals(
    alloc: Global,
    out: &mut Vec<u8>,
    serials: &[Serial],
    verdicts: &[Verdict],
) -> Result<(), AllocError>
    requires { length verdicts.now ≤ length serials.now }
    ensures { OnOk result (out.new.items ≡ out.old.items ++ arrival_lines serials.now 0 verdicts.now) }
{
    for k in 0..verdicts.len() {
        push_arrival(alloc, out, serials, k, &verdicts[k])?;
    }
    Ok(())
}

/// Appends the line of a disk that comes too late.
fn push_late(out: &mut Vec<u8>, serial: &Serial) -> Result<(), AllocError>
    ensures { OnOk result (out.new.items ≡ out.old.items ++ late_line serial.now) }
{
    push_line(out, b"late", &[Word::Name(&serial.0)])
}

/// Appends a line for each disk that comes too late.
fn push_all_late(out: &mut Vec<u8>, serials: &[Serial]) -> Result<(), AllocError>
    ensures { OnOk result (out.new.items ≡ out.old.items ++ flat_map late_line serials.now) }
{
    for serial in serials {
        push_late(out, serial)?;
    }
    Ok(())
}

/// The lines of disks that arrive, by all their serials and the verdicts on the first of them. Those behind come too
/// late.
pub(crate) fn arrivals_text(
    alloc: Global,
    serials: &[Serial],
    verdicts: &[Verdict],
) -> Result<Vec<u8>, AllocError>
    requires { length verdicts.now ≤ length serials.now }
    ensures { IfOk result (λ text. text.items ≡ all_lines serials.now verdicts.now) }
{
    let mut text = Vec::new(alloc);
    push_arrivals(alloc, &mut text, serials, verdicts)?;
    push_all_late(&mut text, &serials[verdicts.len()..])?;
    Ok(text)
}
