//! The text of a verdict.
ghost use Rattle.std.specs.Prelude.{◌≡◌, ◌++◌, IfOk, OnOk};
ghost use Rattle.std.specs.List.{flat_map};
ghost use Rattle.verdict_text.specs.Lines.{family_line, opening_lines, verdict_lines, waiting_line};

use crate::disks::push_disks;
use crate::refusals::{push_all_waiting, push_family, push_number_refused, push_refused};
use crate::volumes::push_volumes;
use container::{Missing, Opening, Verdict};
use std::alloc::{AllocError, Global};
use units::Serial;

/// Appends the lines of a container that waits for disks.
fn push_waiting(
    out: &mut Vec<u8>,
    family: u32,
    generation: u32,
    list: &[Missing],
) -> Result<(), AllocError>
    ensures { OnOk result (out.new.items
        ≡ out.old.items ++ (family_line family generation ++ flat_map waiting_line list.now)) }
{
    push_family(out, family, generation)?;
    push_all_waiting(out, list)
}

/// Appends the lines of a container that is opened.
fn push_opening(out: &mut Vec<u8>, present: &[Serial], opening: &Opening) -> Result<(), AllocError>
    ensures { OnOk result (out.new.items ≡ out.old.items ++ opening_lines present.now opening.now) }
{
    push_family(out, opening.family, opening.generation)?;
    push_volumes(out, opening.volumes.as_slice())?;
    push_disks(out, present, opening.disks.as_slice())
}

/// Appends the lines of a verdict.
fn push_verdict(
    out: &mut Vec<u8>,
    serials: &[Serial],
    present: &[Serial],
    verdict: &Verdict,
) -> Result<(), AllocError>
    ensures { OnOk result (out.new.items ≡ out.old.items ++ verdict_lines serials.now present.now verdict.now) }
{
    match verdict {
        Verdict::Refused(fault) => push_refused(out, serials, *fault),
        Verdict::Large {
            family,
            generation,
            size,
        } => {
            push_family(out, *family, *generation)?;
            push_number_refused(out, b"large", u64::from(*size))
        }
        Verdict::GenerationEnd { family, generation } => {
            push_family(out, *family, *generation)?;
            push_number_refused(out, b"generation", u64::from(*generation))
        }
        Verdict::Waiting {
            family,
            generation,
            list,
        } => push_waiting(out, *family, *generation, list.as_slice()),
        Verdict::Ready(opening) => push_opening(out, present, opening),
    }
}

/// The lines of a verdict on the disks of which these serials are present, in the order of their numbers, of all disks,
/// which have those.
pub fn verdict_text(
    alloc: Global,
    serials: &[Serial],
    present: &[Serial],
    verdict: &Verdict,
) -> Result<Vec<u8>, AllocError>
    ensures { IfOk result (λ text. text.items ≡ verdict_lines serials.now present.now verdict.now) }
{
    let mut text = Vec::new(alloc);
    push_verdict(&mut text, serials, present, verdict)?;
    Ok(text)
}
