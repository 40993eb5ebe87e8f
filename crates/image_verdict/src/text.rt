//! The lines of a report.
ghost use Rattle.std.specs.Prelude.{◌≡◌, ◌++◌, IfOk, OnOk};
ghost use Rattle.std.specs.List.{flat_map};
ghost use Rattle.image_verdict.specs.Text.{family_line, unbuilt_line, absent_line, member_line, started_text, waiting_text, report_text};

use crate::report::Report;
use imsm_text::{push_hex_number, push_name, push_number};
use std::alloc::{AllocError, Global};
use units::Serial;

fn push_family(out: &mut Vec<u8>, family: u32, generation: u32) -> Result<(), AllocError>
    ensures { OnOk result (out.new.items ≡ out.old.items ++ family_line family generation) }
{
    out.extend_from_slice(b"family ")?;
    push_hex_number(out, family)?;
    out.extend_from_slice(b" generation ")?;
    push_number(out, u64::from(generation))?;
    out.extend_from_slice(b"\n")?;
    Ok(())
}

fn push_unbuilt(out: &mut Vec<u8>, serial: &Serial) -> Result<(), AllocError>
    ensures { OnOk result (out.new.items ≡ out.old.items ++ unbuilt_line serial.now) }
{
    out.extend_from_slice(b"unbuilt ")?;
    push_name(out, &serial.0)?;
    out.extend_from_slice(b"\n")?;
    Ok(())
}

fn push_absent(out: &mut Vec<u8>, serial: &Serial) -> Result<(), AllocError>
    ensures { OnOk result (out.new.items ≡ out.old.items ++ absent_line serial.now) }
{
    out.extend_from_slice(b"waiting ")?;
    push_name(out, &serial.0)?;
    out.extend_from_slice(b" absent\n")?;
    Ok(())
}

fn push_member(out: &mut Vec<u8>, serial: &Serial) -> Result<(), AllocError>
    ensures { OnOk result (out.new.items ≡ out.old.items ++ member_line serial.now) }
{
    out.extend_from_slice(b"disk ")?;
    push_name(out, &serial.0)?;
    out.extend_from_slice(b" member\n")?;
    Ok(())
}

fn push_all_absent(out: &mut Vec<u8>, serials: &[Serial]) -> Result<(), AllocError>
    ensures { OnOk result (out.new.items ≡ out.old.items ++ flat_map absent_line serials.now) }
{
    for serial in serials {
        push_absent(out, serial)?;
    }
    Ok(())
}

fn push_all_members(out: &mut Vec<u8>, serials: &[Serial]) -> Result<(), AllocError>
    ensures { OnOk result (out.new.items ≡ out.old.items ++ flat_map member_line serials.now) }
{
    for serial in serials {
        push_member(out, serial)?;
    }
    Ok(())
}

fn push_started(
    out: &mut Vec<u8>,
    family: u32,
    generation: u32,
    present: &[Serial],
) -> Result<(), AllocError>
    ensures { OnOk result (out.new.items ≡ out.old.items ++ started_text family generation present.now) }
{
    push_family(out, family, generation)?;
    out.extend_from_slice(b"volume 0 started\n")?;
    push_all_members(out, present)?;
    Ok(())
}

fn push_waiting(
    out: &mut Vec<u8>,
    family: u32,
    generation: u32,
    missing: &[Serial],
) -> Result<(), AllocError>
    ensures { OnOk result (out.new.items ≡ out.old.items ++ waiting_text family generation missing.now) }
{
    push_family(out, family, generation)?;
    push_all_absent(out, missing)?;
    Ok(())
}

fn push_report(out: &mut Vec<u8>, report: &Report) -> Result<(), AllocError>
    ensures { OnOk result (out.new.items ≡ out.old.items ++ report_text report.now) }
{
    match report {
        Report::Unbuilt(serial) => push_unbuilt(out, serial),
        Report::Waiting {
            family,
            generation,
            missing,
        } => push_waiting(out, *family, *generation, missing.as_slice()),
        Report::Started {
            family,
            generation,
            present,
        } => push_started(out, *family, *generation, present.as_slice()),
    }
}

/// The lines of a report.
pub fn text_of(alloc: Global, report: &Report) -> Result<Vec<u8>, AllocError>
    ensures { IfOk result (λ text. text.items ≡ report_text report.now) }
{
    let mut out = Vec::new(alloc);
    push_report(&mut out, report)?;
    Ok(out)
}
