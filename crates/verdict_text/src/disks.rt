//! The lines of disks.
ghost use Rattle.std.specs.Prelude.{◌≡◌, ◌≤◌, ◌++◌, OnOk, length};
ghost use Rattle.std.specs.List.{flat_map};
ghost use Rattle.imsm_text.specs.Text.{spaced};
ghost use Rattle.verdict_text.specs.Lines.{disk_line, disk_lines, role_words};

use container::DiskRole;
use fault_text::push_fault;
use imsm_text::{Word, push_words};
use std::alloc::AllocError;
use units::Serial;

/// Appends the words of a role.
fn push_role(out: &mut Vec<u8>, role: DiskRole) -> Result<(), AllocError>
    ensures { OnOk result (out.new.items ≡ out.old.items ++ flat_map spaced (role_words role)) }
{
    match role {
        DiskRole::Member(_) => push_words(out, &[Word::Plain(b"member")]),
        DiskRole::Failed(_) => push_words(out, &[Word::Plain(b"failed")]),
        DiskRole::Spare => push_words(out, &[Word::Plain(b"spare")]),
        DiskRole::Stranger => push_words(out, &[Word::Plain(b"stranger")]),
        DiskRole::Blank => push_words(out, &[Word::Plain(b"blank")]),
        DiskRole::Torn(fault) => {
            push_words(out, &[Word::Plain(b"torn")])?;
            push_fault(out, fault)
        }
        DiskRole::Unread => push_words(out, &[Word::Plain(b"unread")]),
    }
}

/// Appends the line of a disk.
fn push_disk(out: &mut Vec<u8>, serial: &Serial, role: DiskRole) -> Result<(), AllocError>
    ensures { OnOk result (out.new.items ≡ out.old.items ++ disk_line serial.now role) }
{
    out.extend_from_slice(b"disk")?;
    push_words(out, &[Word::Name(&serial.0)])?;
    push_role(out, role)?;
    out.push(b'\n')?;
    Ok(())
}

/// Appends a line for each disk that is there.
pub(crate) fn push_disks(
    out: &mut Vec<u8>,
    present: &[Serial],
    roles: &[DiskRole],
) -> Result<(), AllocError>
    ensures { OnOk result (out.new.items ≡ out.old.items ++ disk_lines present.now roles.now) }
{
    for k in 0..present.len().min(roles.len()) {
        push_disk(out, &present[k], roles[k])?;
    }
    Ok(())
}
