//! What the turns of a run take as given.
ghost use Rattle.std.specs.Prelude.{◌≡◌, ◌+◌, ◌≤◌, ◌++◌, length, take, drop, is_some};
ghost use Rattle.byteorder.specs.Endian.{big_bytes};
ghost use Rattle.array_model.specs.Script.{kind_at, sector_of};
ghost use Rattle.stage_machine.specs.Jobs.{row_at, is_write, placement_at, value_at, value_in, sector_in};
ghost use Rattle.control_state.specs.Seen.{plan_setting};

use array_model::{Op, OpKind};
use arrayvec::ArrayVec;
use byteorder::{BigEndian, ByteOrder};
use units::{DiskNo, MAX_DISKS, Sector};

/// The operations of a script, and how one volume of two copies lies: the disks that a round writes to, in the order of
/// their numbers; the disks of the volume in the order of its slots; the first sector of the volume on each, and its
/// size in sectors.
#[derive(Drop)]
pub struct Plan {
    pub ops: Vec<Op>,
    pub targets: ArrayVec<DiskNo, MAX_DISKS>,
    pub members: ArrayVec<DiskNo, MAX_DISKS>,
    pub pba: u64,
    pub size: u64,
}

/// The sector of its volume that an operation names.
fn sector_named(kind: Option<OpKind>) -> u64
    ensures { result ≡ sector_in kind }
{
    match kind {
        Some(OpKind::Write(_, sector, _)) | Some(OpKind::Read(_, sector)) => sector,
        Some(OpKind::Whole(_)) | None => 0,
    }
}

/// The number that a write brings.
fn value_named(kind: Option<OpKind>) -> u64
    ensures { sector_of result ≡ value_in kind }
{
    match kind {
        Some(OpKind::Write(_, _, value)) => value,
        Some(OpKind::Read(_, _)) | Some(OpKind::Whole(_)) | None => 0,
    }
}

/// Puts eight bytes, the highest first, from a place on.
fn put_eight(bytes: &mut [u8], at: usize, value: u64)
    requires { at + 8 ≤ length bytes.old }
    ensures { bytes.new ≡ take at bytes.old ++ (big_bytes 8 value ++ drop (at + 8) bytes.old) }
{
    BigEndian::write_u64(&mut bytes[at..at + 8], value);
}

/// The sector that a write brings: its eight bytes 64 times over.
fn sector_with(value: u64) -> Sector
    ensures { result ≡ sector_of value }
{
    let mut bytes = [0; 512];
    for i in 0..64 {
        put_eight(&mut bytes, 8 * i, value);
    }
    Sector(bytes)
}

impl Plan {
    /// What an operation asks for.
    pub fn kind(&self, op: u64) -> Option<OpKind>
        ensures { result ≡ kind_at self.now.ops.items op }
    {
        self.ops.get(op as usize).map(|op| op.kind)
    }

    /// Whether an operation is a write.
    pub fn is_write(&self, op: u64) -> bool
        ensures { result ≡ is_write (plan_setting self.now) op }
    {
        matches!(self.kind(op), Some(OpKind::Write(_, _, _)))
    }

    /// The row that an operation reads or writes, and 0 where it names none.
    pub fn row(&self, op: u64) -> u64
        ensures { result ≡ row_at (plan_setting self.now) op }
    {
        let sector = sector_named(self.kind(op));
        if sector < self.size { sector } else { 0 }
    }

    /// Whether an operation names a sector of the volume.
    pub fn is_placed(&self, op: u64) -> bool
        ensures { result ≡ is_some (placement_at (plan_setting self.now) op) }
    {
        sector_named(self.kind(op)) < self.size
    }

    /// The sector that an operation writes.
    pub fn value(&self, op: u64) -> Sector
        ensures { result ≡ value_at (plan_setting self.now) op }
    {
        sector_with(value_named(self.kind(op)))
    }
}
