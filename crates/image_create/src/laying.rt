//! Zeros are written to every disk, and then the block.
ghost use Rattle.std.specs.Prelude.{◌≡◌, ◌+◌, ◌<◌, ◌≤◌, ◌∷◌, [], ℕ, All, IfErr, OnErr, OnOk, length, slice_index};
ghost use Rattle.units.specs.declared.bounds.TheConstants.{HEADER_BYTES, MAX_BLOCK_BYTES, MAX_WRITE_SECTORS as MOST, METADATA_SECTORS};
ghost use Rattle.member_bank.specs.Faults.{Rose};
ghost use Rattle.member_bank.specs.Told.{Keeps, LogsAll};
ghost use Rattle.mpb_store.specs.Sectors.{block_sectors};
ghost use Rattle.image_outside.specs.Told.{bank_told};
ghost use Rattle.image_create.specs.Calls.{block_calls, calls_on, create_calls, row_calls, step_calls, sync_call, write_call, zero_calls, zero_sectors};
ghost use Rattle.image_create.specs.Laid.{LaysDown};
ghost use Rattle.image_create.specs.Steps.{IsPlaced};
ghost use Rattle.image_create.specs.Stops.{KeepsBank, StopsAt};

use imsm_buffer::MpbBuf;
use member_bank::{Bank, Failed};
use mpb_store::{Step, WriteSteps, sectors_of};
use units::{DiskNo, MAX_WRITE_SECTORS, SECTOR_BYTES, Sector};

const ZERO: Sector = Sector([0; SECTOR_BYTES]);

/// As many zero sectors as one write takes.
fn zeros() -> [Sector; MAX_WRITE_SECTORS]
    ensures { result ≡ zero_sectors MOST }
{
    [ZERO; MAX_WRITE_SECTORS]
}

/// Writes 1 to 16 sectors from a place on.
fn write<B: Bank>(bank: &mut B, d: DiskNo, place: u64, sectors: &[Sector]) -> Result<(), Failed>
    requires disk { d.0 < length (B.sizes bank.old) }
    requires place { place + length sectors.now ≤ slice_index (B.sizes bank.old) d.0 }
    requires some { 0 < length sectors.now }
    requires few { length sectors.now ≤ MOST }
    ensures ok { OnOk result (LogsAll (B.log bank.old) (B.log bank.new) (write_call d.0 place sectors.now ∷ [])) }
    ensures err { OnErr result (StopsAt (B.log bank.old) (B.log bank.new) (write_call d.0 place sectors.now ∷ []) d.0) }
    ensures cause { OnErr result (Rose (B.faults_of bank.old d.0) (B.faults_of bank.new d.0)) }
    ensures kept { KeepsBank (bank_told B.Bank bank.old) (bank_told B.Bank bank.new) }
{
    bank.write(d, place, sectors)
}

/// Makes what stands on a disk last.
fn sync<B: Bank>(bank: &mut B, d: DiskNo) -> Result<(), Failed>
    requires { d.0 < length (B.sizes bank.old) }
    ensures ok { OnOk result (LogsAll (B.log bank.old) (B.log bank.new) (sync_call d.0 ∷ [])) }
    ensures err { OnErr result (StopsAt (B.log bank.old) (B.log bank.new) (sync_call d.0 ∷ []) d.0) }
    ensures cause { OnErr result (Rose (B.faults_of bank.old d.0) (B.faults_of bank.new d.0)) }
    ensures kept { KeepsBank (bank_told B.Bank bank.old) (bank_told B.Bank bank.new) }
{
    bank.sync(d)
}

/// Writes zeros over the first sectors of a disk, 16 at a time.
fn zero_rows<B: Bank>(bank: &mut B, d: DiskNo, rows: u64) -> Result<(), Failed>
    requires disk { d.0 < length (B.sizes bank.old) }
    requires room { rows ≤ slice_index (B.sizes bank.old) d.0 }
    ensures ok { OnOk result (LogsAll (B.log bank.old) (B.log bank.new) (row_calls d.0 rows)) }
    ensures err { OnErr result (StopsAt (B.log bank.old) (B.log bank.new) (row_calls d.0 rows) d.0) }
    ensures cause { OnErr result (Rose (B.faults_of bank.old d.0) (B.faults_of bank.new d.0)) }
    ensures kept { KeepsBank (bank_told B.Bank bank.old) (bank_told B.Bank bank.new) }
{
    let most = MAX_WRITE_SECTORS as u64;
    let zeros = zeros();
    for piece in 0..rows.div_ceil(most) {
        let place = most * piece;
        let count = most.min(rows - place);
        write(bank, d, place, &zeros[..count as usize])?;
    }
    Ok(())
}

/// Writes zeros over the first sectors of a disk and where its anchor is to stand, and syncs it.
fn zero_disk<B: Bank>(bank: &mut B, d: DiskNo, rows: u64) -> Result<(), Failed>
    requires disk { d.0 < length (B.sizes bank.old) }
    requires room { rows + METADATA_SECTORS ≤ slice_index (B.sizes bank.old) d.0 }
    ensures ok { OnOk result (LogsAll (B.log bank.old) (B.log bank.new)
        (zero_calls rows d.0 (slice_index (B.sizes bank.old) d.0))) }
    ensures err { OnErr result (StopsAt (B.log bank.old) (B.log bank.new)
        (zero_calls rows d.0 (slice_index (B.sizes bank.old) d.0)) d.0) }
    ensures cause { OnErr result (Rose (B.faults_of bank.old d.0) (B.faults_of bank.new d.0)) }
    ensures kept { KeepsBank (bank_told B.Bank bank.old) (bank_told B.Bank bank.new) }
{
    zero_rows(bank, d, rows)?;
    let anchor = bank.sectors(d) - 2;
    write(bank, d, anchor, &zeros()[..1])?;
    sync(bank, d)
}

/// Does a step of writing a block, whose sectors these are.
fn take_step<B: Bank>(bank: &mut B, d: DiskNo, sectors: &[Sector], step: Step) -> Result<(), Failed>
    requires disk { d.0 < length (B.sizes bank.old) }
    requires all { length sectors.now ≡ MOST }
    requires placed { IsPlaced (slice_index (B.sizes bank.old) d.0) step }
    ensures ok { OnOk result (LogsAll (B.log bank.old) (B.log bank.new) (step_calls d.0 sectors.now step)) }
    ensures err { OnErr result (StopsAt (B.log bank.old) (B.log bank.new) (step_calls d.0 sectors.now step) d.0) }
    ensures cause { OnErr result (Rose (B.faults_of bank.old d.0) (B.faults_of bank.new d.0)) }
    ensures kept { KeepsBank (bank_told B.Bank bank.old) (bank_told B.Bank bank.new) }
{
    match step {
        Step::Extended(place, count) => {
            write(bank, d, place, &sectors[1..1 + usize::from(count)])
        }
        Step::Anchor(place) => write(bank, d, place, &sectors[..1]),
        Step::Sync => sync(bank, d),
        Step::Over => Ok(()),
    }
}

/// Writes a block of so many bytes to a disk, and syncs it.
fn write_block<B: Bank>(
    bank: &mut B,
    d: DiskNo,
    sectors: &[Sector],
    size: u16,
) -> Result<(), Failed>
    requires disk { d.0 < length (B.sizes bank.old) }
    requires room { METADATA_SECTORS ≤ slice_index (B.sizes bank.old) d.0 }
    requires all { length sectors.now ≡ MOST }
    requires least { HEADER_BYTES ≤ size }
    requires most { size ≤ MAX_BLOCK_BYTES }
    ensures ok { OnOk result (LogsAll (B.log bank.old) (B.log bank.new)
        (block_calls sectors.now size d.0 (slice_index (B.sizes bank.old) d.0))) }
    ensures err { OnErr result (StopsAt (B.log bank.old) (B.log bank.new)
        (block_calls sectors.now size d.0 (slice_index (B.sizes bank.old) d.0)) d.0) }
    ensures cause { OnErr result (Rose (B.faults_of bank.old d.0) (B.faults_of bank.new d.0)) }
    ensures kept { KeepsBank (bank_told B.Bank bank.old) (bank_told B.Bank bank.new) }
{
    let mut steps = WriteSteps::new(size, bank.sectors(d));
    loop {
        match steps.next() {
            Step::Over => return Ok(()),
            step => take_step(bank, d, sectors, step)?,
        }
    }
}

/// Writes zeros to all disks, in the order of their numbers. A failed call names its disk.
fn zero_disks<B: Bank>(bank: &mut B, rows: u64) -> Result<(), DiskNo>
    requires room { All (λ n. rows + METADATA_SECTORS ≤ n) (B.sizes bank.old) }
    ensures ok { OnOk result (LogsAll (B.log bank.old) (B.log bank.new)
        (calls_on (zero_calls rows) (B.sizes bank.old) (length (B.sizes bank.old)))) }
    ensures err { IfErr result (λ d. StopsAt (B.log bank.old) (B.log bank.new)
        (calls_on (zero_calls rows) (B.sizes bank.old) (length (B.sizes bank.old))) d.0) }
    ensures member { IfErr result (λ d. d.0 < length (B.sizes bank.old)) }
    ensures cause { IfErr result (λ d. Rose (B.faults_of bank.old d.0) (B.faults_of bank.new d.0)) }
    ensures kept { KeepsBank (bank_told B.Bank bank.old) (bank_told B.Bank bank.new) }
{
    for d in 0..bank.disks() {
        let disk = DiskNo(d);
        if let Err(Failed) = zero_disk(bank, disk, rows) {
            return Err(disk);
        }
    }
    Ok(())
}

/// Writes a block of so many bytes to all disks, in the order of their numbers. A failed call names its disk.
fn write_blocks<B: Bank>(bank: &mut B, sectors: &[Sector], size: u16) -> Result<(), DiskNo>
    requires room { All (λ n. METADATA_SECTORS ≤ n) (B.sizes bank.old) }
    requires all { length sectors.now ≡ MOST }
    requires least { HEADER_BYTES ≤ size }
    requires most { size ≤ MAX_BLOCK_BYTES }
    ensures ok { OnOk result (LogsAll (B.log bank.old) (B.log bank.new)
        (calls_on (block_calls sectors.now size) (B.sizes bank.old) (length (B.sizes bank.old)))) }
    ensures err { IfErr result (λ d. StopsAt (B.log bank.old) (B.log bank.new)
        (calls_on (block_calls sectors.now size) (B.sizes bank.old) (length (B.sizes bank.old))) d.0) }
    ensures member { IfErr result (λ d. d.0 < length (B.sizes bank.old)) }
    ensures cause { IfErr result (λ d. Rose (B.faults_of bank.old d.0) (B.faults_of bank.new d.0)) }
    ensures kept { KeepsBank (bank_told B.Bank bank.old) (bank_told B.Bank bank.new) }
{
    for d in 0..bank.disks() {
        let disk = DiskNo(d);
        if let Err(Failed) = write_block(bank, disk, sectors, size) {
            return Err(disk);
        }
    }
    Ok(())
}

/// How many bytes a block has.
fn size_of(block: &MpbBuf) -> u16
    ensures size { result ≡ length block.now.bytes }
    ensures least { HEADER_BYTES ≤ result }
    ensures most { result ≤ MAX_BLOCK_BYTES }
{
    block.parts().bytes().len() as u16
}

/// The sectors of a block: the anchor's, behind it the extended ones, then sectors of zeros.
fn block_sectors_of(block: &MpbBuf) -> [Sector; MAX_WRITE_SECTORS]
    ensures sectors { result ≡ block_sectors block.now.bytes }
{
    let mut sectors = [ZERO; MAX_WRITE_SECTORS];
    sectors_of(block, &mut sectors);
    sectors
}

/// Lays a block down on all disks of a bank, whose rows are sectors 0 to `rows`: on every disk zeros at the rows and
/// where the anchor is to stand, and only then the block on every disk. Each disk is synced behind its zeros, and
/// behind its block. After the first call that fails no other is made, and its disk is the error. Takes no memory.
pub(crate) fn lay_down<B: Bank>(bank: &mut B, rows: u64, block: &MpbBuf) -> Result<(), DiskNo>
    requires { All (λ n. rows + METADATA_SECTORS ≤ n) (B.sizes bank.old) }
    ensures ok { OnOk result (LogsAll (B.log bank.old) (B.log bank.new)
        (create_calls (B.sizes bank.old) rows block.now.bytes)) }
    ensures err { IfErr result (λ d. StopsAt (B.log bank.old) (B.log bank.new)
        (create_calls (B.sizes bank.old) rows block.now.bytes) d.0) }
    ensures member { IfErr result (λ d. d.0 < length (B.sizes bank.old)) }
    ensures cause { IfErr result (λ d. Rose (B.faults_of bank.old d.0) (B.faults_of bank.new d.0)) }
    // What stands on the disks, where the bank tells it.
    ensures laid { OnOk result (LaysDown (B.sizes bank.old) rows block.now.bytes
        (B.opening bank.new) (B.log bank.old) (B.log bank.new)) }
    ensures later { (k : ℕ) → B.faults_of bank.old k ≤ B.faults_of bank.new k }
    ensures opening { Keeps (B.opening bank.old) (B.opening bank.new) }
    ensures sizes { B.sizes bank.new ≡ B.sizes bank.old }
    ensures serials { B.serials bank.new ≡ B.serials bank.old }
{
    zero_disks(bank, rows)?;
    write_blocks(bank, &block_sectors_of(block), size_of(block))
}
