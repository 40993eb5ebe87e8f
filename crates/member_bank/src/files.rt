//! A bank over real files. What stands in them is not told.
ghost use Rattle.std.specs.Prelude.{◌≡◌, ◌≢◌, ◌+◌, ◌*◌, ◌^◌, ◌≤◌, ◌<◌, ℕ, [], None, length, take, slice_index, is_ok, All, IsOk, IfOk, OnOk, OnErr};
ghost use Rattle.std.specs.Fs.{IsFile, file_type};
ghost use Rattle.member_bank.specs.Faults.{HasCause, faults_with};
ghost use Rattle.member_bank.specs.Files.{bytes_of, with_file};
ghost use Rattle.member_bank.specs.declared.files.FileBankFault.TheVariants.{Memory};

use crate::counts::answer;
use crate::{Bank, Failed};
use std::alloc::{AllocError, Global};
use std::fs::{File, Metadata};
use std::io;
use std::io::{ErrorKind, Seek, SeekFrom};
use std::marker::Model;
use std::os::unix::fs::{FileExt, FileTypeExt, MetadataExt};
use thiserror::Error;
use units::{DiskNo, MAX_DISKS, MAX_WRITE_SECTORS, SECTOR_BYTES, Sector, Serial};

/// Why a file couldn't be added.
#[derive(Debug, Drop, Error)]
pub enum FileBankFault {
    #[error("not enough memory")]
    Memory,
    #[error("the length of the file is not known: {0}")]
    Length(io::Error),
}

impl From<AllocError> for FileBankFault {
    ghost from_gives = { λ _ fault. fault ≡ Memory };

    fn from(_: AllocError) -> FileBankFault {
        FileBankFault::Memory
    }
}

/// Files that are disks.
#[derive(Drop)]
pub struct FileBank {
    files: Vec<File>,
    serials: Vec<Serial>,
    sizes: Vec<u64>,
    faults: Vec<u64>,
}

impl Model for FileBank {
    ghost use Rattle.std.specs.Prelude.{length};
    ghost use Rattle.member_bank.specs.Files.{FileState, IsFiles};

    ghost Value = { FileState };

    ghost view = { λ b. record { serials = b.serials.items; sizes = b.sizes.items; faults = b.faults.items } };

    ghost invariant = { λ b. IsFiles (length b.files.items) b.serials.items b.sizes.items b.faults.items };
}

/// Fails where a file can be no disk: it is neither a regular file nor a block device. Pipes and folders have no
/// sectors.
pub fn check_kind(file: &Metadata) -> io::Result<()>
    ensures { IsFile (file_type file.now) → IsOk result }
{
    let kind = file.file_type();
    if kind.is_file() || kind.is_block_device() {
        return Ok(());
    }
    let message = "neither a regular file nor a block device";
    Err(io::Error::new(ErrorKind::InvalidInput, message))
}

/// Whether two files are one: the same file of a file system, or nodes of the same block device.
fn is_same(a: &Metadata, b: &Metadata) -> bool {
    let are_devices = a.file_type().is_block_device() && b.file_type().is_block_device();
    (a.dev() == b.dev() && a.ino() == b.ino()) || (are_devices && a.rdev() == b.rdev())
}

/// How many bytes a file has. Of a block device the system keeps no length, so its end is sought.
fn length_of(file: &File) -> io::Result<u64> {
    let metadata = file.metadata()?;
    check_kind(&metadata)?;
    if metadata.is_file() {
        return Ok(metadata.len());
    }
    let mut device = file;
    device.seek(SeekFrom::End(0))
}

/// How many sectors a file has.
fn sectors_of(file: &File) -> io::Result<u64>
    ensures { IfOk result (λ sectors. sectors * SECTOR_BYTES < 2 ^ 64) }
{
    Ok(length_of(file)? / SECTOR_BYTES as u64)
}

/// The bytes of some sectors, and zeros behind them.
fn joined(from: &[Sector]) -> [[u8; SECTOR_BYTES]; MAX_WRITE_SECTORS]
    requires { length from.now ≤ MAX_WRITE_SECTORS }
    ensures { take (length from.now) result ≡ bytes_of from.now }
{
    let mut bytes = [[0; SECTOR_BYTES]; MAX_WRITE_SECTORS];
    for (number, sector) in from.iter().enumerate() {
        bytes[number] = sector.0;
    }
    bytes
}

/// Writes sectors one after another from a place on, in one call of the system. A single one, as a row's, isn't copied.
fn write_piece(file: &File, place: u64, from: &[Sector]) -> io::Result<()>
    requires few { length from.now ≤ MAX_WRITE_SECTORS }
    requires offset { place * SECTOR_BYTES < 2 ^ 64 }
{
    let offset = place * SECTOR_BYTES as u64;
    if from.len() == 1 {
        return file.write_all_at(&from[0].0, offset);
    }
    let bytes = joined(from);
    file.write_all_at(bytes[..from.len()].as_flattened(), offset)
}

/// Writes sectors one after another from a place on, as many at once as one write takes.
fn write_sectors(file: &File, place: u64, from: &[Sector]) -> io::Result<()>
    requires { (place + length from.now) * SECTOR_BYTES < 2 ^ 64 }
{
    for piece in 0..from.len().div_ceil(MAX_WRITE_SECTORS) {
        let begin = piece * MAX_WRITE_SECTORS;
        let count = MAX_WRITE_SECTORS.min(from.len() - begin);
        write_piece(file, place + begin as u64, &from[begin..begin + count])?;
    }
    Ok(())
}

impl FileBank {
    /// A bank without disks.
    pub fn new(alloc: Global) -> FileBank
        ensures { result ≡ record { serials = []; sizes = []; faults = [] } }
    {
        FileBank {
            files: Vec::new(alloc),
            serials: Vec::new(alloc),
            sizes: Vec::new(alloc),
            faults: Vec::new(alloc),
        }
    }

    /// Whether a file is a disk of the bank already, whatever name it was opened by.
    pub fn has(&self, file: &File) -> io::Result<bool> {
        let asked = file.metadata()?;
        for disk in &self.files {
            if is_same(&disk.metadata()?, &asked) {
                return Ok(true);
            }
        }
        Ok(false)
    }

    /// Adds a file at the end, with as many sectors as its length has now: a regular file, or a block device. After an
    /// error nothing has changed.
    pub fn add(&mut self, serial: Serial, file: File) -> Result<(), FileBankFault>
        requires few { length self.old.serials < MAX_DISKS }
        requires distinct { All (λ s. s ≢ serial) self.old.serials }
        ensures ok { OnOk result ((sectors : ℕ) × (self.new ≡ with_file self.old serial sectors)) }
        ensures counted { OnOk result (length self.old.faults ≡ length self.old.serials) }
        ensures err { OnErr result (self.new ≡ self.old) }
    {
        let sectors = sectors_of(&file).map_err(FileBankFault::Length)?;
        self.files.reserve(1)?;
        self.serials.reserve(1)?;
        self.sizes.reserve(1)?;
        self.faults.reserve(1)?;
        self.files.push_reserved(file);
        self.serials.push_reserved(serial);
        self.sizes.push_reserved(sectors);
        self.faults.push_reserved(0);
        Ok(())
    }
}

impl Bank for FileBank {
    ghost opening = { λ b. None };

    ghost log = { λ b. None };

    ghost sizes = { λ b. b.sizes };

    ghost serials = { λ b. b.serials };

    ghost faults_of = { λ b d. slice_index b.faults d };

    fn disks(&self) -> u8 {
        self.files.len() as u8
    }

    fn serial(&self, d: DiskNo) -> Serial {
        self.serials[d.0 as usize]
    }

    fn sectors(&self, d: DiskNo) -> u64 {
        self.sizes[d.0 as usize]
    }

    fn faults(&self, d: DiskNo) -> u64 {
        self.faults[d.0 as usize]
    }

    fn read(&mut self, d: DiskNo, place: u64, into: &mut Sector) -> Result<(), Failed>
        requires disk { d.0 < length self.old.sizes }
        requires place { place < slice_index self.old.sizes d.0 }
        ensures counted { self.new ≡ record self.old { faults = faults_with self.old.faults d.0 (is_ok result) } }
        ensures kept { OnErr result (into.new ≡ into.old) }
        ensures cause { HasCause (λ k. slice_index self.old.faults k) (λ k. slice_index self.new.faults k) d.0 result }
    {
        let file = &self.files[d.0 as usize];
        let mut sector = Sector([0; 512]);
        let went = file
            .read_exact_at(&mut sector.0, place * SECTOR_BYTES as u64)
            .is_ok();
        answer(&mut self.faults, d, went)?;
        *into = sector;
        Ok(())
    }

    fn write(&mut self, d: DiskNo, place: u64, from: &[Sector]) -> Result<(), Failed>
        requires disk { d.0 < length self.old.sizes }
        requires place { place + length from.now ≤ slice_index self.old.sizes d.0 }
        ensures counted { self.new ≡ record self.old { faults = faults_with self.old.faults d.0 (is_ok result) } }
        ensures cause { HasCause (λ k. slice_index self.old.faults k) (λ k. slice_index self.new.faults k) d.0 result }
    {
        let went = write_sectors(&self.files[d.0 as usize], place, from).is_ok();
        answer(&mut self.faults, d, went)
    }

    fn sync(&mut self, d: DiskNo) -> Result<(), Failed>
        requires { d.0 < length self.old.sizes }
        ensures counted { self.new ≡ record self.old { faults = faults_with self.old.faults d.0 (is_ok result) } }
        ensures cause { HasCause (λ k. slice_index self.old.faults k) (λ k. slice_index self.new.faults k) d.0 result }
    {
        let went = self.files[d.0 as usize].sync_data().is_ok();
        answer(&mut self.faults, d, went)
    }
}
