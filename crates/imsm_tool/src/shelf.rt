//! Disks that are files of this machine.
ghost use Rattle.std.specs.Prelude.{◌≡◌, ◌≢◌, ◌<◌, ◌↔◌, ◌⊎◌, ℕ, [], Some, Err, length, All, IsTrue, IfOk, OnOk, OnErr, string_bytes, vec_len, vec_capacity};
ghost use Rattle.std.specs.IoError.{error_kind};
ghost use Rattle.member_bank.specs.Files.{with_file};
ghost use Rattle.image_outside.specs.Shelves.{HasOneMore};
ghost use Rattle.imsm_tool.specs.Adapters.{files_told};

use image_run::{Shelf, ShelfFault};
use member_bank::{Bank, FileBank, FileBankFault, check_kind};
use std::alloc::Global;
use std::fs::{File, OpenOptions};
use std::io::ErrorKind;
use std::marker::Model;
use std::rt::Files;
use std::{fs, io};
use units::{DiskNo, MAX_DISKS, Serial};

/// Opens an image for reading and writing, or, where writing isn't allowed, for reading, and locks it: for this open
/// alone where it may be written, else beside others that only read. It never waits: not for a lock, nor at a pipe, as
/// what can be no disk isn't opened.
fn open_image<R: Files<File = File>>(rt: &R, path: &str) -> io::Result<File> {
    check_kind(&fs::metadata(rt, path)?)?;
    match OpenOptions::new().read(true).write(true).open(rt, path) {
        Ok(image) => {
            image.try_lock()?;
            Ok(image)
        }
        Err(error) if is_refusal(&error) => {
            let image = File::open(rt, path)?;
            image.try_lock_shared()?;
            Ok(image)
        }
        Err(error) => Err(error),
    }
}

/// Takes the numbers of standard input, output and error, as far as they are closed, by a folder, which can be neither
/// read nor written as a file. Else the next image would have such a number, and the lines of a command would go into
/// it.
fn hold_numbers<R: Files<File = File>>(rt: &R) -> io::Result<[File; 3]> {
    let input = File::open(rt, "/")?;
    let output = File::open(rt, "/")?;
    let error = File::open(rt, "/")?;
    Ok([input, output, error])
}

/// The system doesn't let this file be written.
fn is_refusal(error: &io::Error) -> bool
    ensures { IsTrue result ↔ (error_kind error.now ≡ ErrorKind.PermissionDenied)
        ⊎ (error_kind error.now ≡ ErrorKind.ReadOnlyFilesystem) }
{
    matches!(
        error.kind(),
        ErrorKind::PermissionDenied | ErrorKind::ReadOnlyFilesystem
    )
}

/// The system had no memory, or another fault.
fn fault_of(error: io::Error) -> ShelfFault
    ensures { result ≡ ShelfFault.Memory ↔ error_kind error ≡ ErrorKind.OutOfMemory }
{
    match error.kind() {
        ErrorKind::OutOfMemory => ShelfFault::Memory,
        _ => ShelfFault::Failed,
    }
}

/// An opened file as the next disk of a bank, and its number. One that is a disk of the bank already is a fault, as
/// two that only read have a lock both. After a fault the bank is as it was.
fn add(bank: &mut FileBank, serial: Serial, image: io::Result<File>) -> Result<DiskNo, ShelfFault>
    requires few { length bank.old.serials < MAX_DISKS }
    requires distinct { All (λ s. s ≢ serial) bank.old.serials }
    ensures number { IfOk result (λ d. d.0 ≡ length bank.old.serials) }
    ensures ok { OnOk result ((sectors : ℕ) × (bank.new ≡ with_file bank.old serial sectors)) }
    ensures more { OnOk result (HasOneMore serial (files_told bank.old) (files_told bank.new)) }
    ensures err { OnErr result (bank.new ≡ bank.old) }
{
    let number = DiskNo(bank.disks());
    let image = image.map_err(fault_of)?;
    if bank.has(&image).map_err(fault_of)? {
        return Err(ShelfFault::Failed);
    }
    match bank.add(serial, image) {
        Ok(()) => Ok(number),
        Err(FileBankFault::Memory) => Err(ShelfFault::Memory),
        Err(FileBankFault::Length(error)) => Err(fault_of(error)),
    }
}

/// A path, and room for it behind others.
fn new_path(alloc: Global, paths: &mut Vec<String>, path: &str) -> Result<String, ShelfFault>
    ensures same { IfOk result (λ p. string_bytes p ≡ path.now) }
    ensures kept { paths.new.items ≡ paths.old.items }
    ensures room { OnOk result (vec_len paths.new < vec_capacity paths.new) }
    ensures memory { result ≢ Err ShelfFault.Failed }
{
    paths.reserve(1).map_err(|_| ShelfFault::Memory)?;
    String::from_str(alloc, path).map_err(|_| ShelfFault::Memory)
}

/// A shelf whose disks are files, opened by their paths and locked as long as they are open. A file that can't be
/// written is opened all the same: a write to it is then a fault of that disk. One that can't be locked isn't opened.
#[derive(Drop)]
pub struct FileShelf<'a, R> {
    rt: &'a R,
    numbers: io::Result<[File; 3]>,
    bank: Option<FileBank>,
    paths: Vec<String>,
    faults: u64,
}

impl<'a, R> Model for FileShelf<'a, R> {
    ghost use Rattle.image_outside.specs.Memory.{paths_of};
    ghost use Rattle.imsm_tool.specs.Adapters.{FilesState};

    ghost Value = { FilesState };

    ghost view = { λ s. record { bank = s.bank; paths = paths_of s.paths.items; faults = s.faults } };
}

impl<'a, R: Files<File = File>> FileShelf<'a, R> {
    /// A shelf on which nothing is opened.
    pub fn new(alloc: Global, rt: &'a R) -> FileShelf<'a, R>
        ensures { result ≡ record {
          bank = Some (record { serials = []; sizes = []; faults = [] });
          paths = [];
          faults = 0;
        } }
    {
        FileShelf {
            rt,
            numbers: hold_numbers(rt),
            bank: Some(FileBank::new(alloc)),
            paths: Vec::new(alloc),
            faults: 0,
        }
    }
}

impl<R: Files<File = File>> FileShelf<'_, R> {
    /// Opens an image, under none of the numbers that are held.
    fn open_apart(&self, path: &str) -> io::Result<File> {
        match &self.numbers {
            Ok(_) => open_image(self.rt, path),
            Err(error) => Err(io::Error::from(error.kind())),
        }
    }
}

impl<R: Files<File = File>> Shelf for FileShelf<'_, R> {
    type Held = FileBank;

    ghost held = { λ s. s.bank };

    ghost paths = { λ s. s.paths };

    ghost faults_of = { λ s. s.faults };

    fn open(&mut self, alloc: Global, serial: Serial, file: &str) -> Result<DiskNo, ShelfFault> {
        let path = new_path(alloc, &mut self.paths, file)?;
        let image = self.open_apart(file);
        let mut bank = self.bank.take().unwrap();
        let added = add(&mut bank, serial, image);
        self.bank = Some(bank);
        match added {
            Ok(_) => self.paths.push_reserved(path),
            Err(ShelfFault::Failed) => self.faults = self.faults.saturating_add(1),
            Err(ShelfFault::Memory) => {}
        }
        added
    }

    fn lend(&mut self) -> FileBank {
        self.bank.take().unwrap()
    }

    fn hand_back(&mut self, bank: FileBank) {
        self.bank = Some(bank);
    }

    fn faults(&self) -> u64 {
        self.faults
    }
}
