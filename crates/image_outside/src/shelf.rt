//! A shelf of files in memory.
ghost use Rattle.std.specs.Prelude.{◌≡◌, ◌≢◌, ◌+◌, ◌<◌, ◌≤◌, ◌↔◌, ℕ, [], ◌∷◌, ◌++◌, Some, None, Err, length, map, is_none, IsTrue, IsSome, IsNone, IfOk, IfSome, OnOk, OnErr, string_bytes, vec_len, vec_capacity};
ghost use Rattle.std.specs.Option.{IsSomeAnd, option_copied, option_map};
ghost use Rattle.member_bank.specs.Faults.{Rose};
ghost use Rattle.member_bank.specs.Memory.{MemState, opened};
ghost use Rattle.image_outside.specs.Outside.{IsNew};
ghost use Rattle.image_outside.specs.Shelves.{HasOneMore};
ghost use Rattle.image_outside.specs.Memory.{ShelfState, file_of, found_at, found_by, mem_told, paths_of, with_sectors, with_file, unopened, unfed};

use crate::{MemFault, Shelf, ShelfFault};
use member_bank::{Bank, BankFault, FailAt, LogRoom, MemBank, MemDisk};
use std::alloc::{AllocError, Global};
use std::marker::Model;
use units::{DiskNo, MAX_DISKS, Sector, Serial};

/// A file in memory: its name, and its sectors from the first on.
#[derive(Drop)]
pub struct MemFile {
    pub name: String,
    pub sectors: Vec<Sector>,
}

/// A shelf of files in memory. Each disk that is opened is a copy of its file.
#[derive(Drop)]
pub struct MemShelf {
    files: Vec<MemFile>,
    bank: Option<MemBank>,
    paths: Vec<String>,
    fails: Vec<u64>,
    opens: u64,
    faults: u64,
}

impl Model for MemShelf {
    ghost use Rattle.image_outside.specs.Memory.{ShelfState, paths_of};

    ghost Value = { ShelfState };

    ghost view = { λ s. record {
      files = s.files.items;
      bank = s.bank;
      paths = paths_of s.paths.items;
      fails = s.fails.items;
      opens = s.opens;
      faults = s.faults;
    } };
}

/// The file of a name.
fn find<'a>(files: &'a [MemFile], name: &str) -> Option<&'a [Sector]>
    ensures { option_copied result ≡ file_of files.now name.now }
{
    files
        .iter()
        .find(|file| file.name.as_str() == name)
        .map(|file| file.sectors.as_slice())
}

/// The file of a name, if the open of this number isn't to fail.
fn find_at<'a>(files: &'a [MemFile], name: &str, fails: &[u64], number: u64) -> Option<&'a [Sector]>
    ensures { option_copied result ≡ found_at files.now fails.now number name.now }
{
    if fails.contains(&number) {
        None
    } else {
        find(files, name)
    }
}

/// One more disk of a bank, a copy of these sectors. Without memory nothing changes.
fn add(
    alloc: Global,
    bank: &mut MemBank,
    serial: Serial,
    sectors: &[Sector],
) -> Result<(), BankFault>
    requires few { length bank.old.serials < MAX_DISKS }
    requires distinct { IsNew serial bank.old.serials }
    ensures ok { OnOk result (bank.new ≡ with_sectors serial sectors.now bank.old) }
    ensures more { OnOk result (HasOneMore serial (mem_told bank.old) (mem_told bank.new)) }
    ensures err { OnErr result (bank.new ≡ bank.old) }
{
    let sectors = sectors.to_vec(alloc)?;
    bank.add(alloc, MemDisk { serial, sectors })
}

/// The same of a bank that isn't lent, and the number of the disk.
fn add_to(
    alloc: Global,
    bank: &mut Option<MemBank>,
    serial: Serial,
    sectors: &[Sector],
) -> Result<DiskNo, ShelfFault>
    requires held { IsSome bank.old }
    requires few { IfSome bank.old (λ b. length b.serials < MAX_DISKS) }
    requires distinct { IfSome bank.old (λ b. IsNew serial b.serials) }
    ensures number { IfOk result (λ d. IfSome bank.old (λ b. d.0 ≡ length b.serials)) }
    ensures ok { OnOk result (bank.new ≡ option_map (with_sectors serial sectors.now) bank.old) }
    ensures more { OnOk result (IsSomeAnd bank.old
        (λ old. IsSomeAnd bank.new (λ new. HasOneMore serial (mem_told old) (mem_told new)))) }
    ensures err { OnErr result (bank.new ≡ bank.old) }
    ensures memory { result ≢ Err ShelfFault.Failed }
{
    let mut held = bank.take().unwrap();
    let d = DiskNo(held.disks());
    let added = add(alloc, &mut held, serial, sectors);
    *bank = Some(held);
    match added {
        Ok(()) => Ok(d),
        Err(BankFault::Memory) => Err(ShelfFault::Memory),
    }
}

/// A path, and room for it behind others.
fn new_path(alloc: Global, paths: &mut Vec<String>, path: &str) -> Result<String, ShelfFault>
    ensures same { IfOk result (λ p. string_bytes p ≡ path.now) }
    ensures kept { paths.new.items ≡ paths.old.items }
    ensures room { OnOk result (vec_len paths.new < vec_capacity paths.new) }
    ensures memory { result ≢ Err ShelfFault.Failed }
{
    paths.reserve(1).map_err(|_| ShelfFault::Memory)?;
    String::from_str(alloc, path).map_err(|_| ShelfFault::Memory)
}

impl MemShelf {
    /// A shelf of these files, on which nothing is opened. The opens of these numbers, counted from 1, fail. The bank
    /// has this fail list and room for its log.
    pub fn new(
        alloc: Global,
        files: Vec<MemFile>,
        fails: Vec<u64>,
        device: Vec<FailAt>,
        room: LogRoom,
    ) -> Result<MemShelf, MemFault>
        ensures { IfOk result (λ s. s ≡ record {
          files = files.items;
          bank = Some (opened [] device.items room);
          paths = [];
          fails = fails.items;
          opens = 0;
          faults = 0;
        }) }
    {
        let bank = MemBank::new(alloc, Vec::new(alloc), device, room).map_err(
            |_| MemFault::Memory,
        )?;
        Ok(MemShelf {
            files,
            bank: Some(bank),
            paths: Vec::new(alloc),
            fails,
            opens: 0,
            faults: 0,
        })
    }

    /// The bank, where it isn't lent and has a disk.
    pub fn into_bank(self) -> Option<MemBank>
        ensures some { IfSome result (λ bank. self.bank ≡ Some bank) }
        ensures none { IsNone result ↔ IfSome self.bank (λ bank. bank.serials ≡ []) }
    {
        let MemShelf { bank, .. } = self;
        bank.filter(|bank| bank.disks() > 0)
    }
}

impl Shelf for MemShelf {
    type Held = MemBank;

    ghost held = { λ s. s.bank };

    ghost paths = { λ s. s.paths };

    ghost faults_of = { λ s. s.faults };

    fn open(&mut self, alloc: Global, serial: Serial, file: &str) -> Result<DiskNo, ShelfFault>
        requires held { IsSome self.old.bank }
        requires few { IfSome self.old.bank (λ b. length b.serials < MAX_DISKS) }
        requires new { IfSome self.old.bank (λ b. IsNew serial b.serials) }
        ensures number { IfOk result (λ d. IfSome self.old.bank (λ b. d.0 ≡ length b.serials)) }
        ensures opened { OnOk result (IsSomeAnd self.old.bank (λ old. IsSomeAnd self.new.bank
            (λ new. HasOneMore serial (mem_told old) (mem_told new)))) }
        ensures path { OnOk result (self.new.paths ≡ self.old.paths ++ file.now ∷ []) }
        ensures refused { OnErr result (self.new.bank ≡ self.old.bank) }
        ensures unlisted { OnErr result (self.new.paths ≡ self.old.paths) }
        ensures later { self.old.faults ≤ self.new.faults }
        ensures failed { result ≡ Err ShelfFault.Failed → Rose self.old.faults self.new.faults }

        ensures unopened { IsNone (found_by self.old file.now) ↔ (result ≡ Err ShelfFault.Failed) }
        ensures ok { OnOk result (option_map (with_file self.old serial file.now) (found_by self.old file.now)
            ≡ Some self.new) }
        ensures err { result ≡ Err ShelfFault.Failed → self.new ≡ unopened self.old }
        ensures memory { result ≡ Err ShelfFault.Memory → self.new ≡ unfed self.old }
    {
        self.opens = self.opens.saturating_add(1);
        match find_at(&self.files, file, &self.fails, self.opens) {
            Some(sectors) => {
                let path = new_path(alloc, &mut self.paths, file)?;
                let d = add_to(alloc, &mut self.bank, serial, sectors)?;
                self.paths.push_reserved(path);
                Ok(d)
            }
            None => {
                self.faults = self.faults.saturating_add(1);
                Err(ShelfFault::Failed)
            }
        }
    }

    fn lend(&mut self) -> MemBank
        requires { IsSome self.old.bank }
        ensures bank { self.old.bank ≡ Some result }
        ensures lent { self.new ≡ record self.old { bank = None } }
    {
        self.bank.take().unwrap()
    }

    fn hand_back(&mut self, bank: MemBank)
        requires { self.old.bank ≡ None }
        ensures { self.new ≡ record self.old { bank = Some bank } }
    {
        self.bank = Some(bank);
    }

    fn faults(&self) -> u64 {
        self.faults
    }
}
