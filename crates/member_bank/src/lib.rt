//! Devices by what was asked of them: the trait `Bank`, a bank in memory whose calls fail as a list says, one on which
//! no call fails, and a bank over files.
//!
//! Every bank owes that each call is logged where the log is told, that a read gives what stands there by that log,
//! and that a call fails only where the disk's count of faults rose or stands at its last value. The banks in
//! memory owe just what they hold and tell; what files hold no clause says. No device call takes memory.
//!
//! Whatever reads or writes disks is generic over `Bank`: `mpb_store`, `stage`, and the commands above.
#![tactic(auto)]

ghost use Rattle.std.specs.Prelude.{◌≡◌, ◌≢◌, ℕ, ◌+◌, ◌<◌, ◌≤◌, List, Option, is_ok, length, map, OnOk, OnErr, IfSome, Some, slice_index, slice_get};
ghost use Rattle.std.specs.List.{AllPairs};
ghost use Rattle.units.specs.declared.disk.Sector.{Sector as SectorBytes};
ghost use Rattle.units.specs.declared.disk.Serial.{Serial as SerialBytes};
ghost use Rattle.device_log.specs.Log.{Call, Read, Sync};
ghost use Rattle.member_bank.specs.Told.{Keeps, Logs, LogsWrite, Gives};
ghost use Rattle.member_bank.specs.Faults.{HasCause};

mod counts;
mod disks;
mod fail_free;
mod files;
mod history;
mod memory;

pub use disks::MemDisk;
pub use fail_free::FailFree;
pub use files::{FileBank, FileBankFault, check_kind};
pub use history::LogRoom;
pub use memory::{BankFault, FailAt, MemBank};
use units::{DiskNo, MAX_DISKS, MAX_WRITE_SECTORS, Sector, Serial};

/// A device call that didn't go through.
#[derive(Clone, Copy, Debug, PartialEq, Eq)]
pub struct Failed;

/// The disks of a container, by number. Each device call is logged, and fails only where its disk's count of faults
/// rose or stands at its last value.
pub trait Bank {
    /// The sectors of each disk when the bank was opened, where they are told.
    ghost opening: { Self → Option (List (List SectorBytes)) };

    /// The calls so far, the oldest first, where they are told.
    ghost log: { Self → Option (List Call) };

    /// How many sectors each disk has.
    ghost sizes: { Self → List ℕ };

    /// The serial of each disk.
    ghost serials: { Self → List SerialBytes };

    /// How often each disk has failed.
    ghost faults_of: { Self → ℕ → ℕ };

    /// How many disks there are, which may be none.
    fn disks(&self) -> u8
        ensures count { result ≡ length (sizes self.now) }
        ensures few { result ≤ MAX_DISKS }
        ensures named { length (serials self.now) ≡ length (sizes self.now) }
        ensures distinct { AllPairs (λ a b. a ≢ b) (serials self.now) }
        ensures told { IfSome (opening self.now) (λ disks. map (λ disk. length disk) disks ≡ sizes self.now) };

    fn serial(&self, d: DiskNo) -> Serial
        requires { d.0 < length (sizes self.now) }
        ensures { slice_get (serials self.now) d.0 ≡ Some result };

    /// How many sectors a disk has.
    fn sectors(&self, d: DiskNo) -> u64
        requires { d.0 < length (sizes self.now) }
        ensures { result ≡ slice_index (sizes self.now) d.0 };

    /// How often a disk has failed.
    fn faults(&self, d: DiskNo) -> u64
        requires { d.0 < length (sizes self.now) }
        ensures { result ≡ faults_of self.now d.0 };

    /// Reads one sector. A failed read leaves `into` as it was.
    fn read(&mut self, d: DiskNo, place: u64, into: &mut Sector) -> Result<(), Failed>
        requires disk { d.0 < length (sizes self.old) }
        requires place { place < slice_index (sizes self.old) d.0 }
        ensures logs { Logs (log self.old) (log self.new) (record {
          disk = d.0;
          what = Read place;
          went = is_ok result;
        }) }
        ensures opening { Keeps (opening self.old) (opening self.new) }
        ensures gives { OnOk result (Gives (opening self.new) (log self.new) d.0 place into.new) }
        ensures kept { OnErr result (into.new ≡ into.old) }
        ensures sizes { sizes self.new ≡ sizes self.old }
        ensures serials { serials self.new ≡ serials self.old }
        ensures cause { HasCause (faults_of self.old) (faults_of self.new) d.0 result };

    /// Writes 1 to 16 sectors. A failed write may have stored some of them, from the first on.
    fn write(&mut self, d: DiskNo, place: u64, from: &[Sector]) -> Result<(), Failed>
        requires disk { d.0 < length (sizes self.old) }
        requires place { place + length from.now ≤ slice_index (sizes self.old) d.0 }
        requires some { 0 < length from.now }
        requires few { length from.now ≤ MAX_WRITE_SECTORS }
        ensures logs { (stored : ℕ) × LogsWrite (log self.old) (log self.new) d.0 place from.now (is_ok result) stored }
        ensures opening { Keeps (opening self.old) (opening self.new) }
        ensures sizes { sizes self.new ≡ sizes self.old }
        ensures serials { serials self.new ≡ serials self.old }
        ensures cause { HasCause (faults_of self.old) (faults_of self.new) d.0 result };

    /// Makes what stands on a disk last.
    fn sync(&mut self, d: DiskNo) -> Result<(), Failed>
        requires { d.0 < length (sizes self.old) }
        ensures logs { Logs (log self.old) (log self.new) (record { disk = d.0; what = Sync; went = is_ok result }) }
        ensures opening { Keeps (opening self.old) (opening self.new) }
        ensures sizes { sizes self.new ≡ sizes self.old }
        ensures serials { serials self.new ≡ serials self.old }
        ensures cause { HasCause (faults_of self.old) (faults_of self.new) d.0 result };
}
