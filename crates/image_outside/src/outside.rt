//! The outside as traits: where a command's script comes from, where its lines go, and where its disks come from.
ghost use Rattle.std.specs.Prelude.{◌≡◌, ℕ, ◌<◌, ◌≤◌, List, [], ◌∷◌, ◌++◌, Option, Some, None, length, take, drop, IsSome, IfOk, IfSome, OnOk, OnErr};
ghost use Rattle.std.specs.Option.{IsSomeAnd};
ghost use Rattle.member_bank.specs.Faults.{Rose};
ghost use Rattle.member_bank.specs.Told.{Keeps};
ghost use Rattle.image_outside.specs.Outside.{Adds, BreaksOff, Takes, IsAtEnd, IsNew};
ghost use Rattle.image_outside.specs.Told.{bank_told};
ghost use Rattle.image_outside.specs.Shelves.{HasOneMore};

use member_bank::{Bank, Failed};
use std::alloc::Global;
use units::{DiskNo, MAX_DISKS, Serial};

/// Where bytes come from, as those of a script.
pub trait Source {
    /// The bytes that are left, where they are told.
    ghost left: { Self → Option (List ℕ) };

    /// How often a read has failed.
    ghost faults_of: { Self → ℕ };

    /// Moves some first bytes of what is left to the front of a piece, and answers how many. The rest of the piece
    /// stays as it was, and after a failed read all of it. 0 bytes into a piece that isn't empty are the end of the
    /// input.
    fn read(&mut self, into: &mut [u8]) -> Result<usize, Failed>
        ensures count { IfOk result (λ n. n ≤ length into.old) }
        ensures moved { IfOk result (λ n. Takes (left self.old) (left self.new) (take n into.new)) }
        ensures rest { IfOk result (λ n. drop n into.new ≡ drop n into.old) }
        ensures end { IfOk result (λ n. n ≡ 0 → 0 < length into.old → IsAtEnd (left self.old)) }
        ensures refused { OnErr result (Keeps (left self.old) (left self.new)) }
        ensures piece { OnErr result (into.new ≡ into.old) }
        ensures later { faults_of self.old ≤ faults_of self.new }
        ensures failed { OnErr result (Rose (faults_of self.old) (faults_of self.new)) };

    /// How often a read has failed.
    fn faults(&self) -> u64
        ensures { result ≡ faults_of self.now };
}

/// Where lines go.
pub trait Sink {
    /// The bytes written so far, where they are told.
    ghost written: { Self → Option (List ℕ) };

    /// How often a write has failed.
    ghost faults_of: { Self → ℕ };

    /// Takes some first bytes of a piece, at least one where it has any, and answers how many.
    fn write(&mut self, from: &[u8]) -> Result<usize, Failed>
        ensures count { IfOk result (λ n. n ≤ length from.now) }
        ensures some { IfOk result (λ n. 0 < length from.now → 0 < n) }
        ensures taken { IfOk result (λ n. Adds (written self.old) (written self.new) (take n from.now)) }
        ensures refused { OnErr result (Keeps (written self.old) (written self.new)) }
        ensures later { faults_of self.old ≤ faults_of self.new }
        ensures failed { OnErr result (Rose (faults_of self.old) (faults_of self.new)) };

    /// How often a write has failed.
    fn faults(&self) -> u64
        ensures { result ≡ faults_of self.now };
}

/// Why a file wasn't opened.
#[derive(Clone, Copy, Debug, PartialEq, Eq)]
pub enum ShelfFault {
    Memory,
    Failed,
}

/// Where disks come from. A shelf holds a bank of the disks that were opened on it, and lends it.
pub trait Shelf {
    type Held: Bank;

    /// The bank, but while it is lent.
    ghost held: { Self → Option Self.Held };

    /// The paths of the files that were opened, in their order.
    ghost paths: { Self → List (List ℕ) };

    /// How often a file couldn't be opened.
    ghost faults_of: { Self → ℕ };

    /// Opens a file as the next disk of the bank, and answers its number.
    fn open(&mut self, alloc: Global, serial: Serial, file: &str) -> Result<DiskNo, ShelfFault>
        requires held { IsSome (held self.old) }
        requires few { IfSome (held self.old) (λ b. length (Self.Held.serials b) < MAX_DISKS) }
        requires new { IfSome (held self.old) (λ b. IsNew serial (Self.Held.serials b)) }
        ensures number { IfOk result (λ d. IfSome (held self.old) (λ b. d.0 ≡ length (Self.Held.serials b))) }
        ensures opened { OnOk result (IsSomeAnd (held self.old) (λ old. IsSomeAnd (held self.new)
            (λ new. HasOneMore serial (bank_told Self.Held.Bank old) (bank_told Self.Held.Bank new)))) }
        ensures path { OnOk result (paths self.new ≡ paths self.old ++ file.now ∷ []) }
        ensures refused { OnErr result (held self.new ≡ held self.old) }
        ensures unlisted { OnErr result (paths self.new ≡ paths self.old) }
        ensures later { faults_of self.old ≤ faults_of self.new }
        ensures failed { result ≡ Err ShelfFault.Failed → Rose (faults_of self.old) (faults_of self.new) };

    /// Hands out the bank.
    fn lend(&mut self) -> Self::Held
        requires { IsSome (held self.old) }
        ensures bank { held self.old ≡ Some result }
        ensures lent { held self.new ≡ None }
        ensures paths { paths self.new ≡ paths self.old }
        ensures faults { faults_of self.new ≡ faults_of self.old };

    /// Takes the bank back.
    fn hand_back(&mut self, bank: Self::Held)
        requires { held self.old ≡ None }
        ensures bank { held self.new ≡ Some bank }
        ensures paths { paths self.new ≡ paths self.old }
        ensures faults { faults_of self.new ≡ faults_of self.old };

    /// How often a file couldn't be opened.
    fn faults(&self) -> u64
        ensures { result ≡ faults_of self.now };
}

/// Writes all of a piece, in as many writes as the sink takes.
pub fn write_all<K: Sink>(sink: &mut K, bytes: &[u8]) -> Result<(), Failed>
    ensures all { OnOk result (Adds (K.written sink.old) (K.written sink.new) bytes.now) }
    ensures later { K.faults_of sink.old ≤ K.faults_of sink.new }
    ensures failed { OnErr result (BreaksOff (K.written sink.old) (K.written sink.new)
        (K.faults_of sink.old) (K.faults_of sink.new) bytes.now) }
{
    let mut at = 0;
    while at < bytes.len() {
        at += sink.write(&bytes[at..])?;
    }
    Ok(())
}
