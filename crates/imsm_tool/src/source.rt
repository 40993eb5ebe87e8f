//! Bytes that come from a reader, as from standard input.
ghost use Rattle.std.specs.Prelude.{◌≡◌, ◌<◌, ◌≤◌, ℕ, None, length, take, drop, is_ok, if◌then◌else◌, IfOk, OnErr};
ghost use Rattle.std.specs.Io.KnownBytes.{Consumes, IsAtEnd, Keeps};
ghost use Rattle.member_bank.specs.Faults.{next_count};

use image_run::Source;
use member_bank::Failed;
use std::io::Read;
use std::marker::Model;

/// The most bytes that are asked of the reader at once.
const PIECE_BYTES: usize = 4096;

/// A source over a reader. What the outside has left isn't told.
#[derive(Drop)]
pub struct InSource<R: Read> {
    input: R,
    faults: u64,
}

impl<R: Read> Model for InSource<R> {
    ghost use Rattle.imsm_tool.specs.Adapters.{ReaderState};

    ghost Value = { ReaderState };

    ghost view = { λ s. record { remaining = R.remaining s.input; faults = s.faults } };
}

impl<R: Read> InSource<R> {
    pub fn new(input: R) -> InSource<R>
        ensures { result ≡ record { remaining = R.remaining input; faults = 0 } }
    {
        InSource { input, faults: 0 }
    }
}

impl<R: Read> Source for InSource<R> {
    ghost left = { λ s. None };

    ghost faults_of = { λ s. s.faults };

    /// The reader gets a piece of the source's own, since it may write past the bytes that it answers.
    fn read(&mut self, into: &mut [u8]) -> Result<usize, Failed>
        ensures count { IfOk result (λ n. n ≤ length into.old) }
        ensures moved { IfOk result (λ n. Consumes self.old.remaining self.new.remaining (take n into.new)) }
        ensures rest { IfOk result (λ n. drop n into.new ≡ drop n into.old) }
        ensures end { IfOk result (λ n. n ≡ 0 → 0 < length into.old → IsAtEnd self.new.remaining) }
        ensures refused { OnErr result (Keeps self.old.remaining self.new.remaining) }
        ensures piece { OnErr result (into.new ≡ into.old) }
        ensures counted { self.new.faults ≡ if is_ok result then self.old.faults else next_count self.old.faults }
    {
        let mut piece = [0; PIECE_BYTES];
        let room = PIECE_BYTES.min(into.len());
        match self.input.read(&mut piece[..room]) {
            Ok(count) => {
                into[..count].copy_from_slice(&piece[..count]);
                Ok(count)
            }
            Err(_) => {
                self.faults = self.faults.saturating_add(1);
                Err(Failed)
            }
        }
    }

    fn faults(&self) -> u64 {
        self.faults
    }
}
