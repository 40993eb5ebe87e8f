//! Lines that go to a writer, as to standard output.
ghost use Rattle.std.specs.Prelude.{◌≡◌, ◌<◌, ◌≤◌, ℕ, None, length, take, is_ok, if◌then◌else◌, IfOk, OnErr};
ghost use Rattle.std.specs.Io.KnownBytes.{Appends};
ghost use Rattle.member_bank.specs.Faults.{next_count};

use image_run::Sink;
use member_bank::Failed;
use std::io::Write;
use std::marker::Model;

/// A sink over a writer. What reaches the outside isn't told.
#[derive(Drop)]
pub struct OutSink<W: Write> {
    out: W,
    faults: u64,
}

impl<W: Write> Model for OutSink<W> {
    ghost use Rattle.imsm_tool.specs.Adapters.{WriterState};

    ghost Value = { WriterState };

    ghost view = { λ s. record { contents = W.contents s.out; faults = s.faults } };
}

impl<W: Write> OutSink<W> {
    pub fn new(out: W) -> OutSink<W>
        ensures { result ≡ record { contents = W.contents out; faults = 0 } }
    {
        OutSink { out, faults: 0 }
    }
}

impl<W: Write> Sink for OutSink<W> {
    ghost written = { λ s. None };

    ghost faults_of = { λ s. s.faults };

    /// Each piece is flushed at once, and a flush that fails is a failed write. Of that piece the writer may have taken
    /// some first bytes.
    fn write(&mut self, from: &[u8]) -> Result<usize, Failed>
        ensures count { IfOk result (λ n. n ≤ length from.now) }
        ensures some { IfOk result (λ n. 0 < length from.now → 0 < n) }
        ensures taken { IfOk result (λ n. Appends self.old.contents self.new.contents (take n from.now)) }
        ensures refused { OnErr result ((n : ℕ) × Appends self.old.contents self.new.contents (take n from.now)) }
        ensures counted { self.new.faults ≡ if is_ok result then self.old.faults else next_count self.old.faults }
    {
        match self.out.write(from) {
            Ok(count) if (count > 0 || from.is_empty()) && self.out.flush().is_ok() => Ok(count),
            _ => {
                self.faults = self.faults.saturating_add(1);
                Err(Failed)
            }
        }
    }

    fn faults(&self) -> u64 {
        self.faults
    }
}
