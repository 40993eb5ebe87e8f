//! A source is read to its end.
ghost use Rattle.std.specs.Prelude.{◌≡◌, ◌+◌, ◌≤◌, ℕ, length, Err, IfOk, OnErr};
ghost use Rattle.member_bank.specs.Faults.{Rose};
ghost use Rattle.image_outside.specs.Outside.{TakesAll, TakesFront};
ghost use Rattle.image_outside.specs.declared.source.SourceFault.TheVariants as faults;

use crate::outside::Source;
use member_bank::Failed;
use std::alloc::{AllocError, Global};
use thiserror::Error;

/// The most bytes of a script: 8 MiB. The number is this project's own.
pub const MAX_SOURCE_BYTES: usize = 8_388_608;

/// The most bytes that one read asks for.
const PIECE_BYTES: usize = 4096;

/// Why a source wasn't read to its end.
#[derive(Clone, Copy, Debug, PartialEq, Eq, Error)]
pub enum SourceFault {
    #[error("out of memory")]
    Memory,
    #[error("a read failed")]
    Failed,
    #[error("more than 8,388,608 bytes come")]
    Bytes,
}

impl From<AllocError> for SourceFault {
    ghost from_gives = { λ _ fault. fault ≡ faults.Memory };

    fn from(_: AllocError) -> SourceFault {
        SourceFault::Memory
    }
}

impl From<Failed> for SourceFault {
    ghost from_gives = { λ _ fault. fault ≡ faults.Failed };

    fn from(_: Failed) -> SourceFault {
        SourceFault::Failed
    }
}

/// The bytes of a source, of which there are at most `MAX_SOURCE_BYTES`. It is read up to the first read that gives
/// none, and of more bytes the first past the limit is the last that is read.
pub fn read_all<S: Source>(alloc: Global, source: &mut S) -> Result<Vec<u8>, SourceFault>
    ensures all { IfOk result (λ bytes. TakesAll (S.left source.old) (S.left source.new) bytes.items) }
    ensures few { IfOk result (λ bytes. length bytes.items ≤ MAX_SOURCE_BYTES) }
    ensures limit { result ≡ Err SourceFault.Bytes
        → TakesFront (S.left source.old) (S.left source.new) (MAX_SOURCE_BYTES + 1) }
    ensures front { OnErr result ((count : ℕ) × (count ≤ MAX_SOURCE_BYTES + 1)
        × TakesFront (S.left source.old) (S.left source.new) count) }
    ensures later { S.faults_of source.old ≤ S.faults_of source.new }
    ensures failed { result ≡ Err SourceFault.Failed → Rose (S.faults_of source.old) (S.faults_of source.new) }
{
    let mut bytes = Vec::new(alloc);
    while bytes.len() <= MAX_SOURCE_BYTES {
        let mut piece = [0; PIECE_BYTES];
        let room = PIECE_BYTES.min(MAX_SOURCE_BYTES + 1 - bytes.len());
        let count = source.read(&mut piece[..room])?;
        if count == 0 {
            return Ok(bytes);
        }
        bytes.extend_from_slice(&piece[..count])?;
    }
    Err(SourceFault::Bytes)
}
