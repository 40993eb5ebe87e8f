//! The control state at the opening of a run.
ghost use Rattle.std.specs.Prelude.{◌≡◌, ◌≤◌, [], ◌∷◌, length, map, IfOk, None};
ghost use Rattle.std.specs.List.{range_with_len};
ghost use Rattle.imsm_codec.specs.Mpb.{block_bytes};
ghost use Rattle.block_meaning.specs.Reading.{block_words};
ghost use Rattle.stage_machine.specs.Machine as machine;
ghost use Rattle.stage_machine.specs.Jobs as jobs;
ghost use Rattle.control_state.specs.declared.plan.Plan.{Plan as PlanSeen};
ghost use Rattle.control_state.specs.Book.{IsBook, IsBlockOf, laid_at};
ghost use Rattle.control_state.specs.Events.{blank_sector};
ghost use Rattle.control_state.specs.Seen.{clients_of};
ghost use Rattle.control_state.specs.Controls.{control_of};
ghost use Rattle.control_state.specs.Begins.{begins_at};

use crate::book::Book;
use crate::client::Client;
use crate::control::Control;
use crate::round::{Phase, Round};
use crate::state::State;
use imsm_buffer::{CodecFault, MpbBuf};
use imsm_codec::MpbRef;
use std::alloc::Global;
use units::{CLIENTS, SECTOR_BYTES, Sector};

impl Book {
    /// A copy of a whole block of one sector, with the sector that it was read from.
    pub fn copy_of(alloc: Global, mpb: &MpbRef<'_>, anchor: Sector) -> Result<Book, CodecFault>
        requires book { IsBook (block_bytes mpb.now) }
        requires there { IsBlockOf anchor (block_bytes mpb.now) }
        ensures block { IfOk result (λ book. book.block.bytes ≡ block_bytes mpb.now) }
        ensures anchor { IfOk result (λ book. book.anchor ≡ anchor) }
    {
        let block = MpbBuf::from_ref(alloc, mpb, SECTOR_BYTES as u16)?;
        Ok(Book { block, anchor })
    }
}

/// A client that has all its operations left.
fn client(number: u8) -> Client
    ensures { result ≡ record { number = number; next = 0; work = None; read = blank_sector } }
{
    Client {
        number,
        next: 0,
        work: None,
        read: Sector([0; SECTOR_BYTES]),
    }
}

/// The clients, by their numbers.
fn clients() -> [Client; CLIENTS]
    ensures { result ≡ map (λ k. record { number = k; next = 0; work = None; read = blank_sector }) (range_with_len 0 16) }
{
    let mut clients = [client(0); CLIENTS];
    for k in 0..CLIENTS {
        clients[k] = client(k as u8);
    }
    clients
}

impl Control {
    /// Where a run begins: the volume is readonly, and each client has its operations. `spare` has the room of the next
    /// round's block.
    pub fn open(book: Book, spare: Book) -> Control
        ensures { (p : PlanSeen) → control_of p result ≡ begins_at p (laid_at book.anchor) }
    {
        let note = book.generation();
        Control {
            round: Round {
                book,
                next: spare,
                note,
                started: false,
                phase: Phase::Rest,
            },
            state: State::Readonly,
            clients: clients(),
            failed: None,
        }
    }
}
