//! The clients of a run.
ghost use Rattle.std.specs.Prelude.{◌≡◌, ◌+◌, ◌<◌, ◌∷◌, [], length, IfSome, IfNone};
ghost use Rattle.stage_machine.specs.Jobs as machine;
ghost use Rattle.control_state.specs.Events.{read_of};
ghost use Rattle.control_state.specs.Seen.{plan_setting, left_from, clients_of, locks};

use crate::job::Work;
use crate::plan::Plan;
use array_model::Op;
use units::{SECTOR_BYTES, Sector};

/// A client: its number, the place in the script from which on its operations weren't submitted, its job, and the sector
/// that its last read gave.
#[derive(Clone, Copy, Debug, PartialEq, Eq)]
pub struct Client {
    pub number: u8,
    pub next: u64,
    pub work: Option<Work>,
    pub read: Sector,
}

/// The first operation of a client from a place on.
pub fn next_op(ops: &[Op], client: u8, from: u64) -> Option<u64>
    ensures some { IfSome result (λ i. (i < length ops.now)
        × (left_from ops.now client from ≡ i ∷ left_from ops.now client (i + 1))) }
    ensures here { IfSome result (λ i. left_from ops.now client i ≡ left_from ops.now client from) }
    ensures none { IfNone result (left_from ops.now client from ≡ []) }
{
    for i in from as usize..ops.len() {
        if ops[i].client == client {
            return Some(i as u64);
        }
    }
    None
}

/// The place of a client's first operation from a place on, and the end of the operations where there is none.
pub fn next_place(ops: &[Op], client: u8, from: u64) -> u64
    ensures { left_from ops.now client result ≡ left_from ops.now client from }
{
    match next_op(ops, client, from) {
        Some(op) => op,
        None => ops.len() as u64,
    }
}

/// The sector that stands with the client at a place, if it is there.
pub fn read_of(clients: &[Client], k: u8) -> Sector
    ensures { result ≡ read_of clients.now k }
{
    match clients.get(k as usize) {
        Some(client) => client.read,
        None => Sector([0; SECTOR_BYTES]),
    }
}

/// Whether a client at a place other than one holds a row.
fn locks(plan: &Plan, row: u64, but: u8, at: usize, client: &Client) -> bool
    ensures { result ≡ locks plan.now row but at client.now }
{
    at != but as usize && plan.holds(row, client)
}

/// Whether a client other than one holds a row.
pub fn is_locked(plan: &Plan, clients: &[Client], row: u64, but: u8) -> bool
    ensures { result ≡ machine.is_locked (plan_setting plan.now) row but (clients_of plan.now clients.now) }
{
    for j in 0..clients.len() {
        if locks(plan, row, but, j, &clients[j]) {
            return true;
        }
    }
    false
}

/// Whether a client has a write without an answer.
pub fn has_write(plan: &Plan, clients: &[Client]) -> bool
    ensures { result ≡ machine.any_writing (plan_setting plan.now) (clients_of plan.now clients.now) }
{
    for client in clients {
        if plan.is_writing(client) {
            return true;
        }
    }
    false
}
