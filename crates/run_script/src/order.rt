//! What a line asks for.

use array_model::{OpKind, Turn};

/// What a line asks for, whatever the limits: an operation of a client, so many turns, or so many turns of a client.
#[derive(Clone, Copy)]
pub enum Order {
    Operation(u64, OpKind),
    Turns(Turn, u64),
    ClientTurns(u64, u64),
}
