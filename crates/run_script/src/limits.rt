//! A script with one more order, within the limits.
ghost use Rattle.std.specs.Prelude.{◌≡◌, ◌+◌, ◌++◌, length, replicate, OnOk, IfOk, IfErr, Some, None};
ghost use Rattle.run_script.specs.Limits.{client_limit, limit_of, turns_limit, Refuses};
ghost use Rattle.run_script.specs.Scripts.{with_order};
ghost use Rattle.run_script.specs.declared.order.Order.TheVariants.{Operation};
ghost use Rattle.run_script.specs.declared.fault.ScriptFault.TheVariants.{Memory};

use crate::fault::{LimitKind, ScriptFault};
use crate::order::Order;
use array_model::{Op, OpKind, Script, Turn};
use units::CLIENTS;

/// So many operations, and no more. The number is this project's own.
pub const MAX_OPS: usize = 65_536;

/// So many turns, and no more. The number is this project's own.
pub const MAX_TURNS: u64 = 1_048_576;

/// The highest number of a client.
pub const MAX_CLIENT: u64 = CLIENTS as u64 - 1;

fn client_of(client: u64) -> Result<u8, ScriptFault>
    ensures ok { IfOk result (λ number. (number ≡ client) × (client_limit client ≡ None)) }
    ensures err { IfErr result (λ fault. client_limit client ≡ Some fault) }
{
    if client > MAX_CLIENT {
        return Err(ScriptFault::Limit(LimitKind::Clients, client));
    }
    Ok(client as u8)
}

fn push_op(script: &mut Script, client: u64, kind: OpKind) -> Result<(), ScriptFault>
    ensures ok { OnOk result (script.new ≡ with_order script.old (Operation client kind)) }
    ensures within { OnOk result (limit_of script.old (Operation client kind) ≡ None) }
    ensures err { IfErr result (λ fault. Refuses (limit_of script.old (Operation client kind)) fault) }
{
    if script.ops().len() >= MAX_OPS {
        return Err(ScriptFault::Limit(LimitKind::Ops, MAX_OPS as u64 + 1));
    }
    let client = client_of(client)?;
    script
        .push_op(Op { client, kind })
        .map_err(|_| ScriptFault::Memory)
}

fn push_all(script: &mut Script, turn: Turn, count: u64) -> Result<(), ScriptFault>
    ensures ok { OnOk result (script.new ≡ record script.old { turns = script.old.turns ++ replicate count turn }) }
    ensures err { IfErr result (λ fault. fault ≡ Memory) }
{
    for _ in 0..count {
        script.push_turn(turn).map_err(|_| ScriptFault::Memory)?;
    }
    Ok(())
}

fn push_turns(script: &mut Script, turn: Turn, count: u64) -> Result<(), ScriptFault>
    ensures ok { OnOk result (script.new ≡ record script.old { turns = script.old.turns ++ replicate count turn }) }
    ensures within { OnOk result (turns_limit (length script.old.turns + count) ≡ None) }
    ensures err { IfErr result (λ fault. Refuses (turns_limit (length script.old.turns + count)) fault) }
{
    let turns = script.turns().len() as u64;
    if turns.saturating_add(count) > MAX_TURNS {
        return Err(ScriptFault::Limit(LimitKind::Turns, MAX_TURNS + 1));
    }
    push_all(script, turn, count)
}

/// Takes one more order. A limit is tested before any of it is taken.
pub fn push_order(script: &mut Script, order: Order) -> Result<(), ScriptFault>
    ensures ok { OnOk result (script.new ≡ with_order script.old order) }
    ensures within { OnOk result (limit_of script.old order ≡ None) }
    ensures err { IfErr result (λ fault. Refuses (limit_of script.old order) fault) }
{
    match order {
        Order::Operation(client, kind) => push_op(script, client, kind),
        Order::Turns(turn, count) => push_turns(script, turn, count),
        Order::ClientTurns(client, count) => {
            let turn = Turn::Client(client_of(client)?);
            push_turns(script, turn, count)
        }
    }
}
