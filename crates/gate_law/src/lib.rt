//! The write gate law, proved of every run of the machine: a write leaves write-pending, and is acknowledged, only
//! while dirty metadata is durable on every working member.
//!
//! The one function has the law as its contract and nothing to run. `stage_law` promises it of a stage; `cause_law`,
//! `rest_law` and `row_law` use facts of its proof.
#![tactic(auto)]

ghost use Rattle.array_model.specs.WriteGate.{WriteGate};
ghost use Rattle.stage_machine.specs.EachRun.{OfEachFirstRun};

/// Every run of the machine whose generations fit their four bytes meets the write gate law: at each `active`, and at
/// each moment while the volume is active, the dirty bit is durable on every working member, and a write is
/// acknowledged only while the volume is active.
pub fn gate_law()
    ensures { OfEachFirstRun (λ S w. WriteGate S.start S.asked.ops w.log w.journal) }
{}
