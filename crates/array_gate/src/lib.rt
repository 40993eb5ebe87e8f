//! The write gate of every run: a write leaves write-pending, and is acknowledged, only while dirty metadata is
//! durable on all working members. `array_model` has a run that meets the law, and one that doesn't.
//!
//! It rests on what holds of the metadata on the disks (`array_base`) and on what the journal tells of the control
//! state (`array_told`). It follows a run effect by effect, and looks at no turn.
#![tactic(auto)]

ghost use Rattle.array_model.specs.WriteGate.{WriteGate};
ghost use Rattle.array_base.specs.Base.{disks_by};
ghost use Rattle.array_base.specs.Laws.{OfEachWorld};
ghost use Rattle.array_gate.specs.Gate.{LiveAreDirty, WritersWait};

/// Every run meets the write gate law, whatever fails, is edited or is killed in it: at each `active`, and at each
/// moment while a volume is active or idle, its dirty bit is durable on every working member; a write is acknowledged
/// as done only in that time.
pub fn each_run_meets_the_write_gate()
    ensures { OfEachWorld (λ S P w. WriteGate S.start S.asked.ops w.log w.journal) }
{}

/// What the law rests on, in each world of a run: a volume that is active or idle is called dirty by every block that
/// may count, and a write that is under way is of a volume that waits for its round, is active, or is broken.
pub fn live_volumes_stay_dirty()
    ensures blocks { OfEachWorld (λ S P w. LiveAreDirty S (disks_by S w.log) w.control) }
    ensures writers { OfEachWorld (λ S P w. WritersWait S w.control) }
{}
