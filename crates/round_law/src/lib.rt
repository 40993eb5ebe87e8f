//! The last finished round, looked up in journal and log, of every run of the machine: at each moment there is one,
//! and no other; each round's block is that one's, edited, and a container's, and durable on every working member
//! where the round ends.
//!
//! So no law holds for want of a block. The one function has this as its contract and nothing to run. `stage_law`
//! promises it of a stage.
#![tactic(auto)]

ghost use Rattle.array_model.specs.Moments.{Always};
ghost use Rattle.array_model.specs.Events.{AtEach};
ghost use Rattle.array_model.specs.Rounds.{HasFinished, IsFinished, BeginsContainer, EndsOnWorking};
ghost use Rattle.array_model.specs.RoundBlocks.{RoundsAreRenewed};
ghost use Rattle.stage_machine.specs.EachRun.{OfEachRun, OfEachFirstRun};

/// At each moment of every run whose generations fit their four bytes journal and log name one block of the last
/// finished round, and at its end that is the block which the machine keeps as such. The block of each round that
/// begins is a container's, and where a round ends its generation is durable on every working member. Where the
/// script is of clients below 16 and volume 0, the block of each round that begins is what the setting's edit makes of
/// that of the last finished round, with the round's generation, and with volume 0 dirty where its state needs that.
pub fn round_law()
    ensures one { OfEachRun (λ S w. Always (HasFinished S.start) w.log w.journal) }
    ensures containers { OfEachRun (λ S w.
        AtEach (λ front e. BeginsContainer S.start w.log e.stamp e.event) w.journal) }
    ensures endings { OfEachRun (λ S w. EndsOnWorking S.start w.log w.journal) }
    ensures renewed { OfEachFirstRun (λ S w. RoundsAreRenewed S.renew S.start S.asked.ops w.log w.journal) }
    ensures kept { OfEachRun (λ S w. IsFinished S.start w.log w.journal w.control.round.last) }
{}
