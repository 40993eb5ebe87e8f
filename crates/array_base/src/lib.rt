//! What holds of the metadata on the disks in every run of the machine: which blocks are known, which of them a disk
//! may hold that works, and how the round that goes on stands to them. Laws rest on it, and follow a run by it.
//!
//! The functions have the facts as their contracts and nothing to run.
#![tactic(auto)]

ghost use Rattle.array_base.specs.Base.{Base};
ghost use Rattle.array_base.specs.Laws.{OfEachWorld};
ghost use Rattle.array_base.specs.Metadata.{WorkingDisksHoldMetadata, FinishedTargetsHoldTheBlock};
ghost use Rattle.array_base.specs.Opening.{Opening};
ghost use Rattle.array_base.specs.Premises.{Premises};
ghost use Rattle.array_base.specs.Toy.{toy, toy_volumes};
ghost use Rattle.array_paths.specs.Ready.{Ready};
ghost use Rattle.std.specs.Prelude.{[]};

/// In each world of each run the base fact holds of the disks behind its log, and the control state is ready for turns
/// to be paths of effects: whatever calls failed, in part or wholly, and whoever took the turns.
pub fn each_world_has_the_base()
    ensures { OfEachWorld (λ S P w. Base S P w.log w.control × Ready S w.control) }
{}

/// In each world of each run a working disk holds nothing but containers' blocks that expect it, none of them older
/// than the last finished round's; only disks that count out are excepted, until the first round has finished.
pub fn working_disks_hold_metadata()
    ensures { OfEachWorld (λ S P w. WorkingDisksHoldMetadata S w) }
{}

/// In each world of each run a target of the round that goes on holds the round's block alone once it finished.
pub fn finished_targets_hold_the_block()
    ensures { OfEachWorld (λ S P w. FinishedTargetsHoldTheBlock S w) }
{}

/// What laws take as given can be met: a mirror of two disks beside a blank third one meets it, with a volume that was
/// started, and with an update on its way that adds the third.
pub fn the_premises_can_be_met()
    ensures { (P : Premises toy) × Opening toy P toy_volumes [] }
{}
