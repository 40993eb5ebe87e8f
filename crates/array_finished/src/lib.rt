//! The block of the last finished round: laws that say something of it for each such block say nothing where there is
//! none. In each run there is one at each moment, and no other.
//!
//! It rests on what holds of the metadata on the disks (`array_base`) and on what the journal tells of the control
//! state (`array_told`). It follows a run effect by effect, and looks at no turn.
#![tactic(auto)]

ghost use Rattle.std.specs.Prelude.{[]};
ghost use Rattle.array_model.specs.Moments.{Always};
ghost use Rattle.array_model.specs.Rounds.{HasFinished};
ghost use Rattle.array_model.specs.Small.{small_start};
ghost use Rattle.array_base.specs.Laws.{OfEachWorld};
ghost use Rattle.array_finished.specs.Small.{round_log, round_journal, unwritten_journal, two_blocks_log};

/// At each moment of each run, journal and log tell one block of the last finished round, or the newest at opening
/// where none has finished.
pub fn each_moment_has_a_finished_round()
    ensures { OfEachWorld (λ S P w. Always (HasFinished S.start) w.log w.journal) }
{}

/// A round of two disks has one block. One that ends before any disk was given its block has none, and one that gives
/// each disk another block of its generation has two.
pub fn example_of_a_finished_round()
    ensures meets { HasFinished small_start round_log round_journal }
    ensures unwritten { HasFinished small_start [] unwritten_journal → ⊥ }
    ensures two { HasFinished small_start two_blocks_log round_journal → ⊥ }
{}
