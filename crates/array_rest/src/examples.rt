//! A run that has come to rest, and one that hasn't.
ghost use Rattle.std.specs.Prelude.{[], ◌∷◌};
ghost use Rattle.array_machine.specs.Rounds.{Ended};
ghost use Rattle.array_machine.specs.Machine.{Actor};
ghost use Rattle.array_rows.specs.Runs.{run_of, stopping, unbounded};
ghost use Rattle.array_rows.specs.SmallSettings.{setting};
ghost use Rattle.array_rest.specs.Rests.{IsAtRest};
ghost use Rattle.array_rest.specs.Small.{asked_mirror};

/// Behind one write and one read on a mirror, with all they bring about, the run rests. It doesn't where it is cut off
/// in the middle of its last round.
pub fn example_of_rest()
    ensures rests { (ends : Actor → Ended)
        → IsAtRest (setting asked_mirror) (run_of asked_mirror unbounded []).world.control ends }
    ensures goes_on { (ends : Actor → Ended)
        → IsAtRest (setting asked_mirror) (run_of asked_mirror (stopping 15) []).world.control ends → ⊥ }
{}
