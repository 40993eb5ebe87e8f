//! What follows of the table and of the words.
ghost use Rattle.std.specs.Prelude.{◌≡◌, Some, None};
ghost use Rattle.array_machine.specs.States.{IsReadonly, IsReadAuto, IsClean, IsPending, IsActive, IsIdle, ToReady, ToPending, ToActive, ToActiveAgain, ToIdle, ToClean, state_after};
ghost use Rattle.array_state.specs.declared.state.ArrayState.{ArrayState};
ghost use Rattle.array_state.specs.declared.state.ArrayState.TheVariants.{Clear, Readonly, WritePending};
ghost use Rattle.array_state.specs.declared.state.Cause.{Cause};
ghost use Rattle.array_state.specs.declared.state.Cause.TheVariants.{WriteAsked, Quiet, CleanWritten};
ghost use Rattle.array_state.specs.Seen.{kernel_state, cause_of};
ghost use Rattle.array_state.specs.Table.{entry_in, table};
ghost use Rattle.array_state.specs.Words.{all_states, first_spelled, spelled};

/// Each state's word is read as that state.
pub fn words_are_read_back()
    ensures { (s : ArrayState) → first_spelled all_states (spelled s) ≡ Some s }
{}

/// The steps of the whole machine are entries of the table: it makes a volume ready where it is readonly, has it wait
/// where it is read-auto or clean, active where it waits or fell idle, idle where it is active, and clean where it is
/// idle. A volume that waits doesn't fall idle, one that is readonly isn't made clean, and one that isn't there takes
/// nothing.
pub fn the_table_has_each_step()
    ensures ready { entry_in table (kernel_state IsReadonly) (cause_of ToReady) ≡ Some (kernel_state (state_after ToReady)) }
    ensures waits { entry_in table (kernel_state IsReadAuto) (cause_of ToPending)
        ≡ Some (kernel_state (state_after ToPending)) }
    ensures waits_again { entry_in table (kernel_state IsClean) (cause_of ToPending)
        ≡ Some (kernel_state (state_after ToPending)) }
    ensures goes { entry_in table (kernel_state IsPending) (cause_of ToActive)
        ≡ Some (kernel_state (state_after ToActive)) }
    ensures goes_again { entry_in table (kernel_state IsIdle) (cause_of ToActiveAgain)
        ≡ Some (kernel_state (state_after ToActiveAgain)) }
    ensures idle { entry_in table (kernel_state IsActive) (cause_of ToIdle) ≡ Some (kernel_state (state_after ToIdle)) }
    ensures clean { entry_in table (kernel_state IsIdle) (cause_of ToClean)
        ≡ Some (kernel_state (state_after ToClean)) }
    ensures holds { entry_in table WritePending Quiet ≡ None }
    ensures shut { entry_in table Readonly CleanWritten ≡ None }
    ensures closed { entry_in table Readonly WriteAsked ≡ None }
    ensures gone { (c : Cause) → entry_in table Clear c ≡ None }
{}
