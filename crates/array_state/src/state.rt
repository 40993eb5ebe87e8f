//! States, and which follows which.
ghost use Rattle.std.specs.Prelude.{◌≡◌};
ghost use Rattle.array_state.specs.Table.{table, entry_in};

/// A state of a volume's array. The first three are of volumes that aren't started.
#[derive(Clone, Copy, Debug, PartialEq, Eq)]
pub enum ArrayState {
    Clear,
    Inactive,
    Suspended,
    Readonly,
    ReadAuto,
    Clean,
    Active,
    WritePending,
    ActiveIdle,
}

/// What lets a state go on: a word that is written to it, a write that asks for the volume, or a quiet time.
#[derive(Clone, Copy, Debug, PartialEq, Eq)]
pub enum Cause {
    ReadAutoWritten,
    WriteAsked,
    ActiveWritten,
    Quiet,
    CleanWritten,
}

/// The state that follows; none where the table has no entry.
pub fn next(state: ArrayState, cause: Cause) -> Option<ArrayState>
    ensures { result ≡ entry_in table state cause }
{
    match (state, cause) {
        (ArrayState::Readonly, Cause::ReadAutoWritten) => Some(ArrayState::ReadAuto),
        (ArrayState::ReadAuto | ArrayState::Clean | ArrayState::WritePending, Cause::WriteAsked) =>
            { Some(ArrayState::WritePending) }
        (ArrayState::WritePending, Cause::ActiveWritten)
        | (ArrayState::Active | ArrayState::ActiveIdle, Cause::WriteAsked | Cause::ActiveWritten) =>
            { Some(ArrayState::Active) }
        (ArrayState::Active | ArrayState::ActiveIdle, Cause::Quiet) => Some(ArrayState::ActiveIdle),
        (
            ArrayState::ReadAuto | ArrayState::Clean | ArrayState::Active | ArrayState::ActiveIdle,
            Cause::CleanWritten,
        ) => Some(ArrayState::Clean),
        _ => None,
    }
}
