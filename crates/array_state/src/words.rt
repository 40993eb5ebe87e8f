//! The words of states.
ghost use Rattle.std.specs.Prelude.{◌≡◌};
ghost use Rattle.array_state.specs.Words.{spelled, all_states, first_spelled};

use crate::state::ArrayState;

/// The word of a state.
pub fn word_of(state: ArrayState) -> &'static [u8]
    ensures { result.now ≡ spelled state }
{
    match state {
        ArrayState::Clear => b"clear",
        ArrayState::Inactive => b"inactive",
        ArrayState::Suspended => b"suspended",
        ArrayState::Readonly => b"readonly",
        ArrayState::ReadAuto => b"read-auto",
        ArrayState::Clean => b"clean",
        ArrayState::Active => b"active",
        ArrayState::WritePending => b"write-pending",
        ArrayState::ActiveIdle => b"active-idle",
    }
}

/// The state of a word; none where no state has it.
pub fn state_of(word: &[u8]) -> Option<ArrayState>
    ensures { result ≡ first_spelled all_states word.now }
{
    if word == word_of(ArrayState::Clear) {
        Some(ArrayState::Clear)
    } else if word == word_of(ArrayState::Inactive) {
        Some(ArrayState::Inactive)
    } else if word == word_of(ArrayState::Suspended) {
        Some(ArrayState::Suspended)
    } else if word == word_of(ArrayState::Readonly) {
        Some(ArrayState::Readonly)
    } else if word == word_of(ArrayState::ReadAuto) {
        Some(ArrayState::ReadAuto)
    } else if word == word_of(ArrayState::Clean) {
        Some(ArrayState::Clean)
    } else if word == word_of(ArrayState::Active) {
        Some(ArrayState::Active)
    } else if word == word_of(ArrayState::WritePending) {
        Some(ArrayState::WritePending)
    } else if word == word_of(ArrayState::ActiveIdle) {
        Some(ArrayState::ActiveIdle)
    } else {
        None
    }
}
