//! The state of a volume, and what the monitor does where no round is going on.
ghost use Rattle.std.specs.Prelude.{◌≡◌};
ghost use Rattle.stage_machine.specs.States as machine;
ghost use Rattle.control_state.specs.Seen.{state_of, move_of, pending_if};

use crate::event::ShortEvent;
use units::VolNo;

/// The state of the array of a volume, as the kernel has it.
#[derive(Clone, Copy, Debug, PartialEq, Eq)]
pub enum State {
    Readonly,
    ReadAuto,
    Clean,
    Pending,
    Active,
    Idle,
}

/// What the monitor does: nothing, a round, or a new state with its entry.
#[derive(Clone, Copy, Debug, PartialEq, Eq)]
pub enum Move {
    Nothing,
    Starts,
    Makes(State, ShortEvent),
}

/// The one volume that is started.
pub(crate) const VOLUME: VolNo = VolNo(0);

fn starts_if(due: bool) -> Move
    ensures { move_of result ≡ machine.starts_if due }
{
    if due { Move::Starts } else { Move::Nothing }
}

/// What the monitor does, by the state: `started` says that a round has ended, `recorded` is the dirty bit of the last
/// finished round and `dirty` that of the book.
pub fn decide(started: bool, state: State, recorded: bool, dirty: bool) -> Move
    ensures { move_of result ≡ machine.decide started (state_of state) recorded dirty }
{
    if !started {
        return Move::Starts;
    }
    match state {
        State::Readonly => Move::Makes(State::ReadAuto, ShortEvent::Ready),
        State::ReadAuto | State::Clean => starts_if(dirty),
        State::Pending => {
            if recorded {
                Move::Makes(State::Active, ShortEvent::Active)
            } else {
                starts_if(!dirty)
            }
        }
        State::Active => Move::Nothing,
        State::Idle => Move::Makes(State::Clean, ShortEvent::Clean),
    }
}

impl State {
    /// The dirty bit of a round that begins.
    pub fn next_dirty(self) -> bool
        ensures { result ≡ machine.next_dirty (state_of self) }
    {
        match self {
            State::Readonly | State::ReadAuto | State::Clean => false,
            State::Pending | State::Active | State::Idle => true,
        }
    }

    pub fn is_readonly(self) -> bool
        ensures { result ≡ machine.is_readonly (state_of self) }
    {
        match self {
            State::Readonly => true,
            State::ReadAuto | State::Clean | State::Pending | State::Active | State::Idle => false,
        }
    }

    /// The state after a write was asked for.
    pub fn asked(self) -> State
        ensures { state_of result ≡ machine.asked_state (state_of self) }
    {
        match self {
            State::Readonly => State::Readonly,
            State::ReadAuto | State::Clean | State::Pending => State::Pending,
            State::Active | State::Idle => State::Active,
        }
    }

    /// Whether asking for a write makes the volume write-pending from another state.
    pub fn is_woken(self) -> bool
        ensures { machine.asked_events (state_of self) ≡ pending_if result }
    {
        self == State::ReadAuto || self == State::Clean
    }
}
