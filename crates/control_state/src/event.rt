//! What a turn enters. No sector is moved: a value that was read stands with its client.
ghost use Rattle.std.specs.Prelude.{◌≡◌};
ghost use Rattle.control_state.specs.Events.{event_of};

use crate::state::VOLUME;
use array_model::{Answer, Event};

/// An event that tells no value.
#[derive(Clone, Copy, Debug, PartialEq, Eq)]
pub enum ShortEvent {
    Begin(u32),
    End(u32),
    Ready,
    Active,
    Clean,
    Submit(u64),
    Pending,
    Done(u64),
    Past(u64),
    Idle,
}

/// The events that a turn enters. `Value` is the answer of an operation: the sector that stands with a client.
#[derive(Clone, Copy, Debug, PartialEq, Eq)]
pub enum Events {
    Zero,
    One(ShortEvent),
    Two(ShortEvent, ShortEvent),
    Value(u64, u8),
}

impl ShortEvent {
    /// The event as a journal has it.
    pub fn event(self) -> Event
        ensures { result ≡ event_of self }
    {
        match self {
            ShortEvent::Begin(generation) => Event::Begin(generation),
            ShortEvent::End(generation) => Event::End(generation),
            ShortEvent::Ready => Event::Ready(VOLUME),
            ShortEvent::Active => Event::Active(VOLUME),
            ShortEvent::Clean => Event::Clean(VOLUME),
            ShortEvent::Submit(op) => Event::Submit(op),
            ShortEvent::Pending => Event::Pending(VOLUME),
            ShortEvent::Done(op) => Event::Ack(op, Answer::Done),
            ShortEvent::Past(op) => Event::Ack(op, Answer::Past),
            ShortEvent::Idle => Event::Idle(VOLUME),
        }
    }
}
