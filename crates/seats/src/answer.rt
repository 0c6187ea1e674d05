//! What a run reports of its events.

use map_release::Numbered;
use minislot_time::Slot;
use modem::{Heard, Sending, WantFault};
use node::NodeFault;
use std::alloc::{AllocError, AllocFailed};
use std::marker::Model;
use thiserror::Error;
use world_events::EventRefusal;

/// The answer to an event.
#[derive(Clone, Copy, Debug, PartialEq, Eq)]
pub enum Answer {
    /// So many letters were sent.
    Sent(usize),
    Finished,
    /// So many outputs were released.
    Released(usize),
    /// What the modem made of the output.
    Heard(Heard),
    /// What the modem sends, if anything.
    Ticked(Option<Sending>),
    /// The modem's refusal of a want.
    WantRefused(WantFault),
    /// The event changed nothing.
    Refused(EventRefusal),
    /// The node's fault. Want of memory and the faults of its store are a crash.
    Fault(NodeFault),
    /// There was no room for the letters or outputs of a whole call: they are lost, and the node
    /// crashed.
    Crashed,
}

impl Answer {
    ghost use Rattle.std.specs.Prelude.{◌≡◌};
    ghost use Rattle.seats.specs.Gives.{gives};

    /// Whether letters or outputs go out with it.
    pub(crate) fn gives(self) -> bool
        ensures { result ≡ gives self }
    {
        match self {
            Answer::Sent(count) => count > 0,
            Answer::Released(count) => count > 0,
            _ => false,
        }
    }
}

/// One answer an event, in order.
#[derive(Drop)]
pub struct Report {
    answers: Vec<Answer>,
}

impl Model for Report {
    ghost use Rattle.std.specs.Prelude.{List};
    ghost use Rattle.seats.specs.declared.answer.Answer.{Answer};

    ghost Value = { List Answer };

    ghost view = { λ r. r.answers.items };
}

impl Report {
    ghost use Rattle.std.specs.Prelude.{◌≡◌};

    pub fn new(answers: Vec<Answer>) -> Report
        ensures { result ≡ answers.items }
    {
        Report { answers }
    }

    pub fn answers(&self) -> &[Answer]
        ensures { result.now ≡ self.now }
    {
        &self.answers
    }
}

/// An output that a node released.
#[derive(Debug, Drop)]
pub struct ReleasedOutput {
    pub node: usize,
    pub numbered: Numbered,
}

/// What a modem sent at a minislot of a channel.
#[derive(Clone, Copy, Debug, PartialEq, Eq)]
pub struct Transmission {
    pub modem: usize,
    pub channel: u8,
    pub slot: Slot,
    pub sending: Sending,
}

/// There is no room for a world, or for the answers of a run.
#[derive(Clone, Copy, Debug, PartialEq, Eq, Error)]
#[error("out of memory")]
pub struct OutOfMemory;

impl From<AllocError> for OutOfMemory {
    fn from(_: AllocError) -> Self {
        OutOfMemory
    }
}

impl<T: Drop> From<AllocFailed<T>> for OutOfMemory {
    fn from(_: AllocFailed<T>) -> Self {
        OutOfMemory
    }
}
