//! What a node is asked, and what comes of it.

ghost use Rattle.std.specs.Prelude.{◌≡◌};
ghost use Rattle.seats.specs.Acted.{come_of, told};
ghost use Rattle.seats.specs.declared.acted.Acted.TheVariants as acted;

use crate::answer::Answer;
use ballots::{Letter, NodeId};
use map_release::Numbered;
use node::NodeFault;
use world_events::EventRefusal;

/// What a node is asked.
#[derive(Clone, Copy)]
pub enum Asked<'a> {
    /// To lead.
    Lead,
    /// To propose a value.
    Offer(&'a [u8]),
    /// To tell a node what is learned from a place on.
    Tell(&'a NodeId, u64),
    /// To take a letter.
    Receive(&'a Letter),
    /// To take a letter, of which the answer is thrown away, and to crash.
    ReceiveThenCrash(&'a Letter),
    /// To release what it can, at a minislot time.
    Release(u64),
    Crash,
    /// To start over its records, where it crashed.
    Restart,
}

/// What came of it, with what is to go out.
#[derive(Drop)]
pub enum Acted {
    /// The letters of a call.
    Sent(Vec<Letter>),
    /// The outputs of a release.
    Released(Vec<Numbered>),
    Finished,
    /// The node is down, or up where it was to restart, and nothing changed.
    Refused(EventRefusal),
    /// The node's fault. Want of memory and the faults of its store are a crash.
    Fault(NodeFault),
}

impl Acted {
    /// What comes of a call whose letters go out.
    pub(crate) fn of_call(given: Result<Vec<Letter>, NodeFault>) -> Acted
        ensures { result ≡ come_of acted.Sent given }
    {
        match given {
            Ok(letters) => Acted::Sent(letters),
            Err(fault) => Acted::Fault(fault),
        }
    }

    /// What comes of a call whose letters are thrown away.
    pub(crate) fn of_lost_call(given: Result<Vec<Letter>, NodeFault>) -> Acted
        ensures { result ≡ come_of (λ letters. acted.Finished) given }
    {
        match given {
            Ok(_) => Acted::Finished,
            Err(fault) => Acted::Fault(fault),
        }
    }

    /// What comes of a release.
    pub(crate) fn of_release(given: Result<Vec<Numbered>, NodeFault>) -> Acted
        ensures { result ≡ come_of acted.Released given }
    {
        match given {
            Ok(outputs) => Acted::Released(outputs),
            Err(fault) => Acted::Fault(fault),
        }
    }

    /// What comes of a restart.
    pub(crate) fn of_restart(given: Result<(), NodeFault>) -> Acted
        ensures { result ≡ come_of (λ done. acted.Finished) given }
    {
        match given {
            Ok(()) => Acted::Finished,
            Err(fault) => Acted::Fault(fault),
        }
    }

    /// The answer, if there is room for what the node gave.
    pub fn told(&self) -> Answer
        ensures { result ≡ told self.now }
    {
        match self {
            Acted::Sent(letters) => Answer::Sent(letters.len()),
            Acted::Released(outputs) => Answer::Released(outputs.len()),
            Acted::Finished => Answer::Finished,
            Acted::Refused(refusal) => Answer::Refused(*refusal),
            Acted::Fault(fault) => Answer::Fault(*fault),
        }
    }
}
