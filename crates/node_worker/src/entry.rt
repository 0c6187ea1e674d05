//! What a node's worker keeps of one cause.

ghost use Rattle.std.specs.Prelude.{◌≡◌, IfOk, IsTrue, ◌↔◌};

use crate::compare::{are_same_letters, are_same_outputs};
use ballots::{Bytes, Letter, NodeId};
use map_release::Numbered;
use node::NodeFault;
use std::alloc::{AllocError, Global};
use std::marker::Model;
use world_events::EventRefusal;

/// What a node is asked from outside.
#[derive(Drop)]
pub enum Ask {
    /// To lead.
    Lead,
    /// To propose a value.
    Offer(Bytes),
    /// To tell a node what is learned from a place on.
    Tell(NodeId, u64),
    /// To release what it can, at a minislot time.
    Release(u64),
    Crash,
    Restart,
}

/// What makes a node act: it is asked, or a letter comes that was sent.
#[derive(Drop)]
pub enum Cause {
    Ask(Ask),
    Letter(Letter),
}

/// How a cause ended.
#[derive(Clone, Copy, Debug, PartialEq, Eq)]
pub enum Ended {
    Whole,
    /// The node declined, and changed nothing.
    Fault(NodeFault),
    /// The node is down, or up where it was to restart, and nothing changed.
    Refused(EventRefusal),
    /// The node crashed before its write.
    FailedBefore,
    /// The node crashed, its write there or not.
    FailedEither,
    /// The call was whole, but there was no room for its letters or outputs: they are lost, and the
    /// node crashed.
    Lost,
}

/// A cause with what came of it.
#[derive(Drop)]
pub struct Entry {
    pub cause: Cause,
    pub ended: Ended,
    pub letters: Vec<Letter>,
    pub outputs: Vec<Numbered>,
}

impl Model for Entry {
    ghost use Rattle.node_worker.specs.Entries.{EntryView};

    ghost Value = { EntryView };

    ghost view = { λ e. record { cause = e.cause; ended = e.ended; letters = e.letters.items; outputs = e.outputs.items } };
}

/// An entry of a node, to be recorded.
#[derive(Drop)]
pub struct Done {
    pub node: NodeId,
    pub entry: Entry,
}

/// An entry of a node, recorded.
pub type Record = Done;

impl Ask {
    /// The same again.
    pub fn copy(&self, alloc: Global) -> Result<Ask, AllocError>
        ensures { IfOk result (λ copy. copy ≡ self.now) }
    {
        match self {
            Ask::Lead => Ok(Ask::Lead),
            Ask::Offer(value) => Ok(Ask::Offer(value.copy(alloc)?)),
            Ask::Tell(to, place) => Ok(Ask::Tell(*to, *place)),
            Ask::Release(now) => Ok(Ask::Release(*now)),
            Ask::Crash => Ok(Ask::Crash),
            Ask::Restart => Ok(Ask::Restart),
        }
    }

    /// Whether two are the same.
    pub fn is_same(&self, other: &Ask) -> bool
        ensures { IsTrue result ↔ (self.now ≡ other.now) }
    {
        match (self, other) {
            (Ask::Lead, Ask::Lead) => true,
            (Ask::Offer(a), Ask::Offer(b)) => a.as_slice() == b.as_slice(),
            (Ask::Tell(a, from), Ask::Tell(b, on)) => *a == *b && *from == *on,
            (Ask::Release(a), Ask::Release(b)) => *a == *b,
            (Ask::Crash, Ask::Crash) => true,
            (Ask::Restart, Ask::Restart) => true,
            _ => false,
        }
    }
}

impl Cause {
    /// The same again.
    pub fn copy(&self, alloc: Global) -> Result<Cause, AllocError>
        ensures { IfOk result (λ copy. copy ≡ self.now) }
    {
        match self {
            Cause::Ask(ask) => Ok(Cause::Ask(ask.copy(alloc)?)),
            Cause::Letter(letter) => Ok(Cause::Letter(letter.copy(alloc)?)),
        }
    }

    /// Whether two are the same.
    pub fn is_same(&self, other: &Cause) -> bool
        ensures { IsTrue result ↔ (self.now ≡ other.now) }
    {
        match (self, other) {
            (Cause::Ask(a), Cause::Ask(b)) => a.is_same(b),
            (Cause::Letter(a), Cause::Letter(b)) => a.is_same(b),
            _ => false,
        }
    }
}

impl Entry {
    /// What made the node act.
    pub fn cause(&self) -> &Cause
        ensures { result.now ≡ self.now.cause }
    {
        &self.cause
    }

    /// The letters that it sent.
    pub fn letters(&self) -> &[Letter]
        ensures { result.now ≡ self.now.letters }
    {
        self.letters.as_slice()
    }

    /// The outputs that it released.
    pub fn outputs(&self) -> &[Numbered]
        ensures { result.now ≡ self.now.outputs }
    {
        self.outputs.as_slice()
    }

    /// Whether two are the same.
    pub fn is_same(&self, other: &Entry) -> bool
        ensures { IsTrue result ↔ (self.now ≡ other.now) }
    {
        self.cause.is_same(&other.cause)
            && self.ended == other.ended
            && are_same_letters(self.letters.as_slice(), other.letters.as_slice())
            && are_same_outputs(self.outputs.as_slice(), other.outputs.as_slice())
    }
}
