//! What each node of `live` is asked, and what its worker waits for.

ghost use Rattle.std.specs.Prelude.{◌≡◌, ◌<◌, ◌+◌};

use crate::following::Following;
use crate::inbox::Inbox;
use ballots::{Bytes, Members, NodeId};
use node::Node;
use node_worker::{Ask, Carrier, Cause, Gate, Plant, Point, Record};
use seats::OutOfMemory;
use std::alloc::Global;
use std::sync::{Mutex, Wait};
use std::thread;
use std::time::{Clock, Duration};
use std::vec::IntoIter;

/// What the node that leads is asked beside its letters: to lead, then to propose each value once a majority follows
/// it, and last to release.
#[derive(Drop)]
pub struct Agenda {
    is_asked_to_lead: bool,
    following: Following,
    values: IntoIter<Bytes>,
    is_asked_to_release: bool,
}

impl Agenda {
    /// Nothing was asked yet.
    pub fn new(node: NodeId, members: Members, values: Vec<Bytes>) -> Agenda {
        Agenda {
            is_asked_to_lead: false,
            following: Following::new(node, members),
            values: values.into_iter(),
            is_asked_to_release: false,
        }
    }

    // What comes before all letters.
    fn first(&mut self) -> Option<Ask> {
        if self.is_asked_to_lead {
            return None;
        }
        self.is_asked_to_lead = true;
        Some(Ask::Lead)
    }

    // What comes where no letter is left.
    fn next(&mut self, records: &[Record]) -> Option<Ask> {
        if !self.following.is_majority(records) {
            return None;
        }
        if let Some(value) = self.values.next() {
            return Some(Ask::Offer(value));
        }
        if self.is_asked_to_release {
            return None;
        }
        self.is_asked_to_release = true;
        Some(Ask::Release(0))
    }
}

/// Gives a node the letters to it in the order in which they were sent, each once, and one node its agenda too.
#[derive(Drop)]
pub struct LiveCarrier {
    alloc: Global,
    // The turns that are left, of those that it was given.
    turns: u64,
    given: u64,
    inbox: Inbox,
    agenda: Option<Agenda>,
}

impl LiveCarrier {
    /// A carrier of a node with so many turns.
    pub fn new(alloc: Global, node: NodeId, turns: u64, agenda: Option<Agenda>) -> LiveCarrier
        ensures turns { result.turns ≡ turns }
        ensures given { result.given ≡ turns }
    {
        LiveCarrier {
            alloc,
            turns,
            given: turns,
            inbox: Inbox::new(node),
            agenda,
        }
    }

    // What is asked before all letters.
    fn first_ask(&mut self) -> Option<Ask>
        ensures turns { self.new.turns ≡ self.old.turns }
        ensures given { self.new.given ≡ self.old.given }
    {
        match &mut self.agenda {
            Some(agenda) => agenda.first(),
            None => None,
        }
    }

    // What is asked where no letter is left.
    fn next_ask(&mut self, records: &[Record]) -> Option<Ask>
        ensures turns { self.new.turns ≡ self.old.turns }
        ensures given { self.new.given ≡ self.old.given }
    {
        match &mut self.agenda {
            Some(agenda) => agenda.next(records),
            None => None,
        }
    }
}

impl Carrier for LiveCarrier {
    ghost left = { λ c. c.turns };

    ghost given = { λ c. c.given };

    fn turns(&self) -> u64 {
        self.turns
    }

    fn pick(&mut self, records: &[Record]) -> Result<Option<Cause>, OutOfMemory> {
        self.turns -= 1;
        if let Some(ask) = self.first_ask() {
            return Ok(Some(Cause::Ask(ask)));
        }
        if let Some(letter) = self.inbox.next(records) {
            return Ok(Some(Cause::Letter(letter.copy(self.alloc)?)));
        }
        match self.next_ask(records) {
            Some(ask) => Ok(Some(Cause::Ask(ask))),
            None => Ok(None),
        }
    }
}

/// Lets a worker sleep a millisecond where it had nothing to do, and holds it nowhere else.
pub struct LiveGate;

impl<N: Node> Gate<N> for LiveGate {
    fn pass<R: Wait + Clock>(&self, rt: &R, _node: NodeId, point: Point, _plant: &Mutex<Plant<N>>) {
        if point == Point::Idle {
            thread::sleep(rt, Duration::from_millis(1));
        }
    }
}
