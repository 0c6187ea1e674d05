//! A node with a flag of its own: whether it is up.

ghost use Rattle.std.specs.Prelude.{◌≡◌, true, false};
ghost use Rattle.seats.specs.Seat.{stays_up as stays_up_lem, survives as survives_lem};

use crate::acted::{Acted, Asked};
use crate::answer::Answer;
use node::{Node, NodeFault};
use std::alloc::AllocError;
use world_events::EventRefusal;

/// A node, and whether it is up. One that is up isn't down for itself.
#[derive(Drop)]
pub struct Seat<N: Node> {
    pub(crate) node: N,
    pub(crate) up: bool,
    ghost runs: { up ≡ true → (N.who node).down ≡ false },
}

/// A node stays up after a fault, unless it lacked memory or its store failed.
fn survives(fault: NodeFault) -> bool
    ensures { result ≡ survives_lem fault }
{
    !matches!(
        fault,
        NodeFault::OutOfMemory | NodeFault::StoreRefused | NodeFault::Down
    )
}

/// Whether a node that was up is up after a call that ended so.
fn stays_up<T>(ended: &Result<T, NodeFault>) -> bool
    ensures { result ≡ stays_up_lem ended.now }
{
    match ended {
        Ok(_) => true,
        Err(fault) => survives(*fault),
    }
}

impl<N: Node> Seat<N> {
    ghost use Rattle.std.specs.Prelude.{◌≡◌, true, false, is_ok};
    ghost use Rattle.seats.specs.Acted.{ask_of, letters_of, outputs_of, told};
    ghost use Rattle.seats.specs.Acts.{Acts, Settles, settled};
    ghost use Rattle.seats.specs.Occupant.{is_up, node_of};

    /// A seat of a node, which is up.
    pub fn new(node: N) -> Seat<N>
        requires { (N.who node).down ≡ false }
        ensures node { node_of result ≡ node }
        ensures up { is_up result ≡ true }
    {
        Seat { node, up: true }
    }

    /// Whether the node is up.
    pub fn is_up(&self) -> bool
        ensures { result ≡ is_up self.now }
    {
        self.up
    }

    /// The node.
    pub fn node(&self) -> &N
        ensures { result.now ≡ node_of self.now }
    {
        &self.node
    }

    /// The node, where its seat is let go.
    pub fn into_node(self) -> N
        ensures { result ≡ node_of self }
    {
        let Seat { node, up: _ } = self;
        node
    }

    /// The node does what it is asked. It crashes where it lacks memory or its store fails.
    pub fn act(&mut self, asked: Asked) -> Acted
        ensures { Acts self.old (ask_of asked.entry) (told result) (letters_of result) (outputs_of result) self.new }
    {
        if self.up {
            self.act_up(asked)
        } else {
            self.act_down(asked)
        }
    }

    /// The same of a node that is up.
    fn act_up(&mut self, asked: Asked) -> Acted
        requires { is_up self.old ≡ true }
        ensures { Acts self.old (ask_of asked.entry) (told result) (letters_of result) (outputs_of result) self.new }
    {
        match asked {
            Asked::Lead => {
                let given = self.node.lead();
                self.up = stays_up(&given);
                Acted::of_call(given)
            }
            Asked::Offer(value) => {
                let given = self.node.offer(value);
                self.up = stays_up(&given);
                Acted::of_call(given)
            }
            Asked::Tell(to, place) => {
                let given = self.node.tell(*to, place);
                self.up = stays_up(&given);
                Acted::of_call(given)
            }
            Asked::Receive(letter) => {
                let given = self.node.receive(letter);
                self.up = stays_up(&given);
                Acted::of_call(given)
            }
            Asked::ReceiveThenCrash(letter) => {
                let given = self.node.receive(letter);
                self.up = false;
                Acted::of_lost_call(given)
            }
            Asked::Release(now) => {
                let given = self.node.release(now);
                self.up = stays_up(&given);
                Acted::of_release(given)
            }
            Asked::Crash => {
                self.up = false;
                Acted::Finished
            }
            Asked::Restart => Acted::Refused(EventRefusal::NodeUp),
        }
    }

    /// The same of a node that crashed.
    fn act_down(&mut self, asked: Asked) -> Acted
        requires { is_up self.old ≡ false }
        ensures { Acts self.old (ask_of asked.entry) (told result) (letters_of result) (outputs_of result) self.new }
    {
        match asked {
            Asked::Restart => {
                let given = self.node.restart();
                self.up = given.is_ok();
                Acted::of_restart(given)
            }
            _ => Acted::Refused(EventRefusal::NodeDown),
        }
    }

    /// Ends what was done and answered so. Where there was no room for what the node gave, that is lost, and the node
    /// crashes.
    pub fn settle(&mut self, answer: Answer, kept: Result<(), AllocError>) -> Answer
        ensures answer { result ≡ settled answer (is_ok kept) }
        ensures settles { Settles answer (is_ok kept) self.old result self.new }
    {
        if kept.is_ok() {
            return answer;
        }
        if !answer.gives() {
            return answer;
        }
        self.up = false;
        Answer::Crashed
    }
}
