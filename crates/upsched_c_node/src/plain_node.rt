//! A node whose records are in memory: of each call it is known what it leaves.

ghost use Rattle.std.specs.Prelude.{◌≡◌, ◌<◌, ◌≤◌, Err, IfOk, length, option_copied};
ghost use Rattle.ballots.specs.Members.{member_count};
ghost use Rattle.ballots.specs.Rows.{at};
ghost use Rattle.node.specs.Calls.{answer};
ghost use Rattle.node.specs.Calls.Cause.{Receive, Lead, Offer, Tell};
ghost use Rattle.command_log.specs.Values.{values_from};
ghost use Rattle.command_log.specs.View.{AreRows};
ghost use Rattle.upsched_c_node.specs.States.{Answered, Released, outputs_of, started_as};

use acceptor::{PlainRecords, Records};
use ballots::{Bytes, Letter, MOST_PLACES, Members, NodeId, Place};
use map_release::Numbered;
use node::{Node, NodeFault, SchedNode};
use std::alloc::{AllocError, Global};
use std::marker::Model;

/// A member over records in memory, and of how many places it has released what it learned. Nothing fails there but for
/// want of memory, so that it is always up.
#[derive(Drop)]
pub struct PlainNode {
    node: SchedNode<PlainRecords>,
    released: u64,
}

impl Model for PlainNode {
    ghost use Rattle.std.specs.Prelude.{◌≡◌, ◌<◌, false};
    ghost use Rattle.upsched_c_node.specs.States.{NodeState, HasReleased, state_of};

    ghost Value = { NodeState };

    ghost view = { λ n. state_of n.node.parts };

    ghost invariant = { λ n. (n.node.parts.is_down ≡ false) × ((state_of n.node.parts).id < (state_of n.node.parts).members)
        × HasReleased n.released (state_of n.node.parts).view };
}

/// The same records. What they hold as learned stands at places of the log.
fn in_order(mut records: PlainRecords) -> Result<PlainRecords, AllocError>
    ensures same { IfOk result (λ same. same ≡ records) }
    ensures rows { IfOk result (λ same. AreRows 1 same.learned) }
{
    match records.votes_from(Place::new(MOST_PLACES).unwrap()) {
        Ok(_) => Ok(records),
        Err(_) => Err(AllocError),
    }
}

/// How many places from the first on are learned without a gap. So many are, and aren't looked at.
fn gapless_len(node: &SchedNode<PlainRecords>, known: u64) -> u64
    requires rows { AreRows 1 node.now.parts.knowledge.tally.learned }
    requires known { known ≤ length (values_from 1 node.now.parts.knowledge.tally.learned) }
    ensures { result ≡ length (values_from 1 node.now.parts.knowledge.tally.learned) }
{
    for len in known..MOST_PLACES {
        if node.learned(len + 1).is_none() {
            return len;
        }
    }
    MOST_PLACES
}

impl PlainNode {
    /// A node with a member's number, started over these records.
    pub fn over(
        alloc: Global,
        id: NodeId,
        members: Members,
        records: PlainRecords,
    ) -> Result<PlainNode, AllocError>
        requires { id < member_count members }
        ensures { IfOk result (λ n. n ≡ started_as id (member_count members) records) }
    {
        let mut node = SchedNode::new(alloc, id, members, in_order(records)?);
        match node.restart() {
            Ok(()) => Ok(PlainNode { node, released: 0 }),
            Err(_) => Err(AllocError),
        }
    }

    /// Its number among the members.
    pub fn id(&self) -> NodeId
        ensures same { result ≡ self.now.id }
        ensures member { result < self.now.members }
    {
        self.node.id()
    }

    /// The node itself.
    pub fn node(&self) -> &SchedNode<PlainRecords>
        ensures id { (⟦<SchedNode<PlainRecords> as Node>⟧.who result.now).id ≡ self.now.id }
        ensures values { ⟦<SchedNode<PlainRecords> as Node>⟧.values result.now ≡ self.now.view.tally.learned }
        ensures member { self.now.id < self.now.members }
    {
        &self.node
    }

    /// The value that is learned at a place.
    pub fn learned(&self, place: u64) -> Option<&Bytes>
        ensures { option_copied result ≡ at self.now.view.tally.learned place }
    {
        self.node.learned(place)
    }

    /// It is asked to lead.
    pub fn lead(&mut self) -> Result<Vec<Letter>, NodeFault>
        ensures { Answered self.old Lead (answer result) self.new }
    {
        self.node.lead()
    }

    /// A value is offered.
    pub fn offer(&mut self, value: &[u8]) -> Result<Vec<Letter>, NodeFault>
        ensures { Answered self.old (Offer value.now) (answer result) self.new }
    {
        self.node.offer(value)
    }

    /// A letter comes.
    pub fn receive(&mut self, letter: &Letter) -> Result<Vec<Letter>, NodeFault>
        ensures { Answered self.old (Receive letter.now) (answer result) self.new }
    {
        self.node.receive(letter)
    }

    /// It tells a node what it has learned, of the first 64 learned places from one on.
    pub fn tell(&self, to: NodeId, place: u64) -> Result<Vec<Letter>, NodeFault>
        ensures { Answered self.now (Tell to place) (answer result) self.now }
    {
        self.node.tell(to, place)
    }

    /// It releases outputs, without the MAPs that end at `now` or before. Where it has released all, it takes no memory.
    pub fn release(&mut self, alloc: Global, now: u64) -> Result<Vec<Numbered>, AllocError>
        ensures { Released self.old now (outputs_of result) self.new }
    {
        let all = gapless_len(&self.node, self.released);
        if all == self.released {
            return Ok(Vec::new(alloc));
        }
        match self.node.release(now) {
            Ok(outputs) => {
                self.released = all;
                Ok(outputs)
            }
            Err(_) => Err(AllocError),
        }
    }
}
