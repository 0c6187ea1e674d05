//! A node in memory, the store of its writes, and what waits to be stored.

ghost use Rattle.std.specs.Prelude.{◌≡◌, ◌<◌, false, IfOk, IsTrue};
ghost use Rattle.acceptor.specs.Content.{AreRowsFrom};
ghost use Rattle.acceptor.specs.Found.{Holds};
ghost use Rattle.kept_node.specs.Noted.{HasKept, NotesTo};
ghost use Rattle.kept_node.specs.Told.{IsWriteOfCall};
ghost use Rattle.node.specs.Calls.{answer};
ghost use Rattle.node.specs.View.{View};
ghost use Rattle.node.specs.View.Standing.{Running};

use crate::noted::NotedWrites;
use crate::store::WriteStore;
use ballots::{Bytes, Letter, Members, NodeId, Place};
use map_release::Numbered;
use node::{Node, NodeFault};
use node_writes::{WriteBytes, no_write};
use proposer::Role;
use seats::PlainNode;
use std::alloc::{AllocError, Global};
use told_writes::{place_open, write_after};

/// A node that is up, with its records in memory, beside the store that is to hold what these hold. The writes of its
/// calls wait until they are stored together. One that finds no room can't be stored, nor any behind it.
#[derive(Drop)]
pub struct KeptNode<W: WriteStore> {
    pub(crate) node: PlainNode,
    pub(crate) noted: NotedWrites<W>,
    ghost up: { (⟦<PlainNode as Node>⟧.who node).down ≡ false },
    ghost some: { 0 < (⟦<PlainNode as Node>⟧.who node).members },
    ghost waits: { NotesTo W.WriteStore noted (⟦<PlainNode as Node>⟧.who node).id node.parts.records },
}

/// The write of a call that was answered so, where its letter left a place open.
fn write_of<N: Node>(
    node: &N,
    place: Option<Place>,
    given: &Result<Vec<Letter>, NodeFault>,
) -> WriteBytes
    ensures { IsWriteOfCall (N.who node.now).id (N.values node.now) place (answer given.now) result }
{
    match given {
        Ok(letters) => write_after(node, place, letters),
        Err(_) => no_write(node.id()),
    }
}

impl<W: WriteStore> KeptNode<W> {
    /// A node that is up, beside a store that holds what the node holds. Its want of memory is that of the room for its
    /// writes.
    pub fn of(alloc: Global, node: PlainNode, store: W) -> Result<KeptNode<W>, AllocError>
        requires up { (⟦<PlainNode as Node>⟧.who node).down ≡ false }
        requires some { 0 < (⟦<PlainNode as Node>⟧.who node).members }
        requires holds { IsTrue (W.honest store) → (view : View) × ⟦<PlainNode as Node>⟧.stands node (Running view) × Holds (W.may_find store) view.content
            × AreRowsFrom 1 view.content.votes }
        ensures node { IfOk result (λ n. n.node ≡ node) }
        ensures store { IfOk result (λ n. n.noted.store ≡ store) }
        ensures kept { IfOk result (λ n. HasKept W.WriteStore n.noted n.node.parts.records) }
    {
        let noted = NotedWrites::new(alloc, store)?;
        Ok(KeptNode { node, noted })
    }

    /// The store.
    pub fn store(&self) -> &W
        ensures { result.now ≡ self.now.noted.store }
    {
        self.noted.store()
    }

    /// The store, where the node is let go.
    pub fn into_store(self) -> W
        ensures { result ≡ self.noted.store }
    {
        let KeptNode { node: _, noted } = self;
        noted.into_store()
    }
}

impl<W: WriteStore> Node for KeptNode<W> {
    ghost who = { λ n. ⟦<PlainNode as Node>⟧.who n.node };

    ghost honest = { λ n. ⟦<PlainNode as Node>⟧.honest n.node };

    ghost clean = { λ n. ⟦<PlainNode as Node>⟧.clean n.node };

    ghost stands = { λ n s. ⟦<PlainNode as Node>⟧.stands n.node s };

    ghost role = { λ n. ⟦<PlainNode as Node>⟧.role n.node };

    ghost values = { λ n. ⟦<PlainNode as Node>⟧.values n.node };

    ghost rest = { λ n. ⟦<PlainNode as Node>⟧.rest n.node };

    ghost found_no_memory = { λ n. ⟦<PlainNode as Node>⟧.found_no_memory n.node };

    ghost reopens = { λ old new. ⟦<PlainNode as Node>⟧.reopens old.node new.node };

    fn id(&self) -> NodeId {
        self.node.id()
    }

    fn members(&self) -> Members {
        self.node.members()
    }

    fn failures(&self) -> u64 {
        self.node.failures()
    }

    fn role(&self) -> &Role {
        self.node.role()
    }

    fn learned(&self, place: u64) -> Option<&Bytes> {
        self.node.learned(place)
    }

    fn receive(&mut self, letter: &Letter) -> Result<Vec<Letter>, NodeFault> {
        let place = place_open(&self.node, &letter.note);
        let given = self.node.receive(letter);
        let write = write_of(&self.node, place, &given);
        self.noted.note(write);
        given
    }

    fn lead(&mut self) -> Result<Vec<Letter>, NodeFault> {
        let given = self.node.lead();
        let write = write_of(&self.node, None, &given);
        self.noted.note(write);
        given
    }

    fn offer(&mut self, value: &[u8]) -> Result<Vec<Letter>, NodeFault> {
        self.node.offer(value)
    }

    fn tell(&self, to: NodeId, place: u64) -> Result<Vec<Letter>, NodeFault> {
        self.node.tell(to, place)
    }

    fn release(&mut self, now: u64) -> Result<Vec<Numbered>, NodeFault> {
        self.node.release(now)
    }

    fn restart(&mut self) -> Result<(), NodeFault> {
        self.node.restart()
    }

    fn is_fresh(&mut self) -> Result<bool, NodeFault> {
        self.node.is_fresh()
    }
}
