//! A node in memory, the store of its writes, and what waits to be stored.

ghost use Rattle.std.specs.Prelude.{◌≡◌, ◌<◌, false, true, vec_capacity, IfOk, IsTrue};
ghost use Rattle.acceptor.specs.Content.{AreRowsFrom, Content};
ghost use Rattle.acceptor.specs.Found.{Holds};
ghost use Rattle.batched_node.specs.Noted.{IsAllNoted};
ghost use Rattle.batched_node.specs.Told.{IsOpenFor, IsWriteFor, IsWriteOf};
ghost use Rattle.kept_node.specs.Noted.{HasRoom, IsKept};
ghost use Rattle.node_service.specs.Seated.{DoesAsAsked};
ghost use Rattle.seats.specs.Occupant.{is_up, node_of, who_of};

use ballots::{Letter, Place};
use kept_node::{NotedWrites, WriteStore};
use node::Node;
use node_lines::Request;
use node_service::Actor;
use node_writes::{WriteBytes, no_write};
use seats::{Acted, PlainNode, Seat};
use std::alloc::{AllocError, Global};
use told_writes::{place_open, write_after};

/// A node in its seat, with its records in memory, beside the store that is to hold what these hold. The writes of its
/// calls wait until they are stored together.
#[derive(Drop)]
pub struct BatchedSeat<W: WriteStore> {
    pub(crate) seat: Seat<PlainNode>,
    pub(crate) noted: NotedWrites<W>,
}

/// The place of which what is asked may teach a value, where none is learned yet.
fn place_of<N: Node>(node: &N, asked: &Request) -> Option<Place>
    ensures { IsOpenFor (N.values node.now) asked.now result }
{
    match asked {
        Request::Letter(letter) => place_open(node, &letter.note),
        _ => None,
    }
}

/// The write of what was asked, once it is done and these letters came of it.
fn write_for<N: Node>(
    node: &N,
    asked: &Request,
    letters: &[Letter],
    place: Option<Place>,
) -> WriteBytes
    ensures { IsWriteFor (N.who node.now).id (N.values node.now) asked.now letters.now place result }
{
    match asked {
        Request::Letter(_) | Request::Lead => write_after(node, place, letters),
        _ => no_write(node.id()),
    }
}

/// The same, whatever came of it.
fn write_of<N: Node>(node: &N, asked: &Request, acted: &Acted, place: Option<Place>) -> WriteBytes
    ensures { IsWriteOf (N.who node.now).id (N.values node.now) asked.now acted.now place result }
{
    match acted {
        Acted::Sent(letters) => write_for(node, asked, letters, place),
        _ => no_write(node.id()),
    }
}

impl<W: WriteStore> BatchedSeat<W> {
    ghost use Rattle.acceptor.specs.Content.{AreRowsFrom};
    ghost use Rattle.node.specs.View.{View};
    ghost use Rattle.node.specs.View.Standing.{Running};

    /// A node that is up, beside a store that holds what the node holds. Its want of memory is that of the room for its
    /// writes.
    pub fn of(alloc: Global, node: PlainNode, store: W) -> Result<BatchedSeat<W>, AllocError>
        requires up { (⟦<PlainNode as Node>⟧.who node).down ≡ false }
        requires some { 0 < (⟦<PlainNode as Node>⟧.who node).members }
        requires holds { IsTrue (W.honest store) → (view : View) × ⟦<PlainNode as Node>⟧.stands node (Running view) × Holds (W.may_find store) view.content
            × AreRowsFrom 1 view.content.votes }
        ensures node { IfOk result (λ b. node_of b.seat ≡ node) }
        ensures up { IfOk result (λ b. is_up b.seat ≡ true) }
        ensures store { IfOk result (λ b. b.noted.store ≡ store) }
        ensures noted { IfOk result (λ b. IsAllNoted W.WriteStore b.noted (who_of b.seat) (node_of b.seat).parts.records) }
        ensures kept { IfOk result (λ b. IsKept W.WriteStore b.noted.store (node_of b.seat).parts.records) }
        ensures room { IfOk result (λ b. HasRoom b.noted) }
    {
        let noted = NotedWrites::new(alloc, store)?;
        Ok(BatchedSeat {
            seat: Seat::new(node),
            noted,
        })
    }

    /// The store.
    pub fn store(&self) -> &W
        ensures { result.now ≡ self.now.noted.store }
    {
        self.noted.store()
    }

    /// The store, where the node is let go.
    pub fn into_store(self) -> W
        ensures { result ≡ self.noted.store }
    {
        let BatchedSeat { seat: _, noted } = self;
        noted.into_store()
    }

    /// The node does what it is asked, and the write of that waits.
    pub(crate) fn obey(&mut self, asked: &Request) -> Acted
        requires up { is_up self.old.seat ≡ true }
        requires noted { IsAllNoted W.WriteStore self.old.noted (who_of self.old.seat) (node_of self.old.seat).parts.records }
        requires room { HasRoom self.old.noted }
        ensures acts { DoesAsAsked self.old.seat asked.now result self.new.seat }
        ensures store { self.new.noted.store ≡ self.old.noted.store }
        ensures noted { IsAllNoted W.WriteStore self.new.noted (who_of self.new.seat) (node_of self.new.seat).parts.records }
        ensures capacity { vec_capacity self.new.noted.waiting ≡ vec_capacity self.old.noted.waiting }
    {
        let place = place_of(self.seat.node(), asked);
        let acted = self.seat.obey(asked);
        let write = write_of(self.seat.node(), asked, &acted, place);
        self.noted.note(write);
        acted
    }
}
