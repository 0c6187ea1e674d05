//! A node with all that it did.

ghost use Rattle.std.specs.Prelude.{◌≡◌, ◌↔◌, ◌+◌, ◌^◌, [], ◌∷◌, ◌++◌, length, IsTrue, IfOk, IfErr, OnErr, IsOk, true};
ghost use Rattle.std.specs.Prelude.{◌≤◌, ◌<◌, false, All, map};
ghost use Rattle.std.specs.List.{range_with_len};
ghost use Rattle.seats.specs.Fresh.{AreFresh};
ghost use Rattle.acceptor.specs.Faults.{HasRisen};
ghost use Rattle.ballots.specs.Members.{member_count};
ghost use Rattle.seats.specs.Seat.{Shown};
ghost use Rattle.node_worker.specs.declared.entry.Ended.TheVariants.{FailedEither};
ghost use Rattle.node_worker.specs.KeptView.{AreTrusted, IsReplay, IsStepOf, SameNode, member_of};
ghost use Rattle.node_worker.specs.Replays.{IsKept, opening};

use crate::acting::act;
use crate::entry::{Cause, Done, Entry};
use ballots::{Members, NodeId};
use node::Node;
use seats::{OutOfMemory, Seat};
use std::alloc::Global;
use std::marker::Model;

/// Why no work was done.
#[derive(Clone, Copy, Debug, PartialEq, Eq)]
pub enum WorkFault {
    /// There are as many entries as the quota.
    Full = 1,
    OutOfMemory = 2,
}

/// A node and its entries, at most its quota.
#[derive(Drop)]
pub struct Kept<N: Node> {
    alloc: Global,
    seat: Seat<N>,
    quota: usize,
    entries: Vec<Entry>,
    // In how many turns its worker asked what drives it.
    turns: u64,
}

impl<N: Node> Model for Kept<N> {
    ghost use Rattle.node_worker.specs.KeptView.{KeptView};

    ghost Value = { KeptView };

    ghost use Rattle.std.specs.Prelude.{IsTrue, ◌≤◌, vec_len};
    ghost use Rattle.seats.specs.Occupant.{Stands, IsHonest, is_up, node_of, who_of};
    ghost use Rattle.node_worker.specs.Replays.{IsKept};

    ghost view = { λ k. record {
      node = (who_of k.seat).id;
      members = (who_of k.seat).members;
      quota = k.quota;
      entries = k.entries.items;
      turns = k.turns;
      up = is_up k.seat;
      failures = (who_of k.seat).failures;
      honest = N.honest (node_of k.seat);
    } };

    ghost invariant = { λ k. (vec_len k.entries ≤ k.quota)
        × (IsHonest k.seat → IsKept (who_of k.seat).members (who_of k.seat).id (Stands k.seat) k.entries.items) };
}

impl<N: Node> Kept<N> {
    /// A fresh node, with nothing done, that may do `quota` things.
    pub fn new(alloc: Global, node: N, quota: usize) -> Result<Kept<N>, OutOfMemory>
        requires fresh { IsTrue (N.honest node) → N.stands node opening }
        requires up { (N.who node).down ≡ false }
        ensures { IfOk result (λ k. k ≡ record {
          node = (N.who node).id;
          members = (N.who node).members;
          quota = quota;
          entries = [];
          turns = 0;
          up = true;
          failures = (N.who node).failures;
          honest = N.honest node;
        }) }
    {
        let entries = Vec::with_capacity(alloc, quota)?;
        Ok(Kept {
            alloc,
            seat: Seat::new(node),
            quota,
            entries,
            turns: 0,
        })
    }

    /// The node's number.
    pub fn id(&self) -> NodeId
        ensures { result ≡ self.now.node }
    {
        self.seat.node().id()
    }

    /// The node. It stands where its entries bring a fresh one, one that is down with its content alone.
    pub fn node(&self) -> &N
        ensures id { (N.who result.now).id ≡ self.now.node }
        ensures members { (N.who result.now).members ≡ self.now.members }
        ensures failures { (N.who result.now).failures ≡ self.now.failures }
        ensures honest { N.honest result.now ≡ self.now.honest }
        ensures replay { IsTrue (N.honest result.now)
            → IsKept (N.who result.now).members (N.who result.now).id (Shown self.now.up (N.stands result.now)) self.now.entries }
    {
        self.seat.node()
    }

    /// The members.
    pub fn members(&self) -> Members
        ensures { member_count result ≡ self.now.members }
    {
        self.seat.node().members()
    }

    /// What was done so far, in order.
    pub fn entries(&self) -> &[Entry]
        ensures entries { result.now ≡ self.now.entries }
        ensures replay { IsReplay self.now }
        ensures quota { length self.now.entries ≤ self.now.quota }
        ensures trusted { AreTrusted N.honest → IsTrue self.now.honest }
    {
        self.entries.as_slice()
    }

    /// A worker takes it over, and counts the turns from here on.
    pub(crate) fn begin_turns(&mut self)
        ensures { self.new ≡ record self.old { turns = 0 } }
    {
        self.turns = 0;
    }

    /// Its worker asks what drives it once more.
    pub(crate) fn count_turn(&mut self)
        requires { self.old.turns + 1 < 2 ^ 64 }
        ensures { self.new ≡ record self.old { turns = self.old.turns + 1 } }
    {
        self.turns += 1;
    }

    /// Has the node do one thing, and keeps what came of it. Nothing is done where there is no room, or no memory
    /// to tell of it.
    pub fn work(&mut self, cause: Cause) -> Result<Done, WorkFault>
        ensures same { SameNode self.old self.new }
        ensures honest { IsTrue self.new.honest → IsTrue self.old.honest }
        ensures done { IfOk result (λ d. (d.node ≡ self.old.node) × (d.entry.cause ≡ cause) × (self.new.entries ≡ self.old.entries ++ d.entry ∷ [])) }
        ensures step { IfOk result (λ d. IsTrue self.new.honest → IsStepOf self.old d.entry) }
        ensures rose { IfOk result (λ d. d.entry.ended ≡ FailedEither → HasRisen self.old.failures self.new.failures) }
        ensures full { IfErr result (λ e. e ≡ WorkFault.Full ↔ length self.old.entries ≡ self.old.quota) }
        ensures room { IsOk result → length self.old.entries < self.old.quota }
        ensures err { OnErr result (self.new ≡ self.old) }
        ensures trusted { AreTrusted N.honest → IsTrue self.new.honest }
    {
        if self.entries.len() >= self.quota {
            return Err(WorkFault::Full);
        }
        let Ok(copy) = cause.copy(self.alloc) else {
            return Err(WorkFault::OutOfMemory);
        };
        if self.entries.reserve(1).is_err() {
            return Err(WorkFault::OutOfMemory);
        }
        let (kept, told) = act(self.alloc, &mut self.seat, &cause);
        let node = self.seat.node().id();
        self.entries.push_reserved(kept.with(cause));
        Ok(Done {
            node,
            entry: told.with(copy),
        })
    }
}

/// The nodes, in order, each with nothing done, that may each do `quota` things.
pub fn keep_all<N: Node>(
    alloc: Global,
    nodes: Vec<N>,
    quota: usize,
) -> Result<Vec<Kept<N>>, OutOfMemory>
    requires { AreFresh N.who N.honest N.stands nodes.items }
    ensures members { IfOk result (λ kepts. map member_of kepts.items ≡ map (λ k. (k, length nodes.items)) (range_with_len 0 (length nodes.items))) }
    ensures nothing { IfOk result (λ kepts. All (λ k. (k.entries ≡ []) × (k.quota ≡ quota)) kepts.items) }
    ensures trusted { IfOk result (λ kepts. AreTrusted N.honest → All (λ k. IsTrue k.honest) kepts.items) }
{
    let mut kepts = Vec::new(alloc);
    for node in nodes {
        kepts.push(Kept::new(alloc, node, quota)?)?;
    }
    Ok(kepts)
}
