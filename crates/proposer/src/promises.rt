//! Promises that were counted, and the votes that they reported.

ghost use Rattle.std.specs.Prelude.{◌≡◌, ℕ, ◌≤◌, ◌<◌, List, [], ◌∷◌, IfOk, OnOk, nat_eq};
ghost use Rattle.std.specs.List.{list_any};
ghost use Rattle.ballots.specs.Members.{member_count};
ghost use Rattle.ballots.specs.Voting.{count_below};
ghost use Rattle.ballots.specs.Rows.{at};
ghost use Rattle.proposer.specs.Joining.{join, join_one, place_after, proposal};
ghost use Rattle.proposer.specs.Bounds.{in_log, AreInLog};

use ballots::{Bytes, Cast, MOST_PLACES, Members, NodeId};
use std::alloc::{AllocError, Global};
use std::collections::BTreeMap;
use std::marker::Model;

/// The nodes whose promises were counted, the last one first.
#[derive(Drop)]
pub struct Nodes {
    nodes: Vec<NodeId>,
}

impl Model for Nodes {
    ghost use Rattle.std.specs.Prelude.{ℕ, List};

    ghost Value = { List ℕ };

    ghost view = { λ n. n.nodes.items };
}

impl Nodes {
    pub fn new(alloc: Global) -> Nodes
        ensures { result ≡ [] }
    {
        Nodes {
            nodes: Vec::new(alloc),
        }
    }

    pub fn contains(&self, node: NodeId) -> bool
        ensures { result ≡ list_any (nat_eq node) self.now }
    {
        is_among(self.nodes.as_slice(), node.number())
    }

    /// These nodes and one more.
    pub fn with(&self, alloc: Global, node: NodeId) -> Result<Nodes, AllocError>
        ensures { IfOk result (λ nodes. nodes ≡ node ∷ self.now) }
    {
        let mut nodes = Vec::new(alloc);
        nodes.push(node)?;
        nodes.extend_from_slice(self.nodes.as_slice())?;
        Ok(Nodes { nodes })
    }

    /// How many of the members are among them.
    pub fn count(&self, members: Members) -> u8
        ensures among { result ≡ count_below (λ n. list_any (nat_eq n) self.now) (member_count members) }
        ensures fits { result ≤ member_count members }
    {
        let mut count = 0;
        for number in 0..members.count() {
            if is_among(self.nodes.as_slice(), number) {
                count += 1;
            }
        }
        count
    }
}

fn is_among(nodes: &[NodeId], number: u8) -> bool
    ensures { result ≡ list_any (nat_eq number) nodes.now }
{
    nodes.iter().any(|node| number == node.number())
}

/// The votes that promises reported, the one of the highest ballot at each place.
#[derive(Drop)]
pub struct Joined {
    rows: BTreeMap<u64, Cast>,
}

impl Model for Joined {
    ghost use Rattle.std.specs.Prelude.{ℕ, List};
    ghost use Rattle.ballots.specs.declared.letters.Cast.{Cast};
    ghost use Rattle.proposer.specs.Bounds.{AreInLog};

    ghost Value = { List (ℕ × Cast) };

    ghost view = { λ j. j.rows.entries };

    ghost invariant = { λ j. AreInLog j.rows.entries };
}

impl Joined {
    pub fn new(alloc: Global) -> Joined
        ensures { result ≡ [] }
    {
        Joined {
            rows: BTreeMap::new(alloc),
        }
    }

    /// These votes joined with those of one more promise. One at a place beyond the log is passed over.
    pub fn with(&self, alloc: Global, votes: &[(u64, Cast)]) -> Result<Joined, AllocError>
        ensures { IfOk result (λ joined. joined ≡ join self.now (in_log votes.now)) }
    {
        let mut rows = self.rows.clone()?;
        for vote in votes {
            if vote.0 <= MOST_PLACES {
                join_vote(alloc, &mut rows, vote.0, &vote.1)?;
            }
        }
        Ok(Joined { rows })
    }

    /// The place after the greatest at which a vote was reported, and at least this one.
    pub fn place_after(&self, first: u64) -> u64
        ensures { result ≡ place_after first self.now }
    {
        let mut next = first;
        for (place, _cast) in &self.rows {
            next = next.max(*place + 1);
        }
        next
    }

    /// The value to propose at a place: the one that was reported, or else the Noop command.
    pub fn proposal(&self, alloc: Global, place: u64) -> Result<Bytes, AllocError>
        ensures { IfOk result (λ value. value ≡ proposal (at self.now place)) }
    {
        match self.rows.get(&place) {
            Some(cast) => cast.value.copy(alloc),
            None => {
                let mut noop = Vec::new(alloc);
                noop.push(0)?;
                Ok(Bytes::new(noop))
            }
        }
    }
}

fn join_vote(
    alloc: Global,
    joined: &mut BTreeMap<u64, Cast>,
    place: u64,
    cast: &Cast,
) -> Result<(), AllocError>
    ensures { OnOk result (joined.new.entries ≡ join_one joined.old.entries place cast.now (at joined.old.entries place)) }
{
    let is_higher = match joined.get(&place) {
        Some(other) => other.ballot.number() < cast.ballot.number(),
        None => true,
    };
    if is_higher {
        joined
            .insert(place, cast.copy(alloc)?)
            .map_err(AllocError::from)?;
    }
    Ok(())
}
