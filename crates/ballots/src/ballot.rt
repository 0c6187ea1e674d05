//! Nodes and their ballots.

ghost use Rattle.std.specs.Prelude.{◌≡◌, ◌↔◌, ℕ, ◌<◌, max, MatchResult, OnSome, IsSome, Some};
ghost use Rattle.ballots.specs.Ballots.{IsBallot, IsLeastAbove, NoneAbove, ballot_node, number_of};

use std::marker::Model;
use thiserror::Error;

/// A node by its number, 0 to 4.
#[derive(Debug, Drop, Clone, Copy, PartialEq, Eq)]
pub struct NodeId {
    id: u8,
}

impl Model for NodeId {
    ghost Value = { ℕ };

    ghost view = { λ n. n.id };

    ghost invariant = { λ n. n.id < 5 };

    ghost inverse = { λ n. record { id = n } };
}

impl NodeId {
    /// The node of this number, and none from 5 on.
    pub fn new(number: u8) -> Option<NodeId>
        ensures some { OnSome result (result ≡ Some number) }
        ensures fits { IsSome result ↔ (number < 5) }
    {
        if number < 5 {
            Some(NodeId { id: number })
        } else {
            None
        }
    }

    /// Its number, 0 to 4.
    pub fn number(self) -> u8
        ensures same { result ≡ self }
        ensures below { result < 5 }
    {
        self.id
    }
}

/// The number of a proposal, which orders them (Lamport, Paxos Made Simple, section 2.2): `round * 8 + node`, with
/// rounds from 1 to 2^40 - 1. So nodes share none, and 0 is no ballot.
#[derive(Debug, Drop, Clone, Copy, PartialEq, Eq, PartialOrd, Ord)]
pub struct Ballot {
    number: u64,
}

impl Model for Ballot {
    ghost Value = { ℕ };

    ghost view = { λ b. b.number };

    ghost invariant = { λ b. IsBallot b.number };

    ghost inverse = { λ b. record { number = b } };
}

impl Ballot {
    /// The ballot of this number, if there is one.
    pub fn new(number: u64) -> Option<Ballot>
        ensures some { OnSome result (result ≡ Some number) }
        ensures fits { IsSome result ↔ IsBallot number }
    {
        if number >= 8 && number < 1 << 43 && number % 8 < 5 {
            Some(Ballot { number })
        } else {
            None
        }
    }

    /// Its number, `round * 8 + node`.
    pub fn number(self) -> u64
        ensures same { result ≡ self }
        ensures fits { IsBallot result }
    {
        self.number
    }

    /// The node whose ballot it is.
    pub fn node(self) -> NodeId
        ensures { result ≡ ballot_node self }
    {
        let Ballot { number } = self;
        NodeId {
            id: (number % 8) as u8,
        }
    }
}

/// A node has no ballot above a number: its rounds are spent.
#[derive(Clone, Copy, Debug, PartialEq, Eq, Error)]
#[error("RoundsSpent")]
pub struct RoundsSpent;

/// The least ballot of the node above a number, which may be 0 or any other. It is refused only where the node has
/// none, from its ballot of round 2^40 - 1 on.
pub fn least_above(above: u64, node: NodeId) -> Result<Ballot, RoundsSpent>
    ensures { MatchResult result (λ b. IsLeastAbove above node b) (λ _. NoneAbove above node) }
{
    let number = u64::from(node.id);
    let round = above / 8;
    let same_round = number > above % 8 && round > 0;
    let next = if same_round { round } else { round + 1 };
    if next < 1 << 40 {
        Ok(Ballot {
            number: next * 8 + number,
        })
    } else {
        Err(RoundsSpent)
    }
}

/// The higher of a ballot, where there is one, and another.
pub fn higher(ballot: Option<Ballot>, other: Ballot) -> Option<Ballot>
    ensures { number_of result ≡ max (number_of ballot) other }
{
    match ballot {
        Some(b) if b.number() >= other.number() => ballot,
        _ => Some(other),
    }
}
