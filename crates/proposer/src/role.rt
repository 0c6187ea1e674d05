//! The role of a node as a proposer.

ghost use Rattle.std.specs.Prelude.{◌≡◌, IsTrue, IsFalse};
ghost use Rattle.proposer.specs.Roles.{role_after};
ghost use Rattle.proposer.specs.declared.role.Role.TheVariants.{Idle};

use crate::promises::{Joined, Nodes};
use ballots::Ballot;

/// What a node does as a proposer.
#[derive(Drop)]
pub enum Role {
    Idle,
    /// It prepares a ballot for all places from one on.
    Preparing {
        ballot: Ballot,
        place: u64,
        counted: Nodes,
        joined: Joined,
    },
    /// It leads a ballot, and proposes next at a place.
    Leading {
        ballot: Ballot,
        next: u64,
    },
}

/// Whether a role is one in a ballot below this.
fn is_passed(role: &Role, other: Ballot) -> bool
    ensures below { IsTrue result → role_after role.now other ≡ Idle }
    ensures stays { IsFalse result → role_after role.now other ≡ role.now }
{
    match role {
        Role::Idle => false,
        Role::Preparing { ballot, .. } => ballot.number() < other.number(),
        Role::Leading { ballot, .. } => ballot.number() < other.number(),
    }
}

/// The role after a ballot was heard of.
pub fn higher(role: Role, other: Ballot) -> Role
    ensures { result ≡ role_after role other }
{
    if is_passed(&role, other) {
        Role::Idle
    } else {
        role
    }
}
