//! Nodes, ballots and letters, and what a voting history chooses.
#![tactic(auto)]

ghost use Rattle.std.specs.Prelude.{◌≡◌, ◌↔◌, ◌/◌, ◌%◌, ◌^◌, ◌<◌, ◌≤◌, ℕ};
ghost use Rattle.ballots.specs.Ballots.{BallotsDiffer, IsBallot};
ghost use Rattle.ballots.specs.Limits.{longest_value, most_places};
ghost use Rattle.ballots.specs.Voting.{Agreement, QuorumsMeet};

mod ballot;
mod letters;
mod members;
mod places;
mod values;

pub use ballot::{Ballot, NodeId, RoundsSpent, higher, least_above};
pub use letters::{Cast, Letter, Note, Votes};
pub use members::Members;
pub use places::{MOST_PLACES, Place};
pub use values::{Bytes, LONGEST_VALUE, Value};

/// Ballots of two nodes differ.
pub fn ballots_differ()
    ensures { BallotsDiffer }
{}

/// Two quorums share a member.
pub fn quorums_meet()
    ensures { QuorumsMeet }
{}

/// In a legal voting history at most one value is chosen at a place (Lamport, Paxos Made Simple, section 2.2).
pub fn agreement()
    ensures { Agreement }
{}

/// The limits in digits: the places of the log, the bytes of a value, and a ballot's rounds and nodes.
pub fn limits()
    ensures places { most_places ≡ 1000000 }
    ensures value { longest_value ≡ 64 }
    ensures ballots { (b : ℕ) → IsBallot b ↔ ((1 ≤ b / 8) × (b / 8 < 2 ^ 40) × (b % 8 ≤ 4)) }
{}
