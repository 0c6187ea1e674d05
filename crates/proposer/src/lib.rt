//! A node as a proposer: it prepares a ballot, leads and proposes (Lamport, Paxos Made Simple).
#![tactic(auto)]

mod fault;
mod letters;
mod memory;
mod promises;
mod proposer;
mod role;

pub use fault::NodeFault;
pub use letters::to_all;
pub use memory::lead_without_ballots;
pub use promises::{Joined, Nodes};
pub use proposer::Proposer;
pub use role::{Role, higher};
