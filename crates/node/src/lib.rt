//! The trait of a node, and a node over records.
#![tactic(auto)]

mod heeded;
mod knowledge;
mod laws;
mod letters;
mod node;
mod parts;
mod sched;

pub use laws::{catches_up, limits};
pub use node::Node;
pub use proposer::NodeFault;
pub use sched::SchedNode;
