//! Nodes that keep what they did, the one plant that orders it, and a thread for each node.
#![tactic(auto)]

mod acting;
mod audits;
mod carrier;
mod cluster;
mod compare;
mod entry;
mod kept;
mod laws;
mod outputs;
mod plant;
mod sent;
mod worker;

pub use audits::{Torn, audit};
pub use carrier::{Carrier, Gate, Point};
pub use cluster::run_cluster;
pub use entry::{Ask, Cause, Done, Ended, Entry, Record};
pub use kept::{Kept, WorkFault, keep_all};
pub use laws::sound_is_legal;
pub use plant::{Plant, step};
