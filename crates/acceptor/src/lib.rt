//! What a node keeps on stable storage, and what an acceptor promises and votes for.
#![tactic(auto)]

mod acceptor;
mod plain;
mod records;

pub use acceptor::{Accepted, Acceptor, Prepared, accept, greatest_used, prepare};
pub use plain::PlainRecords;
pub use records::{Records, RecordsFault};
