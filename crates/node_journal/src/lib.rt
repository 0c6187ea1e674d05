//! The journals of nodes that are processes: what they hold, and whether they are the lines of legal records.
#![tactic(auto)]

mod audits;
mod counts;
mod follower;
mod following;
mod laws;
mod phase;
mod replies;
mod sent;
mod tear;
mod texts;

pub use audits::{Verdict, audit};
pub use counts::{Counts, counts_of};
pub use laws::lines_are_legal;
pub use phase::Phase;
pub use tear::{Tear, Why};
