//! A node whose calls share commits: it is in memory, and its writes are stored together before any reply tells of them.
#![tactic(auto)]

mod keeping;
mod seat;
mod serving;

pub use seat::BatchedSeat;
pub use serving::serve_batched_member;
