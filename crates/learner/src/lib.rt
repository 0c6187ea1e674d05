//! Counts votes, and learns what a majority voted for.
#![tactic(auto)]

mod groups;
mod learner;
mod open_places;

pub use groups::Proposal;
pub use learner::Learner;
