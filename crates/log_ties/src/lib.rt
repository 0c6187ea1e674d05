//! What a database file and its log tell of each other before any open: whether one of them lost something.
#![tactic(auto)]

mod behind;
mod commits;
mod header;
mod tail;
mod tie;

pub use behind::is_behind_tables;
pub use commits::{commits_of, has_commit};
pub use tie::{Loss, Tie, Times, tie_of};
