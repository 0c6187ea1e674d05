//! A node in memory beside a store: the writes of its calls wait, and are stored together.
#![tactic(auto)]

mod keeping;
mod kept;
mod noted;
mod sql;
mod store;

pub use kept::KeptNode;
pub use noted::NotedWrites;
pub use store::WriteStore;
