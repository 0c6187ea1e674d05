//! Scripts that are made by running them.
#![tactic(auto)]

mod chances;
mod making;
mod plant;
mod sights;
mod stage;
mod wishes;

pub use making::made_script;
pub use wishes::Wishes;
