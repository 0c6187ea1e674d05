//! A host over a folder: where the nodes of its epochs come from, how it keeps states, and how it starts.
#![tactic(auto)]

mod databases;
mod fault;
mod opens;
mod starting;
mod system;

pub use databases::Databases;
pub use fault::{HostStartFault, StateCause};
pub use opens::FolderOpens;
pub use starting::{new_host, resumed_host, waiting};
pub use system::DatabasesAt;
