//! Nodes that keep their records in files: fresh ones over the files of a folder, and one over files that are its own.
#![tactic(auto)]

mod alone;
mod connection;
mod copies;
mod fault;
mod folder;
mod foreign;
mod fresh;
mod looks;
mod no_commits;
mod opens;
mod own_file;
mod owned;
mod refusals;
mod start;
mod starting;
mod states;
mod stored;
mod survey;
mod tableless;
mod ties;
mod times;
mod uses;

pub use fault::StoreFault;
pub use folder::use_nodes_in;
pub use foreign::{ForeignCause, foreign_cause, foreign_cause_at};
pub use no_commits::{lacks_commits, lacks_commits_at};
pub use opens::{open_files, records_for};
pub use own_file::{new_node_of, node_of};
pub use owned::{begun_node, resumed_node};
pub use refusals::CountsRefusals;
pub use start::{FileFault, StartFault};
pub use starting::{FileRecords, started_at};
pub use states::{FilesState, state_of_files};
pub use stored::{StoredNode, stored_nodes};
pub use survey::{refuse_used, states_in};
pub use uses::{NodeUse, NodesUse, use_node_at, use_nodes_over};
