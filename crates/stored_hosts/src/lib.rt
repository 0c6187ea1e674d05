//! The folder of a host: its files by name, which state of them counts, how a state is put there, and what is removed.
#![tactic(auto)]

mod committing;
mod fault;
mod finding;
mod folder;
mod leaving;
mod names;
mod numbers;
mod surveying;
mod system;

pub use committing::{commit_bytes, commit_state};
pub use fault::FolderFault;
pub use finding::{Found, Start, StateFile, WhichHost, find};
pub use folder::Folder;
pub use leaving::let_go;
pub use names::{FileKind, HostFile, path_of, read_name};
pub use surveying::survey;
pub use system::FolderAt;
