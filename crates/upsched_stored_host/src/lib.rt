//! `upsched host K --members M --places P --store DIR`: one member of a log that goes on, over a folder of its own, over
//! lines.
#![tactic(auto)]

mod fault_lines;
mod folder_run;
mod serving;
mod stopped;
mod stored_host_run;

pub use fault_lines::{print_host_start, print_stopped};
pub use folder_run::{HostFolder, serve_over};
pub use stopped::Stopped;
pub use stored_host_run::stored_host;
