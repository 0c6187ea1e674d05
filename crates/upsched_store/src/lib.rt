//! Nodes that keep their records in files: what a script does to them, one that serves over lines, and what their files
//! are. What does so with records in memory is handed on, so that the program names one crate for both.
#![tactic(auto)]

mod commitless;
mod crash;
mod found;
mod refused_run;
mod start_lines;
mod store_check;
mod stored_node_run;
mod stored_run;

pub use commitless::print_commitless;
pub use crash::{CrashCause, cause_text, crash_of, print_crash};
pub use found::{Found, foreign_start, foreign_text};
pub use start_lines::{print_foreign, print_start};
pub use store_check::{check_store, why_text};
pub use stored_node_run::stored_node;
pub use stored_run::{print_over, run_stored_as_json, run_stored_script};
pub use upsched_ends::steps_of;
pub use upsched_json_run::{run_as_json, trace_as_json};
pub use upsched_node::{member_of, node};
pub use upsched_run::{Telling, Trace, name_script, plain_script, run_script, trace_script};
