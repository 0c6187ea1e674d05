//! From the words of the command line to how the program ends: the files that they name are opened.
#![tactic(auto)]

mod audit_run;
mod host_run;
mod journal_file;
mod journaling;
mod left_file;
mod node_run;
mod opening;
mod plan_runs;
mod program;
mod resume_run;
mod scheduler_run;
mod script_runs;

pub use program::{run, run_words};
