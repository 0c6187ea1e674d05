//! `run --json`: what a run answers as JSON, an object a line. It opens no file.
#![tactic(auto)]

mod rows;
mod script_run;

pub use script_run::{print_script_as_json, run_as_json, trace_as_json};
