//! `upsched run`: scripts over nodes and modems, to printed lines. It opens no file.
#![tactic(auto)]

mod plain;
mod rows;
mod script_run;
mod trace;

pub use plain::plain_script;
pub use script_run::{Telling, name_script, print_script, run_script, trace_script};
pub use trace::Trace;
pub use upsched_ends::{Fault, RunWords, Status};
