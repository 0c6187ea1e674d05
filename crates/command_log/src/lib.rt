//! The log of commands: their bytes, and the outputs of the values that were learned without a gap.
#![tactic(auto)]

mod laws;
mod log;
mod reading;
mod writing;

pub use laws::{one_spelling, outputs_go_on};
pub use log::{Log, LogFault};
pub use reading::read_command;
pub use writing::{command_bytes, put_kind, put_setting};
