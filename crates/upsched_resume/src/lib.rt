//! `upsched resume PLAN [--from FILE] [--to FILE]`: the outputs of a plan's commands behind the tables of a file, and the
//! file of the tables behind them. It opens no file.
#![tactic(auto)]

mod fault;
mod resuming;
mod rows_file;

pub use fault::ResumeFault;
pub use resuming::{ResumeWords, resume};
pub use rows_file::{file_of, machine_of};
