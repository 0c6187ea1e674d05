//! The two ends of each command of the program: what it is told, and how it ends. It opens no file.
#![tactic(auto)]

mod fault;
mod members;
mod status;
mod text;
mod words;

pub use fault::Fault;
pub use members::{digit_of, members_of};
pub use status::Status;
pub use text::{plan_of, steps_of, text_of};
pub use words::{LiveWords, MapsWords, NodeWords, RunWords, ScriptWords, ShowWords};
