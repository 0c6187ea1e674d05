//! Releases the outputs of a log from a cursor on.
#![tactic(auto)]

mod numbered;
mod release;

pub use numbered::Numbered;
pub use release::{Release, has_ended};
