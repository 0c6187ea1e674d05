//! What a process reads and writes, written into a journal.
#![tactic(auto)]

mod ahead;
mod heard;
mod spoken;

pub use heard::Heard;
pub use spoken::Spoken;
