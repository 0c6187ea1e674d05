//! What a run answers, and the letters of its nodes, as JSON.
#![tactic(auto)]

mod answers;
mod events;
mod letters;
mod names;
mod traces;

pub use events::{counts_text, event_text};
pub use traces::traced_text;
