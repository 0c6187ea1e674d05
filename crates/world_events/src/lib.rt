//! What may happen in a world of nodes and modems, and why an event may change nothing.
#![tactic(auto)]

mod event;
mod refusal;

pub use event::Event;
pub use refusal::EventRefusal;
