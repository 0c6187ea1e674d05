//! What MAPs give as JSON: tallies, and what is told of flows.
#![tactic(auto)]

mod flows;
mod tallies;

pub use flows::flow_texts;
pub use tallies::{map_text, sid_text, use_text};
