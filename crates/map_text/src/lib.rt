//! The MAPs of a plan as text, for a terminal of 100 columns.
#![tactic(auto)]

mod bars;
mod laws;
mod lines;
mod plan_text;

pub use laws::lines_fit;
pub use plan_text::channel_text;
