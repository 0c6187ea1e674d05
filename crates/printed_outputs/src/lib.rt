//! The scheduler's outputs as text, and why it refuses commands.
#![tactic(auto)]

mod reasons;
mod texts;

pub use reasons::{reason_text, refused_text};
pub use texts::output_text;
