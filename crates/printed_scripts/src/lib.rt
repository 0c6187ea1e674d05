//! Scripts as text.
#![tactic(auto)]

mod texts;

pub use texts::script_text;
