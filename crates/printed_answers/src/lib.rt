//! The answers of nodes and modems, and the letters of nodes, as text.
#![tactic(auto)]

mod letters;
mod texts;

pub use letters::letter_text;
pub use texts::{answer_text, fault_name, heard_text, refusal_name};
