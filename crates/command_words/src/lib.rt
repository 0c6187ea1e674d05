//! Commands, and the values of letters that spell them, in few words.
#![tactic(auto)]

mod commands;
mod letters;

pub use commands::{value_text, value_words};
pub use letters::named_letter_text;
