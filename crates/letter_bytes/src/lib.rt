//! Letters as bytes, each in one spelling.
#![tactic(auto)]

mod fault;
mod kind;
mod laws;
mod reading;
mod writing;

pub use fault::LetterFault;
pub use laws::{LONGEST_LETTER, limits, no_letter_is_longer, one_spelling};
pub use reading::read_letter;
pub use writing::{reported_votes, write_front, write_letter, write_vote};
