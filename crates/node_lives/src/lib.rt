//! Processes that are nodes, life after life, each over what the one before left.
#![tactic(auto)]

mod laws;

pub use laws::{beginnings_are_lives, lives_are_sound};
