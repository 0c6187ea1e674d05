//! Hosts that are processes, life after life, and the one log that they are.
#![tactic(auto)]

mod laws;

pub use laws::{hosts_are_one_log, kept_lines_are_lives, serving_is_living, starting_is_living};
