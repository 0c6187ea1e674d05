//! Which write the answer to a node's call tells of, for whoever stores the writes outside its records.
#![tactic(auto)]

mod after;
mod laws;
mod telling;

pub use after::{place_open, write_after};
pub use laws::told_is_written;
pub use telling::write_told;
