//! The writes of a node as bytes, for whoever stores them, and the records that they lead to.
#![tactic(auto)]

mod reading;
mod write_bytes;

pub use reading::{Row, are_whole, row_of, taken_back};
pub use write_bytes::{WriteBytes, learned, no_write, promised, tried, vote};
