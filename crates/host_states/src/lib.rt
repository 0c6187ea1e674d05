//! The state of a host at the start of an epoch as bytes: whose it is, and the scheduler's tables, with a sum by which
//! bytes that were cut or changed are found.
#![tactic(auto)]

mod fault;
mod fields;
mod head;
mod laws;
mod reading;
mod writing;

pub use fault::StateFault;
pub use head::StateHead;
pub use laws::one_spelling_of_states;
pub use reading::{framed, read_state};
pub use writing::state_bytes;
