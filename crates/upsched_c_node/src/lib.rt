//! What C calls of a node. `include/upsched_node.h` declares each function that is exported here, and says what a
//! caller owes.
#![tactic(auto)]

pub(crate) mod asked;
pub mod calls;
mod encoded_length;
pub mod handle;
pub mod laws;
pub mod letter_fields;
mod letter_length;
pub mod letters_read;
pub mod letters_written;
pub mod opening;
pub mod plain_node;
pub mod samples;
pub mod status;
