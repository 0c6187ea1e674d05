//! What C calls of upsched: the MAP codec, the scheduler, the modem. `include/upsched.h` declares each function that is
//! exported here, and says what a caller owes.
#![tactic(auto)]

pub mod codec;
pub mod command;
pub mod handle;
pub mod handle_calls;
pub mod machine;
pub mod map_calls;
pub mod modem_calls;
pub mod queries;
pub mod samples;
pub mod saved;
pub mod scheduler;
pub mod sending;
pub mod status;
pub mod structs;
