//! A host over lines: the number before a line, what is behind it, and what is replied. It opens no file.
#![tactic(auto)]

mod asked;
mod laws;
mod number;
mod reply;
mod service;
mod texts;
mod waiting;

pub use asked::HostRequest;
pub use laws::{hosts_are_asked_apart, no_promise_is_longer, no_state_is_longer, one_number};
pub use number::{EpochNumber, number_in};
pub use reply::{Beginning, HostReply, LONGEST_STATE};
pub use service::{HostServer, serve_host};
pub use waiting::{WaitingHost, wait_for_state};
