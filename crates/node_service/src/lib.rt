//! A node over lines that are read and lines that are written. It opens no file.
#![tactic(auto)]

mod actor;
mod asked;
mod batches;
mod incoming;
mod keeper;
mod lines;
mod outbox;
mod outgoing;
mod seated;
mod service;

pub use actor::Actor;
pub use asked::request_of;
pub use batches::{BatchedEnd, serve_batched, tell};
pub use incoming::{Incoming, Input, Unreadable};
pub use keeper::Keeper;
pub use lines::Lines;
pub use outbox::{Outbox, Told};
pub use outgoing::{Output, Reply};
pub use service::{End, serve};
