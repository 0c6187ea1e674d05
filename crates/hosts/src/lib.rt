//! A host: a member of each of several logs that go on one in the other, with one scheduler over all of them.
#![tactic(auto)]

mod acted;
mod beyond;
mod entering;
mod fault;
mod host;
mod keeping;
mod opens;
mod starting;
mod states;
mod taking;
mod window;

pub use acted::{Given, HostActed};
pub use fault::{HostFault, JoinFault};
pub use host::{Host, MOST_EPOCH_PLACES};
pub use opens::{NewNodes, NewRecords, Opens, PlainOpens};
pub use starting::Start;
