//! `live`: nodes that work side by side on a plan's commands. It opens no file.
#![tactic(auto)]

mod cluster;
mod driver;
mod following;
mod inbox;
mod live_run;
mod verdict;

pub use cluster::live_cluster;
pub use driver::{Agenda, LiveCarrier, LiveGate};
pub use live_run::{Audited, live, live_audited};
pub use verdict::{print_audit, print_verdict};
