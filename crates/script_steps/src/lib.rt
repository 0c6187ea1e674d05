//! Steps of a script: events as they are, and deliveries of letters by name, one or all that wait.
#![tactic(auto)]

mod deliveries;
mod entry;
mod kept;
mod name;
mod step;
mod waiting;

pub use deliveries::Deliveries;
pub use entry::Entry;
pub use name::{About, DeliverAll, Kind, Name};
pub use step::{Step, plain_event};
