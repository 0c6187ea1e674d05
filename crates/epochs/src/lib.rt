//! Logs that go on one in the other: an epoch each, of which the first places count.
#![tactic(auto)]

mod again;
mod laws;
mod scheduler;

pub use again::told_again;
pub use laws::{epochs_join, rows_are_told, schedulers_follow_values};
pub use scheduler::{ScheduleFault, Scheduler};
