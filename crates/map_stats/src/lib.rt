//! What MAPs give: their minislots by channel, by use, and by SID; and how long requests waited. SIDs count by
//! lease.
#![tactic(auto)]

mod flow_texts;
mod laws;
mod rows;
mod stats;
mod summary;
mod sums;
mod tally;
mod texts;

pub use flow_texts::{flow_text, fraction};
pub use laws::sums_are_of_rows;
pub use rows::{FlowRow, flow_rows};
pub use stats::Stats;
pub use summary::{Delays, Summary, Waits};
pub use tally::{SidTallies, Tallies, Tally};
pub use texts::{map_text, sid_text, use_text};
