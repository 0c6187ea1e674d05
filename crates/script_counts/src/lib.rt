//! What a report tells of a script: its crashes, its takeovers, and what was offered.
#![tactic(auto)]

mod counts;

pub use counts::{crashes, offers_all, takeovers};
