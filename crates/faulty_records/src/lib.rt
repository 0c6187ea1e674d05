//! Records in memory whose calls fail where they are told to, for tests of what stands above records.
#![tactic(auto)]

mod faulty;

pub use faulty::{Failure, Faults, FaultyRecords, Trouble};
