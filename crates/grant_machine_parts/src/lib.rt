//! The parts of a cut: a MAP's minislots, what is placed in them, and the body that tells of it.
#![tactic(auto)]

mod chains;
pub mod drawing;
mod due_times;
mod gaps;
mod numbers;
mod placing;
mod services;
mod settings;
mod waiting;

pub use chains::by_priority;
pub use numbers::limits;
pub use placing::{Cause, Filling, MOST_PLACEMENTS, Placement};
pub use services::{Service, serve};
pub use settings::CutSettings;
pub use waiting::{Grants, Ranked, kind_priority, place_requests};
