//! One account of a plan: what its commands did, what became of each request, and which windows of each lease passed.
#![tactic(auto)]

mod account;
mod deed;
mod flows;
mod happening;
mod laws;
mod past;
mod reach;
mod rows;
mod shown;
mod why;
mod windows;

pub use account::Account;
pub use deed::{Deed, channels_of, deed_of};
pub use flows::Flows;
pub use laws::{cells_cover, outputs_have_deeds};
pub use past::{Fate, LeaseRow, RequestRow, Told, why_last};
pub use reach::{Lease, Term};
pub use rows::{lease_rows, request_rows};
pub use shown::ShownMap;
pub use why::{Why, why_name, why_words};
