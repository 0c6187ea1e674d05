//! A cable modem's part in upstream bandwidth allocation: it hears MAPs, keeps what they give it, and says what it
//! sends at each minislot.
#![tactic(auto)]

mod action;
mod channels;
mod edges;
mod forgotten;
mod kept;
mod known;
mod leases;
mod modem;
mod numbers;
mod owner;
mod sight;
mod skipped;
mod span;
mod types;
mod wants;

pub use action::{Action, NextEvent};
pub use forgotten::old_leases;
pub use kept::KeptInterval;
pub use known::{OwnLease, Progress, Want};
pub use modem::{Modem, OfChannel};
pub use numbers::limits;
pub use owner::one_owner;
pub use skipped::quiet_ticks;
pub use types::{Heard, Sending, TimeBack, WantFault};
