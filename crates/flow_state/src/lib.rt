//! The rows that a scheduler keeps: channels, service flows and waiting requests.
#![tactic(auto)]

mod at_channel;
mod blocks;
mod by_sid;
mod channel;
mod dues;
mod flow;
mod flows;
mod holders;
mod leases;
mod limits;
mod reason;
mod refusal;
mod settings;
mod table;
mod whole;

pub use channel::{Channel, ChannelRow, Phy};
pub use flow::{Flow, FlowKind, Lease, Waiting};
pub use flows::Flows;
pub use limits::{
    LARGEST_SIZE, LAST_BACKOFF, LAST_SID, LAST_TIME, LONGEST_INTERVAL, MOST_MINISLOTS,
    limits_are_these,
};
pub use reason::{Field, Reason};
pub use refusal::Refusal;
pub use settings::ChannelSettings;
pub use table::ChannelTable;
pub use whole::{NotAdopted, WholeTable};
