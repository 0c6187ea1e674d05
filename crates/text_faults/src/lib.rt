//! What is wrong with a plan or a script, table by table and key by key.
#![tactic(auto)]

mod fault;
mod kind;
mod row;
mod search;
mod texts;
mod unread;
mod wants;

pub use fault::{Fault, Found, Place};
pub use kind::{Group, Kind};
pub use row::{Choice, Key, Wants};
pub use search::{plan_faults, script_faults};
pub use texts::fault_text;
pub use unread::{Unread, plan_unread, script_unread, unread_text};
