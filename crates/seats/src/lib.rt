//! What a world of nodes and modems is made of: a node's seat, the modems, and what they answer.
#![tactic(auto)]

mod acted;
mod answer;
mod keeping;
mod opening;
mod receivers;
mod seat;

pub use acted::{Acted, Asked};
pub use answer::{Answer, OutOfMemory, ReleasedOutput, Report, Transmission};
pub use keeping::Keeps;
pub use opening::{PlainNode, new_modems, nodes_by_number, plain_nodes};
pub use receivers::{Receivers, ask, hear_near, tick_at};
pub use seat::Seat;
