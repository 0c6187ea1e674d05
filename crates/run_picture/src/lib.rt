//! The picture of a run as a space-time diagram: time goes down, a row an event, a lane a node or a modem.
#![tactic(auto)]

mod arrows;
mod drawn;
mod heads;
mod lanes;
mod legend;
mod marks;
mod parts;
mod roles;
mod rows;
mod scene;
mod words;

pub use drawn::picture;
