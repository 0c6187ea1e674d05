//! The scheduler's outputs and MAP bodies as JSON.
#![tactic(auto)]

mod bodies;
mod elements;
mod fields;
mod names;
mod outputs;
mod texts;

pub use bodies::body_text;
pub use fields::{put_number, put_text, put_time};
pub use outputs::{command_text, put_output};
pub use texts::text_of;
