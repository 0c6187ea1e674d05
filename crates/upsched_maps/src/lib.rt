//! What `maps` and `show` print: the outputs of a plan's commands, and a MAP body. It opens no file.
#![tactic(auto)]

mod body_show;
mod lines;
mod plan_run;
mod refusals;

pub use body_show::{body_of, show};
pub use lines::{element_text, head_text};
pub use plan_run::{maps, print_outputs};
pub use refusals::{maps_named, print_refusals};
