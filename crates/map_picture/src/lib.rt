//! The MAPs of commands as a picture: for each channel a row an owner, a row a request, and a row a MAP with a wedge
//! for each transmission in it.
#![tactic(auto)]

mod asked;
mod axis;
mod cells;
mod columns;
mod drawn;
mod legend;
mod owners;
mod picked;
mod rows;
mod scales;
mod sent;
mod shapes;
mod style;
mod wedges;
mod widths;
mod windows;
mod words;

pub use cells::{cells_fill, ends_agree};
pub use columns::owners_fit;
pub use drawn::picture;
pub use scales::numbers_are_round;
pub use sent::Sent;
