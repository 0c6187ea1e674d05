//! The lines that a node reads, and those by which its letters go out.
#![tactic(auto)]

mod ahead;
mod command;
mod digits;
mod fault;
mod input;
mod laws;
mod reading;
mod request;
mod writing;

pub use ahead::Ahead;
pub use command::{LONGEST_COMMAND, command_in};
pub use fault::LineFault;
pub use input::{LONGEST_LINE, Next, next_line, next_line_within};
pub use laws::{no_line_is_longer, one_meaning};
pub use reading::{behind, bytes_from, read_line};
pub use request::Request;
pub use writing::{Unwritten, write_letters};
