//! What the libraries for C share: boxes as pointers, bytes put over others, and outputs as structs.
#![tactic(auto)]

mod front;
mod loose;
mod output;

pub use front::put_front;
pub use loose::Loose;
pub use output::{OutputFields, output_fields, put_body};
