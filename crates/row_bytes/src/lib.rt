//! The tables of a scheduler as bytes, each list of tables in one spelling.
#![tactic(auto)]

mod fault;
mod fields;
mod laws;
mod reading;
mod rows;
mod writing;

pub use fault::RowsFault;
pub use laws::one_spelling_of_rows;
pub use reading::read_rows;
pub use writing::write_rows;
