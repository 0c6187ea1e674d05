//! Values by place: most in one run of places, the others in trees. Bytes that are kept in little room.
#![tactic(auto)]

mod kept;
mod table;

pub use kept::Kept;
pub use table::Table;
