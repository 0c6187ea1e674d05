//! Runs that are watched, in rows: of each event what it did, the letters and the outputs that it brought, who prepares
//! and leads which ballot from then on, and what is learned; and which letter shows first that a value is chosen at a
//! place.
#![tactic(auto)]

mod counting;
mod course;
mod mark;
mod post;
mod row;
mod sight;
mod stepping;
mod texts;
mod watched;
mod watching;

pub use counting::choices;
pub use mark::{Marks, Stage};
pub use post::Post;
pub use row::{Letters, Row};
pub use sight::Sight;
pub use stepping::{plain_steps, step_runs, watch_steps};
pub use texts::post_text;
pub use watched::Watched;
