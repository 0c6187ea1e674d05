//! `maps --json` and `show --json`: what they print as JSON, an object a line. It opens no file.
#![tactic(auto)]

mod body_show;
mod lines;
mod plan_run;

pub use body_show::show_as_json;
pub use lines::print_line;
pub use plan_run::maps_as_json;
