//! Commands, plans, events and scripts as text in TOML, and their readers.
#![tactic(auto)]

mod command_table;
mod entry_table;
mod event_table;
mod fields;
mod plan;
mod script;
mod step_script;
mod step_table;

pub use command_table::command_of;
pub use event_table::event_of;
pub use fields::tables_at;
pub use plan::{PlanFault, read_plan};
pub use script::{Script, ScriptFault, read_script};
pub use step_script::{StepScript, events_are_steps, read_steps};
