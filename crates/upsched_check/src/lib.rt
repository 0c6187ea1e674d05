//! What shows a plan, a script or a MAP body to a person: `check`, whether a text is good, and if not, what is wrong
//! where; `capture`, `stats`, `draw_plan` and `draw_text`, a plan's MAPs as frames, what they give, and how they look;
//! and `show_names`, a body with the names of its uses. It opens no file.
#![tactic(auto)]

mod accounts;
mod captures;
mod form;
mod json_lines;
mod named_body;
mod place;
mod plan_draws;
mod plan_stats;
mod plan_words;
mod sight;

pub use captures::capture;
pub use form::{CheckWords, Form};
pub use json_lines::stats_as_json;
pub use named_body::show_names;
pub use plan_draws::{draw_commands, draw_plan, draw_text, tell_commands};
pub use plan_stats::stats;
pub use plan_words::{CaptureWords, StatsWords, is_plan_text, tell_plan};
pub use sight::{check, report};
