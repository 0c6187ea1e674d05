//! `upsched scheduler`: one scheduler that another program drives by lines. It opens no file.
#![tactic(auto)]

mod laws;
mod scheduler_run;

pub use laws::prints_as_maps;
pub use scheduler_lines::ReplyForm;
pub use scheduler_run::scheduler;
