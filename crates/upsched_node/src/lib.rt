//! `upsched node K --members M`: one node, with records in memory, over lines. It opens no file.
#![tactic(auto)]

mod member;
mod node_run;
mod serving;

pub use member::member_of;
pub use node_run::{NO_MEMBER, ended, node, unread, unwritten};
pub use serving::serve_member;
