//! A scheduler over lines: what they ask, and the replies. It opens no file.
#![tactic(auto)]

mod asking;
mod form;
mod incoming;
mod laws;
mod outgoing;
mod service;
mod texts;

pub use asking::command_asked;
pub use form::ReplyForm;
pub use incoming::{Incoming, Input, Unreadable};
pub use laws::one_meaning;
pub use outgoing::{Output, Reply};
pub use service::{End, serve};
