//! The words of the command line, read and refused.
#![tactic(auto)]

mod commands;
mod usages;
mod words;

pub use words::{
    AuditWords, DrawWords, HostAsked, JournalWords, StoreWords, Subject, Words, read_words, refused,
};
