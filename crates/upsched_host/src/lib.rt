//! `upsched host K --members M --places P`: one member of a log that goes on, with records in memory, over lines. It opens
//! no file.
#![tactic(auto)]

mod folder_words;
mod host_run;
mod named;

pub use folder_words::{FolderWords, HostStart};
pub use host_run::host;
pub use named::{HostWords, NO_PLACES, NoHost, PLACES_NOT_GIVEN, Who, named_who};
