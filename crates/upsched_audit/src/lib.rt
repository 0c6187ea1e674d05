//! `upsched audit --members M [--counts] J0 J1 J2`: whether journals of nodes that are processes are the lines of legal records.
//! It opens no file.
#![tactic(auto)]

mod audit_run;
mod journals;
mod verdict_line;

pub use audit_run::{Asked, audit, audit_files, print_audit};
pub use journals::{JournalFile, NO_JOURNALS, audited_members, journal_of, journals_of};
