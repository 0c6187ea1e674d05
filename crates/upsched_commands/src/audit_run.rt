//! `upsched audit --members M [--counts] J0 J1 J2`: the files of the journals are opened.

use crate::opening::opened;
use std::fs::File;
use std::io::Write;
use upsched_audit::{Asked, JournalFile, NO_JOURNALS, audit_files, audited_members};
use upsched_ends::{Fault, Status};
use upsched_words::AuditWords;

/// The files at these paths.
fn files_at<'a>(
    rt: &HostRuntime,
    paths: &[&'a str],
) -> Result<Vec<JournalFile<'a, File>>, Fault<'a>> {
    let mut files = Vec::new(rt.alloc());
    for path in paths {
        let file = opened(rt, *path)?;
        if files.push(JournalFile { path: *path, file }).is_err() {
            return Err(Fault::Memory);
        }
    }
    Ok(files)
}

/// Opens the journals that the words name and ends as `audit_files` does.
pub(crate) fn run_audit<'a, O: Write, E: Write>(
    rt: &HostRuntime,
    words: &AuditWords<'a>,
    output: &mut O,
    errors: &mut E,
) -> Result<Status, Fault<'a>> {
    let Some(members) = audited_members(words.members, words.journals.len()) else {
        let _ = writeln!(errors, "{NO_JOURNALS}");
        return Ok(Status::NotUnderstood);
    };
    let files = files_at(rt, words.journals.as_slice())?;
    let asked = Asked {
        members,
        paths: words.journals.as_slice(),
        counts: words.counts,
    };
    Ok(audit_files(rt.alloc(), &asked, files, output, errors))
}
