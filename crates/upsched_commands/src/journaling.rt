//! What serves over lines, with a journal or without one.

use crate::journal_file::JournalFile;
use node_lines::Ahead;
use node_tape::{Heard, Spoken};
use std::io::{BufReader, BufWriter, Read, Write};
use upsched_ends::{Fault, Status};
use upsched_words::JournalWords;

/// What serves over lines, as words say.
pub(crate) trait Serves {
    /// Whether the words name one that can serve. If not, `serve` says so, and no journal is opened.
    fn is_named(&self) -> bool;

    /// Serves until the lines end.
    fn serve<I: Read + Ahead, O: Write, E: Write>(
        &self,
        rt: &HostRuntime,
        input: &mut I,
        output: &mut O,
        errors: &mut E,
    ) -> Status;
}

/// Serves so that each line is in the journal before it is obeyed, and its reply before that goes out: so no two share
/// a sync. Nothing is obeyed where the journal's file can't be opened.
fn serve_journaled<S: Serves, I: Read + Drop, O: Write, E: Write>(
    rt: &HostRuntime,
    serves: &S,
    journal: &JournalWords<'_>,
    input: I,
    output: &mut O,
    errors: &mut E,
) -> Status {
    let (Ok(lines), Ok(replies)) = (
        JournalFile::open(rt, journal),
        JournalFile::open(rt, journal),
    ) else {
        let _ = writeln!(errors, "upsched: cannot write {}", journal.path);
        return Status::Faulted;
    };
    let mut heard = Heard::new(rt.alloc(), input, lines);
    match BufWriter::new(rt.alloc(), Spoken::new(output, replies)) {
        Ok(mut spoken) => serves.serve(rt, &mut heard, &mut spoken, errors),
        Err(_) => Fault::Memory.told(errors),
    }
}

/// Serves, with a journal where one is named.
pub(crate) fn serve_lines<S: Serves, R: Read + Drop, O: Write, E: Write>(
    rt: &HostRuntime,
    serves: &S,
    journal: Option<JournalWords<'_>>,
    mut input: BufReader<R>,
    output: &mut O,
    errors: &mut E,
) -> Status {
    match journal {
        Some(journal) if serves.is_named() => {
            serve_journaled(rt, serves, &journal, input, output, errors)
        }
        _ => serves.serve(rt, &mut input, output, errors),
    }
}
