//! `upsched host`: one member of a log that goes on over the lines of standard input, with its records in memory or in a
//! folder, and with a journal or without one.

use crate::journaling::{Serves, serve_lines};
use node_lines::Ahead;
use std::io::{BufReader, Read, Write};
use upsched_ends::{Fault, Status};
use upsched_host::{host, named_who};
use upsched_stored_host::stored_host;
use upsched_words::HostAsked;

/// The bytes of lines that a host takes from its input at once: what comes together goes out together, and shares the
/// syncs of its files.
const INPUT_CAPACITY: usize = 65536;

/// Ends as `host` does, or as `stored_host` where the words name a folder.
impl Serves for HostAsked<'_> {
    fn is_named(&self) -> bool {
        named_who(&self.host).is_ok()
    }

    fn serve<I: Read + Ahead, O: Write, E: Write>(
        &self,
        rt: &HostRuntime,
        input: &mut I,
        output: &mut O,
        errors: &mut E,
    ) -> Status {
        match &self.folder {
            None => host(rt.alloc(), &self.host, input, output, errors),
            Some(folder) => stored_host(rt, &self.host, folder, input, output, errors),
        }
    }
}

/// Reads lines from the input and ends as `host` does. Words that name no host are told before a journal is opened.
pub(crate) fn run_host<I: Read, O: Write, E: Write>(
    rt: &HostRuntime,
    asked: &HostAsked<'_>,
    input: &mut I,
    output: &mut O,
    errors: &mut E,
) -> Status {
    match BufReader::with_capacity(rt.alloc(), INPUT_CAPACITY, input) {
        Ok(input) => serve_lines(rt, asked, asked.journal, input, output, errors),
        Err(_) => Fault::Memory.told(errors),
    }
}
