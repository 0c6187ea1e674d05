//! `upsched node K --members M`, with its records in memory or in a file, and with a journal or without one.

use crate::journaling::{Serves, serve_lines};
use node_lines::Ahead;
use std::io::{BufReader, Read, Write};
use upsched_ends::{Fault, NodeWords, Status};
use upsched_store::{member_of, node, stored_node};
use upsched_words::JournalWords;

/// The bytes of lines that a node over a file takes from its input at once: what comes together shares a sync.
const STORED_CAPACITY: usize = 65536;

/// Ends as `node` does, or as `stored_node` where the words name a file of records.
impl Serves for NodeWords<'_> {
    fn is_named(&self) -> bool {
        member_of(self.number, self.members).is_some()
    }

    fn serve<I: Read + Ahead, O: Write, E: Write>(
        &self,
        rt: &HostRuntime,
        input: &mut I,
        output: &mut O,
        errors: &mut E,
    ) -> Status {
        match self.store {
            None => node(rt.alloc(), self, input, output, errors),
            Some(path) => stored_node(rt, self, path, input, output, errors),
        }
    }
}

/// Reads lines from the input and ends as `node` does. Words that name no member are told before a journal is opened.
pub(crate) fn run_node<I: Read, O: Write, E: Write>(
    rt: &HostRuntime,
    words: &NodeWords<'_>,
    journal: Option<JournalWords<'_>>,
    input: &mut I,
    output: &mut O,
    errors: &mut E,
) -> Status {
    let buffered = match words.store {
        None => BufReader::new(rt.alloc(), input),
        Some(_) => BufReader::with_capacity(rt.alloc(), STORED_CAPACITY, input),
    };
    match buffered {
        Ok(input) => serve_lines(rt, words, journal, input, output, errors),
        Err(_) => Fault::Memory.told(errors),
    }
}
