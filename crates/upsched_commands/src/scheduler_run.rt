//! `upsched scheduler`: one scheduler over the lines of standard input.

use std::alloc::Global;
use std::io::{BufReader, Read, Write};
use upsched_ends::{Fault, Status};
use upsched_scheduler::{ReplyForm, scheduler};

/// Reads lines from the input and ends as `scheduler` does.
pub(crate) fn run_scheduler<I: Read, O: Write, E: Write>(
    alloc: Global,
    form: ReplyForm,
    input: &mut I,
    output: &mut O,
    errors: &mut E,
) -> Status {
    match BufReader::new(alloc, input) {
        Ok(mut input) => scheduler(alloc, form, &mut input, output, errors),
        Err(_) => Fault::Memory.told(errors),
    }
}
