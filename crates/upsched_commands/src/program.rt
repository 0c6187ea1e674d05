//! From the words of the command line to how the program ends.

use crate::audit_run::run_audit;
use crate::host_run::run_host;
use crate::node_run::run_node;
use crate::plan_runs::{
    run_capture, run_check, run_draw, run_maps, run_maps_as_json, run_maps_named, run_script_words,
    run_stats, run_stats_as_json,
};
use crate::resume_run::run_resume;
use crate::scheduler_run::run_scheduler;
use crate::script_runs::{run_live, run_plain, run_run, run_run_as_json};
use std::env;
use std::io::{ErrorKind, Read, Write};
use std::rt::Env;
use std::sync::Wait;
use std::thread::Threads;
use std::time::Clock;
use upsched_check::show_names;
use upsched_ends::{Fault, Status};
use upsched_json::show_as_json;
use upsched_maps::show;
use upsched_store::{Trace, check_store};
use upsched_words::{Words, read_words, refused};

/// The words of the command line, or how the program ends without them.
fn given_words<R: Env + AllocGlobal, E: Write>(
    rt: &R,
    errors: &mut E,
) -> Result<Vec<String>, Status> {
    match env::args(rt) {
        Ok(mut given) => match given.collect(rt.alloc()) {
            Ok(given) => Ok(given),
            Err(_) => Err(Fault::Memory.told(errors)),
        },
        Err(error) if error.kind() == ErrorKind::OutOfMemory => Err(Fault::Memory.told(errors)),
        Err(_) => {
            let _ = writeln!(errors, "error: a word isn't UTF-8");
            Err(Status::NotUnderstood)
        }
    }
}

/// Ends as the command does that the words name. A file of it that can't be opened is a fault.
fn run_command<'a, T: Threads + Wait + Clock + Sync + AllocGlobal, I: Read, O: Write, E: Write>(
    rt: &HostRuntime,
    threads: &T,
    words: &Words<'a>,
    input: &mut I,
    output: &mut O,
    errors: &mut E,
) -> Result<Status, Fault<'a>> {
    match words {
        Words::Maps(words) => run_maps(rt, words, output, errors),
        Words::Run(words) => run_run(rt, words, Trace::Off, output, errors),
        Words::Trace(words) => run_run(rt, words, Trace::Letters, output, errors),
        Words::TraceNamed(words) => run_run(rt, words, Trace::Named, output, errors),
        Words::PlainScript(words) => run_plain(rt, words, output, errors),
        Words::MapsNamed(words) => run_maps_named(rt, words, output, errors),
        Words::Resume(words) => Ok(run_resume(rt, words, output, errors)),
        Words::MapsAsJson(words) => run_maps_as_json(rt, words, output, errors),
        Words::RunAsJson(words) => run_run_as_json(rt, words, false, output, errors),
        Words::TraceAsJson(words) => run_run_as_json(rt, words, true, output, errors),
        Words::Check(words) => run_check(rt, words, output, errors),
        Words::CheckStore(words) => Ok(check_store(rt, words.folder, output, errors)),
        Words::Capture(words) => run_capture(rt, words, output, errors),
        Words::Stats(words) => run_stats(rt, words, output, errors),
        Words::StatsAsJson(words) => run_stats_as_json(rt, words, output, errors),
        Words::Script(words) => run_script_words(rt, words, output, errors),
        Words::Draw(words) => run_draw(rt, words, output, errors),
        Words::Show(words) => Ok(show(rt.alloc(), words, output, errors)),
        Words::ShowNames(words) => Ok(show_names(rt.alloc(), words, output, errors)),
        Words::ShowAsJson(words) => Ok(show_as_json(rt.alloc(), words, output, errors)),
        Words::Live(words) => run_live(rt, threads, words, output, errors),
        Words::Scheduler(form) => Ok(run_scheduler(rt.alloc(), *form, input, output, errors)),
        Words::Node(words, journal) => Ok(run_node(rt, words, *journal, input, output, errors)),
        Words::Host(asked) => Ok(run_host(rt, asked, input, output, errors)),
        Words::Audit(words) => run_audit(rt, words, output, errors),
    }
}

/// Reads the words, the program's own name first, and ends as the command does that they name. Threads are made, and
/// waited for, by `threads`.
pub fn run_words<
    T: Threads + Wait + Clock + Sync + AllocGlobal,
    I: Read + Drop,
    O: Write,
    E: Write,
>(
    rt: &HostRuntime,
    threads: &T,
    given: &[String],
    mut input: I,
    output: &mut O,
    errors: &mut E,
) -> Status {
    let words = match read_words(rt.alloc(), given) {
        Ok(words) => words,
        Err(error) => return refused(&error, output, errors),
    };
    match run_command(rt, threads, &words, &mut input, output, errors) {
        Ok(status) => status,
        Err(fault) => fault.told(errors),
    }
}

/// Ends as the words of the command line say. Threads are made, and waited for, by `threads`.
pub fn run<T: Threads + Wait + Clock + Sync + AllocGlobal, I: Read + Drop, O: Write, E: Write>(
    rt: &HostRuntime,
    threads: &T,
    input: I,
    output: &mut O,
    errors: &mut E,
) -> Status {
    match given_words(rt, errors) {
        Ok(given) => run_words(rt, threads, given.as_slice(), input, output, errors),
        Err(status) => status,
    }
}
