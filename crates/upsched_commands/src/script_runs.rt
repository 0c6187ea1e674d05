//! Commands over nodes that the program itself makes: `run` and `live`.

use crate::opening::opened;
use std::io::Write;
use std::sync::Wait;
use std::thread::Threads;
use std::time::Clock;
use upsched_ends::{Fault, LiveWords, RunWords, Status};
use upsched_live::live;
use upsched_store::{
    Trace, name_script, plain_script, run_as_json, run_script, run_stored_as_json,
    run_stored_script, trace_as_json, trace_script,
};

/// Opens the script and ends as `run_script`, `trace_script` or `name_script` does, or as `run_stored_script` where the
/// words name a folder.
pub(crate) fn run_run<'a, O: Write, E: Write>(
    rt: &HostRuntime,
    words: &RunWords<'a>,
    trace: Trace,
    output: &mut O,
    errors: &mut E,
) -> Result<Status, Fault<'a>> {
    let mut script = opened(rt, words.script)?;
    if let Some(folder) = words.store {
        return Ok(run_stored_script(rt, &mut script, words, folder, trace, output, errors));
    }
    Ok(match trace {
        Trace::Off => run_script(rt, &mut script, words, output, errors),
        Trace::Letters => trace_script(rt, &mut script, words, output, errors),
        Trace::Named => name_script(rt, &mut script, words, output, errors),
    })
}

/// Opens the script and ends as `plain_script` does.
pub(crate) fn run_plain<'a, O: Write, E: Write>(
    rt: &HostRuntime,
    words: &RunWords<'a>,
    output: &mut O,
    errors: &mut E,
) -> Result<Status, Fault<'a>> {
    let mut script = opened(rt, words.script)?;
    Ok(plain_script(rt.alloc(), &mut script, words, output, errors))
}

/// Opens the script and ends as `run_as_json` or `trace_as_json` does, or as `run_stored_as_json` where the words name a
/// folder.
pub(crate) fn run_run_as_json<'a, O: Write, E: Write>(
    rt: &HostRuntime,
    words: &RunWords<'a>,
    is_traced: bool,
    output: &mut O,
    errors: &mut E,
) -> Result<Status, Fault<'a>> {
    let mut script = opened(rt, words.script)?;
    Ok(match words.store {
        None if is_traced => trace_as_json(rt.alloc(), &mut script, words, output, errors),
        None => run_as_json(rt.alloc(), &mut script, words, output, errors),
        Some(folder) => {
            run_stored_as_json(rt, &mut script, words, folder, is_traced, output, errors)
        }
    })
}

/// Opens the plan and ends as `live` does.
pub(crate) fn run_live<'a, T: Threads + Wait + Clock + Sync + AllocGlobal, O: Write, E: Write>(
    rt: &HostRuntime,
    threads: &T,
    words: &LiveWords<'a>,
    output: &mut O,
    errors: &mut E,
) -> Result<Status, Fault<'a>> {
    let mut plan = opened(rt, words.plan)?;
    Ok(live(rt, threads, &mut plan, words, output, errors))
}
