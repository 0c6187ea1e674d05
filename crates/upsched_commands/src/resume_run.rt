//! `upsched resume PLAN`: from the tables of a file to those of another.

use crate::left_file::LeftFile;
use crate::opening::opened;
use grant_machine::Machine;
use std::fs::File;
use std::io::Write;
use upsched_ends::{Fault, Status};
use upsched_resume::{ResumeFault, ResumeWords, file_of, machine_of, resume};

/// A plan, and the scheduler that takes its commands.
#[derive(Drop)]
struct Begun {
    plan: File,
    machine: Machine,
}

/// The scheduler at the tables of the file of this path. Without one no channel is set.
fn machine_from<'a>(rt: &HostRuntime, from: Option<&'a str>) -> Result<Machine, ResumeFault<'a>> {
    let Some(path) = from else {
        return Ok(Machine::new(rt.alloc()));
    };
    let mut file = opened(rt, path)?;
    machine_of(rt.alloc(), &mut file, path)
}

/// Opens the plan and reads the tables.
fn begin<'a>(rt: &HostRuntime, words: &ResumeWords<'a>) -> Result<Begun, ResumeFault<'a>> {
    let plan = opened(rt, words.plan)?;
    let machine = machine_from(rt, words.from)?;
    Ok(Begun { plan, machine })
}

/// Prints the outputs of the plan.
fn resume_begun<'a, O: Write>(
    rt: &HostRuntime,
    words: &ResumeWords<'a>,
    begun: &mut Begun,
    output: &mut O,
) -> Result<(), Fault<'a>> {
    let Begun { plan, machine } = begun;
    resume(rt.alloc(), machine, plan, words.plan, output)
}

/// The same, and leaves the tables behind the plan in the file.
fn leave<'a, O: Write>(
    rt: &HostRuntime,
    words: &ResumeWords<'a>,
    begun: &mut Begun,
    file: &mut LeftFile<'a>,
    output: &mut O,
) -> Result<(), Fault<'a>> {
    resume_begun(rt, words, begun, output)?;
    let bytes = file_of(rt.alloc(), &begun.machine)?;
    file.put(rt, bytes.as_slice())?;
    Ok(())
}

/// The same with the file of this path. Where there is a fault, what was there stays.
fn leave_at<'a, O: Write>(
    rt: &HostRuntime,
    words: &ResumeWords<'a>,
    begun: &mut Begun,
    path: &'a str,
    output: &mut O,
) -> Result<(), Fault<'a>> {
    let mut file = LeftFile::create(rt, path)?;
    let answer = leave(rt, words, begun, &mut file, output);
    if answer.is_err() {
        file.remove_part(rt);
    }
    answer
}

/// Prints the outputs of the plan from the tables of a file on, and leaves those behind them where the words say so.
fn resume_words<'a, O: Write>(
    rt: &HostRuntime,
    words: &ResumeWords<'a>,
    output: &mut O,
) -> Result<(), ResumeFault<'a>> {
    let mut begun = begin(rt, words)?;
    match words.to {
        Some(path) => leave_at(rt, words, &mut begun, path, output)?,
        None => resume_begun(rt, words, &mut begun, output)?,
    }
    Ok(())
}

/// Does so, and tells a fault in one line.
pub(crate) fn run_resume<'a, O: Write, E: Write>(
    rt: &HostRuntime,
    words: &ResumeWords<'a>,
    output: &mut O,
    errors: &mut E,
) -> Status {
    match resume_words(rt, words, output) {
        Ok(()) => Status::Done,
        Err(fault) => fault.told(errors),
    }
}
