//! How a run of the program ended, and how it should have.

use std::io::Write;
use std::rt::Files;
use std::{fs, io};
use upsched_ends::Status;

/// How a command ended, and what it wrote.
#[derive(Debug, Drop)]
pub struct Run {
    pub status: Status,
    pub output: Vec<u8>,
    pub errors: Vec<u8>,
}

/// How a command should end, and what it should write.
#[derive(Clone, Copy)]
pub struct Wanted<'a> {
    pub status: Status,
    pub output: &'a [u8],
    pub errors: &'a [u8],
}

impl<'a> Wanted<'a> {
    /// All goes well, and this is printed.
    pub fn done(output: &'a [u8]) -> Wanted<'a> {
        Wanted {
            status: Status::Done,
            output,
            errors: &[],
        }
    }

    /// It ends with a fault, which is told in this line.
    pub fn faulted(errors: &'a [u8]) -> Wanted<'a> {
        Wanted {
            status: Status::Faulted,
            output: &[],
            errors,
        }
    }
}

/// Whether a run on these words is as it should be. It is told where it isn't.
pub fn is_as_wanted<O: Write>(
    words: &[&str],
    run: &Run,
    wanted: Wanted<'_>,
    output: &mut O,
) -> io::Result<bool> {
    if run.status == wanted.status
        && run.output.as_slice() == wanted.output
        && run.errors.as_slice() == wanted.errors
    {
        return Ok(true);
    }
    writeln!(output, "{words:?} prints something else: {run:?}")?;
    Ok(false)
}

/// What stands beside an example: what it prints, or the line of its fault.
#[derive(Drop)]
pub struct Beside {
    is_fault: bool,
    text: Vec<u8>,
}

impl Beside {
    /// What stands beside the example of this path without its ending.
    pub fn read<R: Files + AllocGlobal>(rt: &R, stem: &str) -> io::Result<Beside> {
        let output = format!(in rt.alloc(); "{stem}.stdout")?;
        let errors = format!(in rt.alloc(); "{stem}.stderr")?;
        let is_fault = !fs::exists(rt, output.as_str())?;
        let path = if is_fault { errors } else { output };
        let text = fs::read(rt, path.as_str())?;
        Ok(Beside { is_fault, text })
    }

    /// How the example should end.
    pub fn wanted(&self) -> Wanted<'_> {
        if self.is_fault {
            Wanted::faulted(self.text.as_slice())
        } else {
            Wanted::done(self.text.as_slice())
        }
    }
}
