//! Lines as they come.

ghost use Rattle.std.specs.Prelude.{ℕ, List, Option, IfOk, OnErr, length, ◌≤◌};
ghost use Rattle.std.specs.Io.Buffered.{reader_remaining};
ghost use Rattle.node_lines.specs.Commands.{longest_command};
ghost use Rattle.scheduler_lines.specs.Replying.{Comes, IsTakenFor};

use crate::asking::command_asked;
use ballots::Bytes;
use grant_machine::Command;
use node_lines::{LONGEST_COMMAND, LineFault, Next, next_line_within};
use std::alloc::Global;
use std::io::{BufReader, Read};

/// What comes next.
#[derive(Drop)]
pub enum Incoming {
    /// A line asks for this command.
    Asks(Command),
    /// A line asks nothing, or there is no memory for what it asks.
    Refused(LineFault),
    /// No whole line is left.
    End,
}

/// The input failed.
#[derive(Clone, Copy, Debug, PartialEq, Eq)]
pub struct Unreadable;

/// Where lines come from.
pub trait Input {
    // The bytes that are left, where they are known.
    ghost bytes_left: { Self → Option (List ℕ) };

    // From the first on it failed, and it was the second then.
    ghost fails: { Self → Self → Type 0 };

    /// Whether a whole line is there already, for which it needn't wait.
    fn has_line(&self) -> bool;

    /// What comes next. Of a line no more than `LONGEST_COMMAND` bytes are kept.
    fn next_command(&mut self, alloc: Global) -> Result<Incoming, Unreadable>
        ensures comes { IfOk result (Comes (bytes_left self.old) (bytes_left self.new)) }
        ensures fails { OnErr result (fails self.old self.new) };
}

/// What a line that was read is taken for.
fn what_is_asked(alloc: Global, line: Bytes) -> Incoming
    requires { length line ≤ longest_command }
    ensures { IsTakenFor line result }
{
    match command_asked(alloc, line) {
        Ok(command) => Incoming::Asks(command),
        Err(why) => Incoming::Refused(why),
    }
}

/// Any reader with a buffer. Nothing is said of when it fails.
impl<R: Read> Input for BufReader<R> {
    ghost bytes_left = { reader_remaining R.remaining };

    ghost fails = { λ old new. Unit {0} };

    fn has_line(&self) -> bool {
        self.buffer().contains(&b'\n')
    }

    fn next_command(&mut self, alloc: Global) -> Result<Incoming, Unreadable> {
        match next_line_within(alloc, self, LONGEST_COMMAND) {
            Ok(Next::Line(line)) => Ok(what_is_asked(alloc, line)),
            Ok(Next::Refused(why)) => Ok(Incoming::Refused(why)),
            Ok(Next::End) => Ok(Incoming::End),
            Err(_) => Err(Unreadable),
        }
    }
}
