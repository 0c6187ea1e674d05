//! Requests as they come.

ghost use Rattle.std.specs.Prelude.{ℕ, List, Option, IfOk, OnErr, Ok};
ghost use Rattle.node_lines.specs.Lines.{longest_line};
ghost use Rattle.node_lines.specs.Input.{IsLine};
ghost use Rattle.node_service.specs.Incoming.{IsAnswered, Comes};
ghost use Rattle.node_service.specs.declared.incoming.Incoming.{Incoming as What};

use ballots::Bytes;
use node_lines::{LineFault, Next, Request, next_line, read_line};
use std::alloc::Global;
use std::io::Read;

/// What comes next.
#[derive(Drop)]
pub enum Incoming {
    /// A line asks this.
    Asks(Request),
    /// A line asks nothing, or there is no memory for what it asks.
    Refused(LineFault),
    /// No whole line is left.
    End,
}

/// The input failed.
#[derive(Clone, Copy, Debug, PartialEq, Eq)]
pub struct Unreadable;

/// Where lines come from.
pub trait Input {
    // The bytes that are left, where they are known.
    ghost bytes_left: { Self → Option (List ℕ) };

    // From the first on this came next, and it was the second then.
    ghost gives: { Self → What → Self → Type 0 };

    // From the first on it failed, and it was the second then.
    ghost fails: { Self → Self → Type 0 };

    /// What comes next.
    fn next_request(&mut self, alloc: Global) -> Result<Incoming, Unreadable>
        ensures comes { IfOk result (Comes (bytes_left self.old) (bytes_left self.new)) }
        ensures gives { IfOk result (λ what. gives self.old what self.new) }
        ensures fails { OnErr result (fails self.old self.new) };
}

/// What a line that was read asks.
fn what_is_asked(alloc: Global, line: Bytes) -> Incoming
    ensures { IsAnswered line result }
{
    match read_line(alloc, line) {
        Ok(asked) => Incoming::Asks(asked),
        Err(why) => Incoming::Refused(why),
    }
}

/// Any reader, best a buffered one. Nothing is said of when it fails.
impl<R: Read> Input for R {
    ghost bytes_left = { R.remaining };

    ghost gives = { λ old what new. Comes (R.remaining old) (R.remaining new) what };

    ghost fails = { λ old new. Unit {0} };

    fn next_request(&mut self, alloc: Global) -> Result<Incoming, Unreadable> {
        match next_line(alloc, self) {
            Ok(Next::Line(line)) => Ok(what_is_asked(alloc, line)),
            Ok(Next::Refused(why)) => Ok(Incoming::Refused(why)),
            Ok(Next::End) => Ok(Incoming::End),
            Err(_) => Err(Unreadable),
        }
    }
}
