//! Lines as they come, whatever they ask.

ghost use Rattle.std.specs.Prelude.{ℕ, List, Option, IfOk, OnErr};
ghost use Rattle.node_lines.specs.Input.{LineComes};
ghost use Rattle.node_lines.specs.declared.input.Next.{Next as What};

use crate::incoming::Unreadable;
use node_lines::{Next, next_line};
use std::alloc::Global;
use std::io::Read;

/// Where lines come from, whatever they ask.
pub trait Lines {
    // The bytes that are left, where they are known.
    ghost bytes_left: { Self → Option (List ℕ) };

    // From the first on this came next, and it was the second then.
    ghost gives: { Self → What → Self → Type 0 };

    // From the first on it failed, and it was the second then.
    ghost fails: { Self → Self → Type 0 };

    /// What comes next.
    fn next(&mut self, alloc: Global) -> Result<Next, Unreadable>
        ensures comes { IfOk result (LineComes (bytes_left self.old) (bytes_left self.new)) }
        ensures gives { IfOk result (λ what. gives self.old what self.new) }
        ensures fails { OnErr result (fails self.old self.new) };
}

/// Any reader. Nothing is said of when it fails.
impl<R: Read> Lines for R {
    ghost bytes_left = { R.remaining };

    ghost gives = { λ old what new. LineComes (R.remaining old) (R.remaining new) what };

    ghost fails = { λ old new. Unit {0} };

    fn next(&mut self, alloc: Global) -> Result<Next, Unreadable> {
        match next_line(alloc, self) {
            Ok(what) => Ok(what),
            Err(_) => Err(Unreadable),
        }
    }
}
