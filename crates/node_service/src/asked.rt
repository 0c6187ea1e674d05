//! What a line that came asks of a node.

ghost use Rattle.std.specs.Prelude.{MatchResult};
ghost use Rattle.node_service.specs.Came.{IsAskedBy, IsRefusedBy};

use ballots::Bytes;
use node_lines::{LineFault, Request, read_line};
use std::alloc::Global;

/// What a line asks that came, or why it asks nothing or was let go.
pub fn request_of(alloc: Global, line: Result<Bytes, LineFault>) -> Result<Request, LineFault>
    ensures { MatchResult result (IsAskedBy line) (IsRefusedBy line) }
{
    match line {
        Ok(line) => read_line(alloc, line),
        Err(why) => Err(why),
    }
}
