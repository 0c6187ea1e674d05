//! A journaled input has no line ahead: each line is in the journal right before its reply.

use crate::heard::Heard;
use node_lines::Ahead;
use std::io::{Read, Write};

/// Nothing, whatever its reader has: so no two lines are obeyed together.
impl<R: Read, J: Write> Ahead for Heard<R, J> {
    ghost use Rattle.std.specs.Prelude.{[]};

    ghost ahead = { λ heard. [] };

    fn has_line(&self) -> bool {
        false
    }
}
