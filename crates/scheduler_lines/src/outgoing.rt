//! Replies as they go out.

ghost use Rattle.std.specs.Prelude.{ℕ, List, Option, IfErr, OnOk};
ghost use Rattle.std.specs.Io.KnownBytes.{Keeps};
ghost use Rattle.node_lines.specs.declared.writing.Unwritten.{Unwritten as Why};
ghost use Rattle.scheduler_lines.specs.Texts.{WritesReply};

use crate::form::ReplyForm;
use crate::texts::reply_text;
use grant_machine::Output as Given;
use node_lines::{LineFault, Unwritten};
use std::alloc::Global;
use std::io::Write;

/// What a line is replied to with.
#[derive(Drop)]
pub enum Reply {
    /// The command that it asked for gave this.
    Applied(Given),
    /// It asked nothing, or there was no memory for what it asked; nothing has changed.
    Refused(LineFault),
}

/// Where replies go.
pub trait Output {
    // The bytes that it holds, where they are known.
    ghost bytes_held: { Self → Option (List ℕ) };

    // From the first on it failed so, and it was the second then.
    ghost fails: { Self → Why → Self → Type 0 };

    /// Writes the reply to the line of this number, all of it. It may keep it until it is told to send.
    fn write_reply(
        &mut self,
        alloc: Global,
        form: ReplyForm,
        number: usize,
        reply: &Reply,
    ) -> Result<(), Unwritten>
        ensures written { OnOk result (WritesReply form number reply.now (bytes_held self.old) (bytes_held self.new)) }
        ensures fails { IfErr result (λ why. fails self.old why self.new) };

    /// Sends out all that was written.
    fn send(&mut self) -> Result<(), Unwritten>
        ensures kept { OnOk result (Keeps (bytes_held self.old) (bytes_held self.new)) }
        ensures fails { IfErr result (λ why. fails self.old why self.new) };
}

fn write_line<W: Write>(
    alloc: Global,
    form: ReplyForm,
    number: usize,
    reply: &Reply,
    output: &mut W,
) -> Result<(), Unwritten>
    ensures { OnOk result (WritesReply form number reply.now (W.contents output.old) (W.contents output.new)) }
{
    let Ok(text) = reply_text(alloc, form, number, reply) else {
        return Err(Unwritten::OutOfMemory);
    };
    writeln!(output, "{text}")?;
    Ok(())
}

/// Any writer, best a buffered one. Nothing is said of when it fails.
impl<W: Write> Output for W {
    ghost bytes_held = { W.contents };

    ghost fails = { λ old why new. Unit {0} };

    fn write_reply(
        &mut self,
        alloc: Global,
        form: ReplyForm,
        number: usize,
        reply: &Reply,
    ) -> Result<(), Unwritten> {
        write_line(alloc, form, number, reply, self)
    }

    fn send(&mut self) -> Result<(), Unwritten> {
        self.flush()?;
        Ok(())
    }
}
