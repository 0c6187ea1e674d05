//! Replies as they go out.

ghost use Rattle.std.specs.Prelude.{◌≡◌, ℕ, List, Option, [], IfErr, OnOk};
ghost use Rattle.std.specs.Io.KnownBytes.{Appends};
ghost use Rattle.node_lines.specs.declared.writing.Unwritten.{Unwritten as Why};
ghost use Rattle.node_service.specs.declared.outgoing.Reply.{Reply as Replied};
ghost use Rattle.node_service.specs.Texts.{acted_text, fresh_text, given_text, head_text, place_line, place_lines};
ghost use Rattle.node_service.specs.Texts.{reply_text, restarted_text};
ghost use Rattle.node_service.specs.Texts.{fault_text, letter_fault_name, line_fault_name, no_letter_text};
ghost use Rattle.node_service.specs.Texts.{refused_text};

use crate::outbox::Told;
use ballots::{Members, NodeId};
use letter_bytes::LetterFault;
use map_release::Numbered;
use node_lines::{LineFault, Unwritten, write_letters};
use printed_answers::answer_text;
use printed_outputs::output_text;
use seats::{Acted, Answer};
use std::alloc::Global;
use std::io::Write;

/// What is told at one time: the reply to a line, or before the first one who replies.
#[derive(Drop)]
pub enum Reply {
    /// This node of so many is there, and holds nothing.
    Fresh(NodeId, Members),
    /// This node of so many is there again, and goes on over what it left.
    Restarted(NodeId, Members),
    /// The line asked something, and this came of it.
    Acted(Acted),
    /// The line asked nothing, or there was no memory for what it asked.
    Refused(LineFault),
}

/// Where replies go.
pub trait Output {
    // The bytes that it holds, where they are known.
    ghost bytes_held: { Self → Option (List ℕ) };

    // From the first on it failed so at a reply, and it was the second then.
    ghost fails: { Self → Replied → Why → Self → Type 0 };

    /// Writes a reply, all of it, and sends it out.
    fn write_reply(&mut self, alloc: Global, reply: &Reply) -> Result<(), Unwritten>
        ensures written { OnOk result (Appends (bytes_held self.old) (bytes_held self.new) (reply_text reply.now)) }
        ensures fails { IfErr result (λ why. fails self.old reply.now why self.new) };
}

/// The name of what is wrong with a letter's bytes.
fn letter_fault_name(fault: LetterFault) -> &'static str
    ensures { result.now ≡ letter_fault_name fault }
{
    match fault {
        LetterFault::Short => "Short",
        LetterFault::NoNote => "NoNote",
        LetterFault::NoNode => "NoNode",
        LetterFault::NoBallot => "NoBallot",
        LetterFault::Trailing => "Trailing",
        LetterFault::OutOfMemory => "OutOfMemory",
    }
}

/// The name of a line's fault.
fn line_fault_name(fault: LineFault) -> &'static str
    ensures { result.now ≡ line_fault_name fault }
{
    match fault {
        LineFault::NoLine => "NoLine",
        LineFault::NoHex => "NoHex",
        LineFault::NoNumber => "NoNumber",
        LineFault::NoCommand => "NoCommand",
        LineFault::NoLetter(_) => "NoLetter",
        LineFault::OutOfMemory => "OutOfMemory",
        LineFault::TooLong => "TooLong",
    }
}

fn write_head<W: Write>(alloc: Global, told: Answer, output: &mut W) -> Result<(), Unwritten>
    ensures { OnOk result (Appends (W.contents output.old) (W.contents output.new) (head_text told)) }
{
    let Ok(text) = answer_text(alloc, told) else {
        return Err(Unwritten::OutOfMemory);
    };
    writeln!(output, "{text}")?;
    Ok(())
}

fn write_place<W: Write>(alloc: Global, one: &Numbered, output: &mut W) -> Result<(), Unwritten>
    ensures { OnOk result (Appends (W.contents output.old) (W.contents output.new) (place_line one.now)) }
{
    let Ok(text) = output_text(alloc, &one.output) else {
        return Err(Unwritten::OutOfMemory);
    };
    writeln!(output, "place {} {text}", one.place)?;
    Ok(())
}

fn write_places<W: Write>(
    alloc: Global,
    outputs: &[Numbered],
    output: &mut W,
) -> Result<(), Unwritten>
    ensures { OnOk result (Appends (W.contents output.old) (W.contents output.new) (place_lines outputs.now)) }
{
    for one in outputs {
        write_place(alloc, one, output)?;
    }
    Ok(())
}

/// Writes what goes out with an answer.
fn write_given<W: Write>(alloc: Global, acted: &Acted, output: &mut W) -> Result<(), Unwritten>
    ensures { OnOk result (Appends (W.contents output.old) (W.contents output.new) (given_text acted.now)) }
{
    match acted {
        Acted::Sent(letters) => write_letters(alloc, letters, output),
        Acted::Released(outputs) => write_places(alloc, outputs, output),
        _ => Ok(()),
    }
}

fn write_acted<W: Write>(alloc: Global, acted: &Acted, output: &mut W) -> Result<(), Unwritten>
    ensures { OnOk result (Appends (W.contents output.old) (W.contents output.new) (acted_text acted.now)) }
{
    write_head(alloc, acted.told(), output)?;
    write_given(alloc, acted, output)
}

fn write_no_letter<W: Write>(why: LetterFault, output: &mut W) -> Result<(), Unwritten>
    ensures { OnOk result (Appends (W.contents output.old) (W.contents output.new) (no_letter_text why)) }
{
    let number = LineFault::NoLetter(why).number();
    writeln!(output, "error {number} NoLetter {}", letter_fault_name(why))?;
    Ok(())
}

fn write_fault<W: Write>(why: LineFault, output: &mut W) -> Result<(), Unwritten>
    ensures { OnOk result (Appends (W.contents output.old) (W.contents output.new) (fault_text why)) }
{
    writeln!(output, "error {} {}", why.number(), line_fault_name(why))?;
    Ok(())
}

fn write_refused<W: Write>(why: LineFault, output: &mut W) -> Result<(), Unwritten>
    ensures { OnOk result (Appends (W.contents output.old) (W.contents output.new) (refused_text why)) }
{
    match why {
        LineFault::NoLetter(of_bytes) => write_no_letter(of_bytes, output),
        _ => write_fault(why, output),
    }
}

fn write_fresh<W: Write>(id: NodeId, members: Members, output: &mut W) -> Result<(), Unwritten>
    ensures { OnOk result (Appends (W.contents output.old) (W.contents output.new) (fresh_text id members)) }
{
    writeln!(output, "node {} of {} fresh", id.number(), members.count())?;
    Ok(())
}

fn write_restarted<W: Write>(id: NodeId, members: Members, output: &mut W) -> Result<(), Unwritten>
    ensures { OnOk result (Appends (W.contents output.old) (W.contents output.new) (restarted_text id members)) }
{
    writeln!(
        output,
        "node {} of {} restarted",
        id.number(),
        members.count()
    )?;
    Ok(())
}

fn write_text<W: Write>(alloc: Global, reply: &Reply, output: &mut W) -> Result<(), Unwritten>
    ensures { OnOk result (Appends (W.contents output.old) (W.contents output.new) (reply_text reply.now)) }
{
    match reply {
        Reply::Fresh(id, members) => write_fresh(*id, *members, output),
        Reply::Restarted(id, members) => write_restarted(*id, *members, output),
        Reply::Acted(acted) => write_acted(alloc, acted, output),
        Reply::Refused(why) => write_refused(*why, output),
    }
}

impl Told for Reply {
    ghost text = { reply_text };

    fn write_to<W: Write>(&self, alloc: Global, output: &mut W) -> Result<(), Unwritten> {
        write_text(alloc, self, output)
    }
}

/// Any writer. Each reply is flushed. Nothing is said of when it fails.
impl<W: Write> Output for W {
    ghost bytes_held = { W.contents };

    ghost fails = { λ old replied why new. Unit {0} };

    fn write_reply(&mut self, alloc: Global, reply: &Reply) -> Result<(), Unwritten> {
        write_text(alloc, reply, self)?;
        self.flush()?;
        Ok(())
    }
}
