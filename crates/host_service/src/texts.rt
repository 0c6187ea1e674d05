//! The text of each reply.

ghost use Rattle.std.specs.Prelude.{◌++◌, OnOk};
ghost use Rattle.std.specs.Io.KnownBytes.{Appends};
ghost use Rattle.node_service.specs.Texts.{head_text, reply_text};
ghost use Rattle.seats.specs.Acted.{letters_of};
ghost use Rattle.host_service.specs.Numbers.{number_text};
ghost use Rattle.host_service.specs.Texts.{acted_text_in, ended_text, host_text, in_epoch_text, next_text};
ghost use Rattle.host_service.specs.Texts.{again_head, again_text, beginning_text, begins_text, joined_text};
ghost use Rattle.host_service.specs.Texts.{no_state_text, numbered_letter, numbered_letters, output_line};
ghost use Rattle.host_service.specs.Texts.{output_lines, restarted_text, state_text, there_text, too_long_text};
ghost use Rattle.host_service.specs.Texts.{who_text};

use crate::number::EpochNumber;
use crate::reply::{Beginning, HostReply};
use ballots::{Letter, Members, NodeId};
use grant_machine::Output;
use hosts::HostActed;
use node_lines::{Unwritten, write_letters};
use node_service::{Reply, Told};
use printed_answers::answer_text;
use printed_outputs::output_text;
use seats::{Acted, Answer};
use std::alloc::Global;
use std::io::Write;
use std::slice;

fn write_number<W: Write>(number: EpochNumber, output: &mut W) -> Result<(), Unwritten>
    ensures { OnOk result (Appends (W.contents output.old) (W.contents output.new) (number_text number)) }
{
    write!(output, "{}/{} ", number.epoch, number.places)?;
    Ok(())
}

/// The first line of what a node replied, with the number before it.
fn write_head<W: Write>(
    alloc: Global,
    number: EpochNumber,
    told: Answer,
    output: &mut W,
) -> Result<(), Unwritten>
    ensures { OnOk result (Appends (W.contents output.old) (W.contents output.new) (number_text number ++ head_text told)) }
{
    let Ok(text) = answer_text(alloc, told) else {
        return Err(Unwritten::OutOfMemory);
    };
    write_number(number, output)?;
    writeln!(output, "{text}")?;
    Ok(())
}

/// A letter's line, likewise.
fn write_letter<W: Write>(
    alloc: Global,
    number: EpochNumber,
    letter: &Letter,
    output: &mut W,
) -> Result<(), Unwritten>
    ensures { OnOk result (Appends (W.contents output.old) (W.contents output.new) (numbered_letter number letter.now)) }
{
    write_number(number, output)?;
    write_letters(alloc, slice::from_ref(letter), output)
}

fn write_numbered<W: Write>(
    alloc: Global,
    number: EpochNumber,
    letters: &[Letter],
    output: &mut W,
) -> Result<(), Unwritten>
    ensures { OnOk result (Appends (W.contents output.old) (W.contents output.new) (numbered_letters number letters.now)) }
{
    for letter in letters {
        write_letter(alloc, number, letter, output)?;
    }
    Ok(())
}

/// The letters that go out with an answer.
fn write_given<W: Write>(
    alloc: Global,
    number: EpochNumber,
    acted: &Acted,
    output: &mut W,
) -> Result<(), Unwritten>
    ensures { OnOk result (Appends (W.contents output.old) (W.contents output.new) (numbered_letters number (letters_of acted.now))) }
{
    match acted {
        Acted::Sent(letters) => write_numbered(alloc, number, letters, output),
        _ => Ok(()),
    }
}

/// What a node replied that was asked no release, with the number before each line.
fn write_acted<W: Write>(
    alloc: Global,
    number: EpochNumber,
    acted: &Acted,
    output: &mut W,
) -> Result<(), Unwritten>
    ensures { OnOk result (Appends (W.contents output.old) (W.contents output.new) (acted_text_in number acted.now)) }
{
    write_head(alloc, number, acted.told(), output)?;
    write_given(alloc, number, acted, output)
}

fn write_ended<W: Write>(number: EpochNumber, output: &mut W) -> Result<(), Unwritten>
    ensures { OnOk result (Appends (W.contents output.old) (W.contents output.new) (ended_text number)) }
{
    writeln!(output, "{}/{} fault 8 Ended", number.epoch, number.places)?;
    Ok(())
}

fn write_in_epoch<W: Write>(
    alloc: Global,
    number: EpochNumber,
    acted: &HostActed,
    output: &mut W,
) -> Result<(), Unwritten>
    ensures { OnOk result (Appends (W.contents output.old) (W.contents output.new) (in_epoch_text number acted.now)) }
{
    match acted {
        HostActed::Of(acted) => return write_acted(alloc, number, acted, output),
        HostActed::Ended => return write_ended(number, output),
        HostActed::Ahead => writeln!(output, "error 8 Ahead")?,
        HostActed::Gone => writeln!(output, "error 9 Gone")?,
        HostActed::OtherPlaces => writeln!(output, "error 10 OtherPlaces")?,
    }
    Ok(())
}

fn write_next<W: Write>(next: EpochNumber, place: u64, output: &mut W) -> Result<(), Unwritten>
    ensures { OnOk result (Appends (W.contents output.old) (W.contents output.new) (next_text next place)) }
{
    writeln!(output, "next {}/{} {place}", next.epoch, next.places)?;
    Ok(())
}

/// The outputs of a release, and what the host lacks then.
fn write_released<W: Write>(
    alloc: Global,
    told: &Reply,
    next: EpochNumber,
    place: u64,
    output: &mut W,
) -> Result<(), Unwritten>
    ensures { OnOk result (Appends (W.contents output.old) (W.contents output.new) (reply_text told.now ++ next_text next place)) }
{
    told.write_to(alloc, output)?;
    write_next(next, place, output)
}

fn write_there<W: Write>(
    id: NodeId,
    members: Members,
    places: u64,
    output: &mut W,
) -> Result<(), Unwritten>
    ensures { OnOk result (Appends (W.contents output.old) (W.contents output.new) (there_text id members places)) }
{
    let count = members.count();
    writeln!(output, "host {} of {count} places {places}", id.number())?;
    Ok(())
}

fn write_who<W: Write>(
    id: NodeId,
    members: Members,
    places: u64,
    output: &mut W,
) -> Result<(), Unwritten>
    ensures { OnOk result (Appends (W.contents output.old) (W.contents output.new) (who_text id members places)) }
{
    let count = members.count();
    write!(output, "host {} of {count} places {places}", id.number())?;
    Ok(())
}

fn write_restarted<W: Write>(
    alloc: Global,
    epoch: u64,
    digest: &[u8],
    output: &mut W,
) -> Result<(), Unwritten>
    ensures { OnOk result (Appends (W.contents output.old) (W.contents output.new) (restarted_text epoch digest.now)) }
{
    let Ok(digits) = hex::encode(alloc, digest) else {
        return Err(Unwritten::OutOfMemory);
    };
    writeln!(output, " restarted {epoch} {digits}")?;
    Ok(())
}

fn write_beginning<W: Write>(
    alloc: Global,
    begins: &Beginning,
    output: &mut W,
) -> Result<(), Unwritten>
    ensures { OnOk result (Appends (W.contents output.old) (W.contents output.new) (beginning_text begins.now)) }
{
    match begins {
        Beginning::Fresh => writeln!(output, " fresh")?,
        Beginning::Restarted(epoch, digest) => {
            return write_restarted(alloc, *epoch, digest.as_slice(), output);
        }
        Beginning::Waits => writeln!(output, " waits")?,
    }
    Ok(())
}

/// Who a host over files is, and how it begins.
fn write_begins<W: Write>(
    alloc: Global,
    who: (NodeId, Members, u64),
    begins: &Beginning,
    output: &mut W,
) -> Result<(), Unwritten>
    ensures { OnOk result (Appends (W.contents output.old) (W.contents output.new) (begins_text who.0 who.1 who.2 begins.now)) }
{
    let (id, members, places) = who;
    write_who(id, members, places, output)?;
    write_beginning(alloc, begins, output)
}

/// A state's bytes, in digits.
fn write_state<W: Write>(alloc: Global, state: &[u8], output: &mut W) -> Result<(), Unwritten>
    ensures { OnOk result (Appends (W.contents output.old) (W.contents output.new) (state_text state.now)) }
{
    let Ok(digits) = hex::encode(alloc, state) else {
        return Err(Unwritten::OutOfMemory);
    };
    writeln!(output, "state {digits}")?;
    Ok(())
}

fn write_too_long<W: Write>(output: &mut W) -> Result<(), Unwritten>
    ensures { OnOk result (Appends (W.contents output.old) (W.contents output.new) too_long_text) }
{
    writeln!(output, "fault 9 StateTooLong")?;
    Ok(())
}

fn write_no_state<W: Write>(output: &mut W) -> Result<(), Unwritten>
    ensures { OnOk result (Appends (W.contents output.old) (W.contents output.new) no_state_text) }
{
    writeln!(output, "error 11 NoState")?;
    Ok(())
}

fn write_joined<W: Write>(epoch: u64, output: &mut W) -> Result<(), Unwritten>
    ensures { OnOk result (Appends (W.contents output.old) (W.contents output.new) (joined_text epoch)) }
{
    writeln!(output, "joined {epoch}")?;
    Ok(())
}

fn write_output<W: Write>(alloc: Global, one: &Output, output: &mut W) -> Result<(), Unwritten>
    ensures { OnOk result (Appends (W.contents output.old) (W.contents output.new) (output_line one.now)) }
{
    let Ok(text) = output_text(alloc, one) else {
        return Err(Unwritten::OutOfMemory);
    };
    writeln!(output, "{text}")?;
    Ok(())
}

fn write_outputs<W: Write>(
    alloc: Global,
    outputs: &[Output],
    output: &mut W,
) -> Result<(), Unwritten>
    ensures { OnOk result (Appends (W.contents output.old) (W.contents output.new) (output_lines outputs.now)) }
{
    for one in outputs {
        write_output(alloc, one, output)?;
    }
    Ok(())
}

fn write_count<W: Write>(count: usize, output: &mut W) -> Result<(), Unwritten>
    ensures { OnOk result (Appends (W.contents output.old) (W.contents output.new) (again_head count)) }
{
    writeln!(output, "again {count}")?;
    Ok(())
}

/// What modems need that begin anew, an output a line.
fn write_again<W: Write>(alloc: Global, outputs: &[Output], output: &mut W) -> Result<(), Unwritten>
    ensures { OnOk result (Appends (W.contents output.old) (W.contents output.new) (again_text outputs.now)) }
{
    write_count(outputs.len(), output)?;
    write_outputs(alloc, outputs, output)
}

fn write_text<W: Write>(alloc: Global, reply: &HostReply, output: &mut W) -> Result<(), Unwritten>
    ensures { OnOk result (Appends (W.contents output.old) (W.contents output.new) (host_text reply.now)) }
{
    match reply {
        HostReply::There(id, members, places) => write_there(*id, *members, *places, output),
        HostReply::Begins(id, members, places, begins) => {
            write_begins(alloc, (*id, *members, *places), begins, output)
        }
        HostReply::InEpoch(number, acted) => write_in_epoch(alloc, *number, acted, output),
        HostReply::Released(told, next, place) => {
            write_released(alloc, told, *next, *place, output)
        }
        HostReply::State(state) => write_state(alloc, state.as_slice(), output),
        HostReply::StateTooLong => write_too_long(output),
        HostReply::Joined(epoch) => write_joined(*epoch, output),
        HostReply::NoState => write_no_state(output),
        HostReply::Again(outputs) => write_again(alloc, outputs, output),
        HostReply::AsNode(told) => told.write_to(alloc, output),
    }
}

impl Told for HostReply {
    ghost text = { host_text };

    fn write_to<W: Write>(&self, alloc: Global, output: &mut W) -> Result<(), Unwritten> {
        write_text(alloc, self, output)
    }
}
