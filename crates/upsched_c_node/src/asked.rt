//! What a node that a handle holds is asked, and what its last call left to be read.

ghost use Rattle.std.specs.Prelude.{◌≡◌, IsTrue, ◌↔◌, length};
ghost use Rattle.upsched_c_node.specs.declared.status.Status.TheVariants.{Done};
ghost use Rattle.node.specs.Calls.Cause.{Receive, Lead, Offer, Tell};
ghost use Rattle.upsched_c_node.specs.Calls.{Receives, Releases, Sends, Tells, TellsLetter, TellsOutput, TellsValue};
ghost use Rattle.upsched_c_node.specs.Calls.{sent, status_of, written};
ghost use Rattle.upsched_c_node.specs.Rooms.{told};
ghost use Rattle.upsched_c_parts.specs.Outputs.{FitsRoom};

use crate::handle::Held;
use crate::letters_written::write_out;
use crate::status::Status;
use ballots::{Letter, NodeId};
use grant_machine::Output;
use node::NodeFault;
use node_writes::{WriteBytes, no_write};
use std::alloc::Global;
use told_writes::{place_open, write_after, write_told};
use upsched_c_parts::{OutputFields, output_fields, put_body, put_front};

/// The status of a call that the node didn't do.
fn of_fault(fault: NodeFault) -> Status
    ensures { result ≡ status_of fault }
{
    match fault {
        NodeFault::OutOfMemory => Status::OutOfMemory,
        other => Status::Node(other),
    }
}

/// Keeps the letters of a call, and tells its write and how many there are.
fn keep(
    held: &mut Held,
    letters: Vec<Letter>,
    made: WriteBytes,
    write: &mut WriteBytes,
    count: &mut usize,
) -> Status
    ensures status { result ≡ Done }
    ensures write { write.new ≡ made }
    ensures count { count.new ≡ length letters.items }
    ensures held { held.new ≡ record held.old { letters = letters } }
{
    *write = made;
    *count = letters.len();
    held.letters = letters;
    Status::Done
}

pub(crate) fn lead(held: &mut Held, write: &mut WriteBytes, count: &mut usize) -> Status
    ensures { Sends Lead held.old (sent write.old count.old) held.new (sent write.new count.new) result }
{
    match held.node.lead() {
        Ok(letters) => {
            let made = write_told(held.node.id(), &letters);
            keep(held, letters, made, write, count)
        }
        Err(fault) => of_fault(fault),
    }
}

pub(crate) fn offer(
    held: &mut Held,
    value: &[u8],
    write: &mut WriteBytes,
    count: &mut usize,
) -> Status
    ensures { Sends (Offer value.now) held.old (sent write.old count.old) held.new (sent write.new count.new) result }
{
    match held.node.offer(value) {
        Ok(letters) => {
            let made = no_write(held.node.id());
            keep(held, letters, made, write, count)
        }
        Err(fault) => of_fault(fault),
    }
}

fn tell_node(
    held: &mut Held,
    to: NodeId,
    place: u64,
    write: &mut WriteBytes,
    count: &mut usize,
) -> Status
    ensures { Sends (Tell to place) held.old (sent write.old count.old) held.new (sent write.new count.new) result }
{
    match held.node.tell(to, place) {
        Ok(letters) => {
            let made = no_write(held.node.id());
            keep(held, letters, made, write, count)
        }
        Err(fault) => of_fault(fault),
    }
}

pub(crate) fn tell(
    held: &mut Held,
    to: Option<NodeId>,
    place: u64,
    write: &mut WriteBytes,
    count: &mut usize,
) -> Status
    ensures { Tells to place held.old (sent write.old count.old) held.new (sent write.new count.new) result }
{
    match to {
        Some(to) => tell_node(held, to, place, write, count),
        None => Status::BadField,
    }
}

fn take(held: &mut Held, letter: &Letter, write: &mut WriteBytes, count: &mut usize) -> Status
    ensures { Sends (Receive letter.now) held.old (sent write.old count.old) held.new (sent write.new count.new) result }
{
    let place = place_open(held.node.node(), &letter.note);
    match held.node.receive(letter) {
        Ok(letters) => {
            let made = write_after(held.node.node(), place, &letters);
            keep(held, letters, made, write, count)
        }
        Err(fault) => of_fault(fault),
    }
}

pub(crate) fn receive(
    held: &mut Held,
    letter: Result<Letter, Status>,
    write: &mut WriteBytes,
    count: &mut usize,
) -> Status
    ensures { Receives letter held.old (sent write.old count.old) held.new (sent write.new count.new) result }
{
    match letter {
        Ok(letter) => take(held, &letter, write, count),
        Err(status) => status,
    }
}

pub(crate) fn put_letter(
    alloc: Global,
    held: &Held,
    i: usize,
    room: &mut [u8],
    count: &mut usize,
) -> Status
    ensures { TellsLetter i held.now (told room.old count.old) held.now (told room.new count.new) result }
{
    let Some(letter) = held.letters.get(i) else {
        return Status::Absent;
    };
    write_out(alloc, letter, room, count)
}

pub(crate) fn put_value(held: &Held, place: u64, room: &mut [u8], count: &mut usize) -> Status
    ensures { TellsValue place held.now (told room.old count.old) held.now (told room.new count.new) result }
{
    let Some(value) = held.node.learned(place) else {
        return Status::Absent;
    };
    let bytes = value.as_slice();
    *count = bytes.len();
    if room.len() < bytes.len() {
        return Status::NoRoom;
    }
    put_front(bytes, room);
    Status::Done
}

pub(crate) fn release(alloc: Global, held: &mut Held, now: u64, count: &mut usize) -> Status
    ensures { Releases now held.old count.old held.new count.new result }
{
    let Ok(outputs) = held.node.release(alloc, now) else {
        return Status::OutOfMemory;
    };
    *count = outputs.len();
    held.outputs = outputs;
    Status::Done
}

fn fits_room(output: &Output) -> bool
    ensures { IsTrue result ↔ FitsRoom output.now }
{
    match output {
        Output::Map { bytes, .. } => bytes.as_slice().len() <= 1036,
        _ => true,
    }
}

pub(crate) fn put_output(
    held: &Held,
    i: usize,
    place: &mut u64,
    output: &mut OutputFields,
    body: &mut [u8; 1036],
) -> Status
    ensures { TellsOutput i held.now (written place.old output.old body.old) held.now (written place.new output.new body.new) result }
{
    let Some(numbered) = held.outputs.get(i) else {
        return Status::Absent;
    };
    if !fits_room(&numbered.output) {
        return Status::NoRoom;
    }
    *place = numbered.place;
    *output = output_fields(&numbered.output);
    put_body(&numbered.output, body);
    Status::Done
}
