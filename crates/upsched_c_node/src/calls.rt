//! The calls on a node behind a handle.

ghost use Rattle.std.specs.Prelude.{◌≡◌};
ghost use Rattle.node.specs.Calls.Cause.{Lead, Offer};
ghost use Rattle.upsched_c_node.specs.Calls.{Receives, ReceivesBytes, Releases, Sends, Tells, TellsLetter, TellsOutput};
ghost use Rattle.upsched_c_node.specs.Calls.{TellsValue, node_of, sent, written};
ghost use Rattle.upsched_c_node.specs.Letters.{Decodes, Encodes, fields_at};
ghost use Rattle.upsched_c_node.specs.Rooms.{told};
ghost use Rattle.upsched_c_node.specs.Handles.{Asks};
ghost use Rattle.upsched_c_node.specs.Statuses.{Answers};

use crate::asked::{lead, offer, put_letter, put_output, put_value, receive, release, tell};
use crate::handle::Handle;
use crate::letter_fields::{LetterFields, VoteFields};
use crate::letters_read::{letter_in, read_fields};
use crate::letters_written::write_fields;
use crate::status::Status;
use ballots::{Letter, NodeId};
use node_writes::WriteBytes;
use std::alloc::Global;
use upsched_c_parts::OutputFields;

fn lead_by(alloc: Global, handle: &mut Handle, write: &mut WriteBytes, count: &mut usize) -> Status
    ensures { Asks (Sends Lead) handle.old (sent write.old count.old) handle.new (sent write.new count.new) result }
{
    let Some(mut held) = handle.take(alloc) else {
        return handle.without_node();
    };
    let status = lead(&mut held, write, count);
    handle.put(held);
    status
}

/// The node is asked to lead. Its write is told, and how many letters it sends.
#[unsafe(no_mangle)]
pub extern "C" fn upsched_c_node_lead(
    alloc: Global,
    handle: &mut Handle,
    write: &mut WriteBytes,
    count: &mut usize,
) -> i32
    ensures { Answers result (Asks (Sends Lead) handle.old (sent write.old count.old) handle.new (sent write.new count.new)) }
{
    lead_by(alloc, handle, write, count).number()
}

fn offer_by(
    alloc: Global,
    handle: &mut Handle,
    value: &[u8],
    write: &mut WriteBytes,
    count: &mut usize,
) -> Status
    ensures { Asks (Sends (Offer value.now)) handle.old (sent write.old count.old) handle.new (sent write.new count.new) result }
{
    let Some(mut held) = handle.take(alloc) else {
        return handle.without_node();
    };
    let status = offer(&mut held, value, write, count);
    handle.put(held);
    status
}

/// A value, a command's bytes, is offered.
#[unsafe(no_mangle)]
pub extern "C" fn upsched_c_node_offer(
    alloc: Global,
    handle: &mut Handle,
    value: &[u8],
    write: &mut WriteBytes,
    count: &mut usize,
) -> i32
    ensures { Answers result (Asks (Sends (Offer value.now)) handle.old (sent write.old count.old) handle.new (sent write.new count.new)) }
{
    offer_by(alloc, handle, value, write, count).number()
}

fn receive_by(
    alloc: Global,
    handle: &mut Handle,
    letter: Result<Letter, Status>,
    write: &mut WriteBytes,
    count: &mut usize,
) -> Status
    ensures { Asks (Receives letter) handle.old (sent write.old count.old) handle.new (sent write.new count.new) result }
{
    let Some(mut held) = handle.take(alloc) else {
        return handle.without_node();
    };
    let status = receive(&mut held, letter, write, count);
    handle.put(held);
    status
}

/// The letter that the bytes spell comes.
#[unsafe(no_mangle)]
pub extern "C" fn upsched_c_node_receive(
    alloc: Global,
    handle: &mut Handle,
    letter: &[u8],
    write: &mut WriteBytes,
    count: &mut usize,
) -> i32
    ensures { Answers result (ReceivesBytes letter.now handle.old (sent write.old count.old) handle.new (sent write.new count.new)) }
{
    receive_by(alloc, handle, letter_in(alloc, letter), write, count).number()
}

fn node_in(number: u8) -> Option<NodeId>
    ensures { result ≡ node_of number }
{
    NodeId::new(number)
}

fn tell_by(
    alloc: Global,
    handle: &mut Handle,
    to: Option<NodeId>,
    place: u64,
    write: &mut WriteBytes,
    count: &mut usize,
) -> Status
    ensures { Asks (Tells to place) handle.old (sent write.old count.old) handle.new (sent write.new count.new) result }
{
    let Some(mut held) = handle.take(alloc) else {
        return handle.without_node();
    };
    let status = tell(&mut held, to, place, write, count);
    handle.put(held);
    status
}

/// The node tells another what it has learned, of the first 64 learned places from one on.
#[unsafe(no_mangle)]
pub extern "C" fn upsched_c_node_tell(
    alloc: Global,
    handle: &mut Handle,
    to: u8,
    place: u64,
    write: &mut WriteBytes,
    count: &mut usize,
) -> i32
    ensures { Answers result (Asks (Tells (node_of to) place) handle.old (sent write.old count.old) handle.new (sent write.new count.new)) }
{
    tell_by(alloc, handle, node_in(to), place, write, count).number()
}

fn value_by(
    alloc: Global,
    handle: &mut Handle,
    place: u64,
    room: &mut [u8],
    count: &mut usize,
) -> Status
    ensures { Asks (TellsValue place) handle.old (told room.old count.old) handle.new (told room.new count.new) result }
{
    let Some(held) = handle.take(alloc) else {
        return handle.without_node();
    };
    let status = put_value(&held, place, room, count);
    handle.put(held);
    status
}

/// The value that the node has learned at a place.
#[unsafe(no_mangle)]
pub extern "C" fn upsched_c_node_learned(
    alloc: Global,
    handle: &mut Handle,
    place: u64,
    room: &mut [u8],
    count: &mut usize,
) -> i32
    ensures { Answers result (Asks (TellsValue place) handle.old (told room.old count.old) handle.new (told room.new count.new)) }
{
    value_by(alloc, handle, place, room, count).number()
}

fn letter_by(
    alloc: Global,
    handle: &mut Handle,
    i: usize,
    room: &mut [u8],
    count: &mut usize,
) -> Status
    ensures { Asks (TellsLetter i) handle.old (told room.old count.old) handle.new (told room.new count.new) result }
{
    let Some(held) = handle.take(alloc) else {
        return handle.without_node();
    };
    let status = put_letter(alloc, &held, i, room, count);
    handle.put(held);
    status
}

/// The bytes of a letter of the node's last call, counted from 0.
#[unsafe(no_mangle)]
pub extern "C" fn upsched_c_node_letter(
    alloc: Global,
    handle: &mut Handle,
    i: usize,
    room: &mut [u8],
    count: &mut usize,
) -> i32
    ensures { Answers result (Asks (TellsLetter i) handle.old (told room.old count.old) handle.new (told room.new count.new)) }
{
    letter_by(alloc, handle, i, room, count).number()
}

fn release_by(alloc: Global, handle: &mut Handle, now: u64, count: &mut usize) -> Status
    ensures { Asks (Releases now) handle.old count.old handle.new count.new result }
{
    let Some(mut held) = handle.take(alloc) else {
        return handle.without_node();
    };
    let status = release(alloc, &mut held, now, count);
    handle.put(held);
    status
}

/// The node releases its outputs, but for MAPs that end at a minislot or before, and how many they are is told. Where all
/// that was learned without a gap is released, it is done without memory.
#[unsafe(no_mangle)]
pub extern "C" fn upsched_c_node_release(
    alloc: Global,
    handle: &mut Handle,
    now: u64,
    count: &mut usize,
) -> i32
    ensures { Answers result (Asks (Releases now) handle.old count.old handle.new count.new) }
{
    release_by(alloc, handle, now, count).number()
}

fn output_by(
    alloc: Global,
    handle: &mut Handle,
    i: usize,
    place: &mut u64,
    output: &mut OutputFields,
    body: &mut [u8; 1036],
) -> Status
    ensures { Asks (TellsOutput i) handle.old (written place.old output.old body.old) handle.new (written place.new output.new body.new) result }
{
    let Some(held) = handle.take(alloc) else {
        return handle.without_node();
    };
    let status = put_output(&held, i, place, output, body);
    handle.put(held);
    status
}

/// An output of the node's last release, counted from 0, with its place in the log.
#[unsafe(no_mangle)]
pub extern "C" fn upsched_c_node_output(
    alloc: Global,
    handle: &mut Handle,
    i: usize,
    place: &mut u64,
    output: &mut OutputFields,
    body: &mut [u8; 1036],
) -> i32
    ensures { Answers result (Asks (TellsOutput i) handle.old (written place.old output.old body.old) handle.new (written place.new output.new body.new)) }
{
    output_by(alloc, handle, i, place, output, body).number()
}

/// Reads a letter's bytes as its fields and the votes that it reports.
#[unsafe(no_mangle)]
pub extern "C" fn upsched_c_letter_decode(
    alloc: Global,
    bytes: &[u8],
    fields: &mut LetterFields,
    votes: &mut [VoteFields],
    count: &mut usize,
) -> i32
    ensures { Answers result (Decodes bytes.now (fields_at fields.old votes.old count.old) (fields_at fields.new votes.new count.new)) }
{
    read_fields(alloc, bytes, fields, votes, count).number()
}

/// Writes the letter of fields and votes as its bytes.
#[unsafe(no_mangle)]
pub extern "C" fn upsched_c_letter_encode(
    alloc: Global,
    fields: &LetterFields,
    votes: &[VoteFields],
    room: &mut [u8],
    count: &mut usize,
) -> i32
    ensures { Answers result (Encodes fields.now votes.now (told room.old count.old) (told room.new count.new)) }
{
    write_fields(alloc, fields, votes, room, count).number()
}
