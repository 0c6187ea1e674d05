//! Letters' bytes, read as structs.

ghost use Rattle.upsched_c_node.specs.Letters.{Decodes, Reads, TellsFields, TellsRead, fields_at};

use crate::letter_fields::{LetterFields, VoteFields, letter_out, put_votes, votes_fit};
use crate::status::Status;
use ballots::Letter;
use letter_bytes::{LetterFault, read_letter, reported_votes};
use std::alloc::Global;

/// The letter that bytes spell, or the status that a call answers.
pub fn letter_in(alloc: Global, bytes: &[u8]) -> Result<Letter, Status>
    ensures { Reads bytes.now result }
{
    match read_letter(alloc, bytes) {
        Ok(letter) => Ok(letter),
        Err(LetterFault::OutOfMemory) => Err(Status::OutOfMemory),
        Err(_) => Err(Status::BadField),
    }
}

/// Tells a letter by its fields and its votes.
fn put_fields(
    letter: &Letter,
    fields: &mut LetterFields,
    votes: &mut [VoteFields],
    count: &mut usize,
) -> Status
    ensures { TellsFields letter.now (fields_at fields.old votes.old count.old) (fields_at fields.new votes.new count.new) result }
{
    let Some(made) = letter_out(letter) else {
        return Status::BadField;
    };
    let reported = reported_votes(letter);
    if !votes_fit(reported) {
        return Status::BadField;
    }
    *count = reported.len();
    if votes.len() < reported.len() {
        return Status::NoRoom;
    }
    *fields = made;
    put_votes(reported, votes);
    Status::Done
}

fn put_read(
    letter: Result<Letter, Status>,
    fields: &mut LetterFields,
    votes: &mut [VoteFields],
    count: &mut usize,
) -> Status
    ensures { TellsRead letter (fields_at fields.old votes.old count.old) (fields_at fields.new votes.new count.new) result }
{
    match letter {
        Ok(letter) => put_fields(&letter, fields, votes, count),
        Err(status) => status,
    }
}

/// Reads a letter's bytes as its fields and its votes.
pub fn read_fields(
    alloc: Global,
    bytes: &[u8],
    fields: &mut LetterFields,
    votes: &mut [VoteFields],
    count: &mut usize,
) -> Status
    ensures { Decodes bytes.now (fields_at fields.old votes.old count.old) (fields_at fields.new votes.new count.new) result }
{
    put_read(letter_in(alloc, bytes), fields, votes, count)
}
