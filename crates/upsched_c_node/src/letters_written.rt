//! Structs, written as letters' bytes.

ghost use Rattle.std.specs.Prelude.{◌≡◌, ◌≤◌, ◌↔◌, All, IfOk, IsSome, IsTrue, length, map, take, Some};
ghost use Rattle.ballots.specs.Ballots.{IsBallot};
ghost use Rattle.ballots.specs.Limits.{longest_value};
ghost use Rattle.letter_bytes.specs.Spelling.{spelling, votes_reported};
ghost use Rattle.upsched_c_node.specs.Letters.{AreOf, Encodes, Fits, FitsKind, IsNote, TellsBytes, vote_of};
ghost use Rattle.upsched_c_node.specs.Rooms.{told};

use crate::encoded_length::encoded_length;
use crate::letter_fields::{LetterFields, VoteFields};
use crate::letter_length::letter_length;
use crate::status::Status;
use ballots::{Ballot, Bytes, Cast, LONGEST_VALUE, Letter, NodeId, Note, Votes};
use letter_bytes::write_letter;
use std::alloc::{AllocError, Global};
use upsched_c_parts::put_front;

fn is_ballot(number: u64) -> bool
    ensures { IsTrue result ↔ IsBallot number }
{
    Ballot::new(number).is_some()
}

fn is_vote(vote: &VoteFields) -> bool
    ensures { IsTrue result ↔ IsSome (vote_of vote.now) }
{
    usize::from(vote.value_len) <= LONGEST_VALUE && is_ballot(vote.ballot)
}

fn are_votes(votes: &[VoteFields]) -> bool
    ensures { IsTrue result ↔ All (λ v. IsSome (vote_of v)) votes.now }
{
    for vote in votes {
        if !is_vote(vote) {
            return false;
        }
    }
    true
}

/// Whether the fields are those of their kind, with so many votes.
fn is_of_kind(fields: &LetterFields, votes: usize) -> bool
    ensures { IsTrue result ↔ FitsKind fields.now votes }
{
    let has_ballot = is_ballot(fields.ballot);
    let no_value = fields.value_len == 0;
    match fields.kind {
        1 => has_ballot && no_value && votes == 0,
        2 => has_ballot && no_value,
        3 | 4 => has_ballot && votes == 0,
        5 => has_ballot && fields.place == 0 && no_value && votes == 0,
        6 => fields.ballot == 0 && votes == 0,
        _ => false,
    }
}

fn fit(fields: &LetterFields, votes: &[VoteFields]) -> bool
    ensures { IsTrue result ↔ Fits fields.now votes.now }
{
    fields.from < 5
        && fields.to < 5
        && usize::from(fields.value_len) <= LONGEST_VALUE
        && is_of_kind(fields, votes.len())
        && are_votes(votes)
}

fn vote_in(alloc: Global, vote: &VoteFields) -> Result<(u64, Cast), AllocError>
    requires { IsSome (vote_of vote.now) }
    ensures { IfOk result (λ row. vote_of vote.now ≡ Some row) }
{
    let value = Vec::from_slice(alloc, &vote.value[..usize::from(vote.value_len)])?;
    let cast = Cast {
        ballot: Ballot::new(vote.ballot).unwrap(),
        value: Bytes::new(value),
    };
    Ok((vote.place, cast))
}

fn votes_in(alloc: Global, votes: &[VoteFields]) -> Result<Votes, AllocError>
    requires { All (λ v. IsSome (vote_of v)) votes.now }
    ensures { IfOk result (λ rows. map vote_of votes.now ≡ map Some rows) }
{
    let mut rows = Vec::with_capacity(alloc, votes.len())?;
    for vote in votes {
        rows.push(vote_in(alloc, vote)?)?;
    }
    Ok(Votes::new(rows))
}

/// The note of these fields, with this value and these votes.
fn note_in(fields: &LetterFields, value: Bytes, votes: Votes) -> Note
    requires kind { FitsKind fields.now (length votes) }
    requires fits { fields.now.value_len ≤ longest_value }
    requires len { length value ≡ fields.now.value_len }
    requires value { value ≡ take fields.now.value_len fields.now.value }
    ensures note { IsNote fields.now result }
    ensures votes { votes ≡ votes_reported result }
{
    match fields.kind {
        1 => Note::Prepare {
            ballot: Ballot::new(fields.ballot).unwrap(),
            place: fields.place,
        },
        2 => Note::Promise {
            ballot: Ballot::new(fields.ballot).unwrap(),
            place: fields.place,
            votes,
        },
        3 => Note::Accept {
            ballot: Ballot::new(fields.ballot).unwrap(),
            place: fields.place,
            value,
        },
        4 => Note::Voted {
            ballot: Ballot::new(fields.ballot).unwrap(),
            place: fields.place,
            value,
        },
        5 => Note::Higher {
            ballot: Ballot::new(fields.ballot).unwrap(),
        },
        _ => Note::Known {
            place: fields.place,
            value,
        },
    }
}

fn letter_of(
    alloc: Global,
    fields: &LetterFields,
    votes: &[VoteFields],
) -> Result<Letter, AllocError>
    requires { Fits fields.now votes.now }
    ensures { IfOk result (AreOf fields.now votes.now) }
{
    let value = Vec::from_slice(alloc, &fields.value[..usize::from(fields.value_len)])?;
    let rows = votes_in(alloc, votes)?;
    Ok(Letter {
        from: NodeId::new(fields.from).unwrap(),
        to: NodeId::new(fields.to).unwrap(),
        note: note_in(fields, Bytes::new(value), rows),
    })
}

/// Writes a letter over the front of a room that is enough for it.
fn put_letter(alloc: Global, letter: &Letter, room: &mut [u8], count: &mut usize) -> Status
    requires { length (spelling letter.now) ≤ length room.old }
    ensures { TellsBytes letter.now (told room.old count.old) (told room.new count.new) result }
{
    let mut bytes = Vec::new(alloc);
    if write_letter(letter, &mut bytes).is_err() {
        return Status::OutOfMemory;
    }
    *count = bytes.len();
    put_front(&bytes, room);
    Status::Done
}

/// Writes a letter over the front of the room for it. It takes no memory where the room is too small.
pub fn write_out(alloc: Global, letter: &Letter, room: &mut [u8], count: &mut usize) -> Status
    ensures { TellsBytes letter.now (told room.old count.old) (told room.new count.new) result }
{
    let Some(length) = letter_length(letter) else {
        return Status::OutOfMemory;
    };
    if room.len() < length {
        *count = length;
        return Status::NoRoom;
    }
    put_letter(alloc, letter, room, count)
}

/// Writes the letter of these fields and votes. It takes no memory where the room is too small.
pub fn write_fields(
    alloc: Global,
    fields: &LetterFields,
    votes: &[VoteFields],
    room: &mut [u8],
    count: &mut usize,
) -> Status
    ensures { Encodes fields.now votes.now (told room.old count.old) (told room.new count.new) result }
{
    if !fit(fields, votes) {
        return Status::BadField;
    }
    let wanted = encoded_length(fields, votes);
    if room.len() < wanted {
        *count = wanted;
        return Status::NoRoom;
    }
    match letter_of(alloc, fields, votes) {
        Ok(letter) => put_letter(alloc, &letter, room, count),
        Err(_) => Status::OutOfMemory,
    }
}
