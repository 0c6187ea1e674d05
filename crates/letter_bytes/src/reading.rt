//! Reading a letter from left to right. Each function takes a field off the front of the bytes.

ghost use Rattle.std.specs.Prelude.{IfOk, IsOk, Ok};
ghost use Rattle.ballots.specs.declared.letters.Letter.{Letter as LetterView};
ghost use Rattle.letter_bytes.specs.Spelling.{Spells};
ghost use Rattle.letter_bytes.specs.Reading.{Gives, HasValue, HasVote, Takes, TakesMemory};
ghost use Rattle.letter_bytes.specs.Reading.{ballot_at, byte_at, kind_at, letter_of, node_at, note_at, number_at};
ghost use Rattle.letter_bytes.specs.Reading.{promised_at, value_at, vote_at, votes_in};

use crate::fault::LetterFault;
use crate::kind::Kind;
use ballots::{Ballot, Bytes, Cast, Letter, NodeId, Note, Votes};
use byteorder::{BigEndian, ByteOrder};
use std::alloc::Global;

fn take_byte(rest: &mut &[u8]) -> Result<u8, LetterFault>
    ensures { Takes ⊥ result rest.new.now (byte_at rest.old.now) }
{
    let [first, behind @ ..] = *rest else {
        return Err(LetterFault::Short);
    };
    *rest = behind;
    Ok(*first)
}

fn take_number(rest: &mut &[u8]) -> Result<u64, LetterFault>
    ensures { Takes ⊥ result rest.new.now (number_at rest.old.now) }
{
    if rest.len() < 8 {
        return Err(LetterFault::Short);
    }
    let (number, behind) = rest.split_at(8);
    *rest = behind;
    Ok(BigEndian::read_u64(number))
}

fn take_kind(rest: &mut &[u8]) -> Result<Kind, LetterFault>
    ensures { Takes ⊥ result rest.new.now (kind_at rest.old.now) }
{
    match take_byte(rest)? {
        1 => Ok(Kind::Prepare),
        2 => Ok(Kind::Promise),
        3 => Ok(Kind::Accept),
        4 => Ok(Kind::Voted),
        5 => Ok(Kind::Higher),
        6 => Ok(Kind::Known),
        _ => Err(LetterFault::NoNote),
    }
}

fn take_node(rest: &mut &[u8]) -> Result<NodeId, LetterFault>
    ensures { Takes ⊥ result rest.new.now (node_at rest.old.now) }
{
    NodeId::new(take_byte(rest)?).ok_or(LetterFault::NoNode)
}

fn take_ballot(rest: &mut &[u8]) -> Result<Ballot, LetterFault>
    ensures { Takes ⊥ result rest.new.now (ballot_at rest.old.now) }
{
    Ballot::new(take_number(rest)?).ok_or(LetterFault::NoBallot)
}

#[tactic(auto, unfolding(crate::specs::Reading::value_at))]
fn take_value(alloc: Global, rest: &mut &[u8]) -> Result<Bytes, LetterFault>
    ensures { Takes (IsOk (value_at rest.old.now)) result rest.new.now (value_at rest.old.now) }
{
    let len = take_number(rest)? as usize;
    if rest.len() < len {
        return Err(LetterFault::Short);
    }
    let (value, behind) = rest.split_at(len);
    *rest = behind;
    Ok(Bytes::new(Vec::from_slice(alloc, value)?))
}

#[tactic(auto, unfolding(crate::specs::Reading::vote_at))]
fn take_vote(alloc: Global, rest: &mut &[u8]) -> Result<(u64, Cast), LetterFault>
    ensures { Takes (IsOk (vote_at rest.old.now)) result rest.new.now (vote_at rest.old.now) }
{
    let place = take_number(rest)?;
    let ballot = take_ballot(rest)?;
    let value = take_value(alloc, rest)?;
    Ok((place, Cast { ballot, value }))
}

/// So many votes.
fn take_votes(alloc: Global, count: u64, rest: &mut &[u8]) -> Result<Votes, LetterFault>
    ensures { Takes (HasVote count rest.old.now) result rest.new.now (votes_in count rest.old.now) }
{
    let mut votes = Vec::new(alloc);
    for _ in 0..count {
        votes.push(take_vote(alloc, rest)?)?;
    }
    Ok(Votes::new(votes))
}

/// The ballot and the place of a promise, and how many votes it reports.
#[tactic(auto, unfolding(crate::specs::Reading::promised_at))]
fn take_promised(rest: &mut &[u8]) -> Result<(Ballot, u64, u64), LetterFault>
    ensures { Takes ⊥ result rest.new.now (promised_at rest.old.now) }
{
    let ballot = take_ballot(rest)?;
    let place = take_number(rest)?;
    let count = take_number(rest)?;
    Ok((ballot, place, count))
}

/// The fields of a note of this kind.
fn take_note(alloc: Global, kind: Kind, rest: &mut &[u8]) -> Result<Note, LetterFault>
    ensures { Takes (HasValue kind rest.old.now) result rest.new.now (note_at kind rest.old.now) }
{
    Ok(match kind {
        Kind::Prepare => Note::Prepare {
            ballot: take_ballot(rest)?,
            place: take_number(rest)?,
        },
        Kind::Promise => {
            let (ballot, place, count) = take_promised(rest)?;
            let votes = take_votes(alloc, count, rest)?;
            Note::Promise {
                ballot,
                place,
                votes,
            }
        }
        Kind::Accept => Note::Accept {
            ballot: take_ballot(rest)?,
            place: take_number(rest)?,
            value: take_value(alloc, rest)?,
        },
        Kind::Voted => Note::Voted {
            ballot: take_ballot(rest)?,
            place: take_number(rest)?,
            value: take_value(alloc, rest)?,
        },
        Kind::Higher => Note::Higher {
            ballot: take_ballot(rest)?,
        },
        Kind::Known => Note::Known {
            place: take_number(rest)?,
            value: take_value(alloc, rest)?,
        },
    })
}

#[tactic(auto, unfolding(crate::specs::Reading::letter_of))]
fn take_letter(alloc: Global, bytes: &[u8]) -> Result<Letter, LetterFault>
    ensures { Gives (TakesMemory bytes.now) result (letter_of bytes.now) }
{
    let mut rest = bytes;
    let kind = take_kind(&mut rest)?;
    let from = take_node(&mut rest)?;
    let to = take_node(&mut rest)?;
    let note = take_note(alloc, kind, &mut rest)?;
    if !rest.is_empty() {
        return Err(LetterFault::Trailing);
    }
    Ok(Letter { from, to, note })
}

/// The letter that bytes spell, all of them. A fault is the first from left to right. Want of memory comes only where
/// the letter has a value, and up to its end no fault. Votes are read one at a time, into memory for no more than are
/// there.
pub fn read_letter(alloc: Global, bytes: &[u8]) -> Result<Letter, LetterFault>
    ensures read { IfOk result (Spells bytes.now) }
    ensures spelled { (l : LetterView) → Spells bytes.now l → Gives (TakesMemory bytes.now) result (Ok l) }
    ensures fault { Gives (TakesMemory bytes.now) result (letter_of bytes.now) }
{
    take_letter(alloc, bytes)
}
