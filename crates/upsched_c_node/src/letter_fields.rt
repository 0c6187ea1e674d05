//! Letters and the votes that they report, as structs that C shares.

ghost use Rattle.std.specs.Prelude.{◌≡◌, ◌≤◌, ◌↔◌, IfNone, IfSome, IsTrue, length, take, drop, map, Some};
ghost use Rattle.ballots.specs.Limits.{IsValue, longest_value};
ghost use Rattle.letter_bytes.specs.Spelling.{kind_byte, kind_of};
ghost use Rattle.upsched_c_node.specs.Letters.{AreFields, VotesFit, ballot_of, place_of, value_of, vote_of};

use ballots::{Bytes, Cast, LONGEST_VALUE, Letter, Note};
use upsched_c_parts::put_front;

/// A vote with its place.
#[repr(C)]
#[derive(Clone, Copy)]
pub struct VoteFields {
    pub place: u64,
    pub ballot: u64,
    pub value_len: u8,
    pub value: [u8; 64],
}

/// A letter without its votes: the number of its kind, and the fields that it has, of which the others are 0.
#[repr(C)]
#[derive(Clone, Copy)]
pub struct LetterFields {
    pub ballot: u64,
    pub place: u64,
    pub kind: u8,
    pub from: u8,
    pub to: u8,
    pub value_len: u8,
    pub value: [u8; 64],
}

fn padded(value: &[u8]) -> [u8; 64]
    requires { length value.now ≤ longest_value }
    ensures { take (length value.now) result ≡ value.now }
{
    let mut room = [0; 64];
    put_front(value, &mut room);
    room
}

/// A vote of a value that fits, as its fields.
pub fn vote_out(row: &(u64, Cast)) -> VoteFields
    requires { IsValue row.now.1.value }
    ensures { vote_of result ≡ Some row.now }
{
    let bytes = row.1.value.as_slice();
    VoteFields {
        place: row.0,
        ballot: row.1.ballot.number(),
        value_len: bytes.len() as u8,
        value: padded(bytes),
    }
}

/// The value that a note carries, and none where it carries no value.
fn value_in(note: &Note) -> &[u8]
    ensures { result.now ≡ value_of note.now }
{
    match note {
        Note::Accept { value, .. } | Note::Voted { value, .. } | Note::Known { value, .. } => {
            value.as_slice()
        }
        _ => &[],
    }
}

/// A note's kind, its ballot and its place, of which those that it hasn't are 0.
fn numbers_of(note: &Note) -> (u8, u64, u64)
    ensures kind { result.0 ≡ kind_byte (kind_of note.now) }
    ensures ballot { result.1 ≡ ballot_of note.now }
    ensures place { result.2 ≡ place_of note.now }
{
    match note {
        Note::Prepare { ballot, place } => (1, ballot.number(), *place),
        Note::Promise { ballot, place, .. } => (2, ballot.number(), *place),
        Note::Accept { ballot, place, .. } => (3, ballot.number(), *place),
        Note::Voted { ballot, place, .. } => (4, ballot.number(), *place),
        Note::Higher { ballot } => (5, ballot.number(), 0),
        Note::Known { place, .. } => (6, 0, *place),
    }
}

/// The fields of a letter, and none where its value is too long.
pub fn letter_out(letter: &Letter) -> Option<LetterFields>
    ensures some { IfSome result (λ f. AreFields f letter.now) }
    ensures fits { IfSome result (λ _. IsValue (value_of letter.now.note)) }
    ensures none { IfNone result (¬ IsValue (value_of letter.now.note)) }
{
    let value = value_in(&letter.note);
    if value.len() > LONGEST_VALUE {
        return None;
    }
    let (kind, ballot, place) = numbers_of(&letter.note);
    Some(LetterFields {
        ballot,
        place,
        kind,
        from: letter.from.number(),
        to: letter.to.number(),
        value_len: value.len() as u8,
        value: padded(value),
    })
}

/// Whether each vote is for a value that fits.
pub fn votes_fit(rows: &[(u64, Cast)]) -> bool
    ensures { IsTrue result ↔ VotesFit rows.now }
{
    for row in rows {
        if row.1.value.as_slice().len() > LONGEST_VALUE {
            return false;
        }
    }
    true
}

/// Writes votes over the front of the room for them.
pub fn put_votes(rows: &[(u64, Cast)], votes: &mut [VoteFields])
    requires fit { VotesFit rows.now }
    requires room { length rows.now ≤ length votes.old }
    ensures front { map vote_of (take (length rows.now) votes.new) ≡ map Some rows.now }
    ensures behind { drop (length rows.now) votes.new ≡ drop (length rows.now) votes.old }
    ensures length { length votes.new ≡ length votes.old }
{
    for i in 0..rows.len() {
        votes[i] = vote_out(&rows[i]);
    }
}
