//! A letter as text, each value with the command that it spells behind it.

ghost use Rattle.std.specs.Prelude.{◌≡◌, ◌++◌, IfOk, OnOk, [], flat_map, string_bytes};
ghost use Rattle.ballots.specs.declared.letters.Note.TheVariants.{Promise};
ghost use Rattle.printed_answers.specs.Letters.{letter_text, vote_text, value_text as bytes_text};
ghost use Rattle.command_words.specs.Letters.{named_letter_text, named_vote, spelled_behind};

use crate::commands::value_text;
use ballots::{Ballot, Bytes, Cast, Letter, NodeId, Note, Votes};
use printed_answers::letter_text;
use std::alloc::{AllocError, Global};

/// The command that a value spells, behind its bytes.
fn spelled_behind(alloc: Global, value: &Bytes) -> Result<String, AllocError>
    ensures { IfOk result (λ text. string_bytes text ≡ spelled_behind value.now) }
{
    let words = value_text(alloc, value)?;
    format!(in alloc; " ({words})")
}

/// The bytes of a value, or that it has none.
fn bytes_text(alloc: Global, value: &Bytes) -> Result<String, AllocError>
    ensures { IfOk result (λ text. string_bytes text ≡ bytes_text value.now) }
{
    let bytes = value.as_slice();
    if bytes.is_empty() {
        return String::from_str(alloc, "none");
    }
    hex::encode(alloc, bytes)
}

/// A vote that a promise reports, as it is in a letter's text.
fn vote_text(alloc: Global, row: &(u64, Cast)) -> Result<String, AllocError>
    ensures { IfOk result (λ text. string_bytes text ≡ vote_text row.now) }
{
    let place = row.0;
    let ballot = row.1.ballot.number();
    let value = bytes_text(alloc, &row.1.value)?;
    format!(in alloc; " vote ballot {ballot} place {place} value {value}")
}

/// Adds a vote that a promise reports.
fn add_vote(alloc: Global, text: &mut String, row: &(u64, Cast)) -> Result<(), AllocError>
    ensures { OnOk result (string_bytes text.new ≡ string_bytes text.old ++ named_vote row.now) }
{
    let vote = vote_text(alloc, row)?;
    let spelled = spelled_behind(alloc, &row.1.value)?;
    text.push_str(vote.as_str())?;
    text.push_str(spelled.as_str())
}

/// Votes in order.
fn named_votes(alloc: Global, votes: &Votes) -> Result<String, AllocError>
    ensures { IfOk result (λ text. string_bytes text ≡ flat_map named_vote votes.now) }
{
    let mut text = String::new(alloc);
    for row in votes.rows() {
        add_vote(alloc, &mut text, row)?;
    }
    Ok(text)
}

/// A promise that reports no votes, as text.
fn bare_promise(
    alloc: Global,
    ends: (NodeId, NodeId),
    ballot: Ballot,
    place: u64,
) -> Result<String, AllocError>
    ensures { IfOk result (λ text. string_bytes text ≡ letter_text (record { from = ends.0; to = ends.1; note = Promise ballot place [] })) }
{
    let votes = Votes::new(Vec::new(alloc));
    let note = Note::Promise {
        ballot,
        place,
        votes,
    };
    let (from, to) = ends;
    letter_text(alloc, &Letter { from, to, note })
}

/// A promise, with the command of each vote's value.
fn named_promise(
    alloc: Global,
    ends: (NodeId, NodeId),
    ballot: Ballot,
    place: u64,
    votes: &Votes,
) -> Result<String, AllocError>
    ensures { IfOk result (λ text. string_bytes text
        ≡ letter_text (record { from = ends.0; to = ends.1; note = Promise ballot place [] }) ++ flat_map named_vote votes.now) }
{
    let bare = bare_promise(alloc, ends, ballot, place)?;
    let named = named_votes(alloc, votes)?;
    format!(in alloc; "{bare}{named}")
}

/// A letter that says one value, with the command of that.
fn named_value(alloc: Global, letter: &Letter, value: &Bytes) -> Result<String, AllocError>
    ensures { IfOk result (λ text. string_bytes text ≡ letter_text letter.now ++ spelled_behind value.now) }
{
    let text = letter_text(alloc, letter)?;
    let spelled = spelled_behind(alloc, value)?;
    format!(in alloc; "{text}{spelled}")
}

/// A letter: who sends it to whom, its kind and its fields. Behind each value is the command that it spells:
/// `accept ballot 5 place 2 value 040100010014000000000000009a (request 20 sid 1 ch 1)`.
pub fn named_letter_text(alloc: Global, letter: &Letter) -> Result<String, AllocError>
    ensures { IfOk result (λ text. string_bytes text ≡ named_letter_text letter.now) }
{
    match &letter.note {
        Note::Accept { value, .. } => named_value(alloc, letter, value),
        Note::Voted { value, .. } => named_value(alloc, letter, value),
        Note::Known { value, .. } => named_value(alloc, letter, value),
        Note::Promise {
            ballot,
            place,
            votes,
        } => named_promise(alloc, (letter.from, letter.to), *ballot, *place, votes),
        Note::Prepare { .. } => letter_text(alloc, letter),
        Note::Higher { .. } => letter_text(alloc, letter),
    }
}
