//! A letter as an object.

ghost use Rattle.std.specs.Prelude.{◌≡◌, IfOk, OnOk, codes, map, string_bytes};
ghost use Rattle.json_outputs.specs.Fields.{with_text};
ghost use Rattle.serde_json.specs.View.{view, members_view};
ghost use Rattle.json_answers.specs.Letters.{with_ballot, with_value, with_cast, vote_data, with_votes, with_note};
ghost use Rattle.json_answers.specs.Letters.{letter_data, letters_from, with_letters, words_of};

use ballots::{Ballot, Bytes, Cast, Letter, Note, Votes};
use command_words::value_text;
use json_outputs::{put_number, put_text, put_time};
use serde_json::{Map, Value, put};
use std::alloc::{AllocError, Global};
use watched_runs::Letters;

/// Puts a ballot.
fn put_ballot(map: &mut Map<String, Value>, alloc: Global, ballot: Ballot) -> Result<(), AllocError>
    ensures { OnOk result (members_view map.new.entries ≡ with_ballot ballot (members_view map.old.entries)) }
{
    put_time(map, alloc, "ballot", ballot.number())
}

/// The command that a value spells.
#[tactic(auto, unfolding(crate::specs::Letters::words_of))]
fn words_of(alloc: Global, value: &Bytes) -> Result<String, AllocError>
    ensures { IfOk result (λ text. string_bytes text ≡ words_of value.now) }
{
    value_text(alloc, value)
}

/// Puts the command that a value spells.
fn put_words(map: &mut Map<String, Value>, alloc: Global, value: &Bytes) -> Result<(), AllocError>
    ensures { OnOk result (members_view map.new.entries ≡ with_text (codes "command") (words_of value.now) (members_view map.old.entries)) }
{
    let words = words_of(alloc, value)?;
    put_text(map, alloc, "command", words.as_str())
}

/// Puts a value's bytes, and the command that it spells.
fn put_value(map: &mut Map<String, Value>, alloc: Global, value: &Bytes) -> Result<(), AllocError>
    ensures { OnOk result (members_view map.new.entries ≡ with_value value.now (members_view map.old.entries)) }
{
    let hex = hex::encode(alloc, value.as_slice())?;
    put_text(map, alloc, "value", hex.as_str())?;
    put_words(map, alloc, value)
}

/// Puts a ballot, a place and the value that is for it.
fn put_cast(
    map: &mut Map<String, Value>,
    alloc: Global,
    ballot: Ballot,
    place: u64,
    value: &Bytes,
) -> Result<(), AllocError>
    ensures { OnOk result (members_view map.new.entries ≡ with_cast ballot place value.now (members_view map.old.entries)) }
{
    put_ballot(map, alloc, ballot)?;
    put_number(map, alloc, "place", place)?;
    put_value(map, alloc, value)
}

/// A vote that a promise reports.
fn vote_value(alloc: Global, row: &(u64, Cast)) -> Result<Value, AllocError>
    ensures { IfOk result (λ value. view value ≡ vote_data row.now) }
{
    let mut map = Map::new(alloc);
    put_cast(&mut map, alloc, row.1.ballot, row.0, &row.1.value)?;
    Ok(Value::Object(map))
}

/// Votes in order.
fn vote_values(alloc: Global, votes: &Votes) -> Result<Vec<Value>, AllocError>
    ensures { IfOk result (λ values. map view values.items ≡ map vote_data votes.now) }
{
    let mut values = Vec::new(alloc);
    for row in votes.rows() {
        values.push(vote_value(alloc, row)?)?;
    }
    Ok(values)
}

/// Puts the votes of a promise.
fn put_votes(map: &mut Map<String, Value>, alloc: Global, votes: &Votes) -> Result<(), AllocError>
    ensures { OnOk result (members_view map.new.entries ≡ with_votes votes.now (members_view map.old.entries)) }
{
    let values = vote_values(alloc, votes)?;
    put(map, alloc, "votes", Value::Array(values))
}

/// Puts what a letter says: its kind and its fields.
fn put_note(map: &mut Map<String, Value>, alloc: Global, note: &Note) -> Result<(), AllocError>
    ensures { OnOk result (members_view map.new.entries ≡ with_note note.now (members_view map.old.entries)) }
{
    match note {
        Note::Prepare { ballot, place } => {
            put_text(map, alloc, "kind", "prepare")?;
            put_ballot(map, alloc, *ballot)?;
            put_number(map, alloc, "place", *place)
        }
        Note::Promise {
            ballot,
            place,
            votes,
        } => {
            put_text(map, alloc, "kind", "promise")?;
            put_ballot(map, alloc, *ballot)?;
            put_number(map, alloc, "place", *place)?;
            put_votes(map, alloc, votes)
        }
        Note::Accept {
            ballot,
            place,
            value,
        } => {
            put_text(map, alloc, "kind", "accept")?;
            put_cast(map, alloc, *ballot, *place, value)
        }
        Note::Voted {
            ballot,
            place,
            value,
        } => {
            put_text(map, alloc, "kind", "voted")?;
            put_cast(map, alloc, *ballot, *place, value)
        }
        Note::Higher { ballot } => {
            put_text(map, alloc, "kind", "higher")?;
            put_ballot(map, alloc, *ballot)
        }
        Note::Known { place, value } => {
            put_text(map, alloc, "kind", "known")?;
            put_number(map, alloc, "place", *place)?;
            put_value(map, alloc, value)
        }
    }
}

/// The letter of this number: who sends it to whom, its kind and its fields.
fn letter_value(alloc: Global, number: usize, letter: &Letter) -> Result<Value, AllocError>
    ensures { IfOk result (λ value. view value ≡ letter_data number letter.now) }
{
    let mut map = Map::new(alloc);
    put_number(&mut map, alloc, "letter", number as u64)?;
    put_number(&mut map, alloc, "from", u64::from(letter.from.number()))?;
    put_number(&mut map, alloc, "to", u64::from(letter.to.number()))?;
    put_note(&mut map, alloc, &letter.note)?;
    Ok(Value::Object(map))
}

/// Letters in order, each with its number.
fn letter_values(alloc: Global, numbered: &Letters<'_>) -> Result<Vec<Value>, AllocError>
    ensures { IfOk result (λ values. map view values.items ≡ letters_from numbered.now.first numbered.now.letters.now) }
{
    let mut values = Vec::new(alloc);
    for (index, letter) in numbered.letters.iter().enumerate() {
        values.push(letter_value(alloc, numbered.first + index, letter)?)?;
    }
    Ok(values)
}

/// Puts letters in order under a key, each with its number.
pub(crate) fn put_letters(
    map: &mut Map<String, Value>,
    alloc: Global,
    key: &str,
    numbered: &Letters<'_>,
) -> Result<(), AllocError>
    ensures { OnOk result (members_view map.new.entries ≡ with_letters key.now numbered.now.first numbered.now.letters.now (members_view map.old.entries)) }
{
    let values = letter_values(alloc, numbered)?;
    put(map, alloc, key, Value::Array(values))
}
