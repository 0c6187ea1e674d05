//! A letter as text.

ghost use Rattle.std.specs.Prelude.{◌≡◌, IfOk, string_bytes};
ghost use Rattle.printed_answers.specs.Letters.{value_text, vote_text, votes_text, note_text, letter_text};

use ballots::{Bytes, Cast, Letter, Note, Votes};
use std::alloc::{AllocError, Global};

fn value_text(alloc: Global, value: &Bytes) -> Result<String, AllocError>
    ensures { IfOk result (λ text. string_bytes text ≡ value_text value.now) }
{
    let bytes = value.as_slice();
    if bytes.is_empty() {
        return String::from_str(alloc, "none");
    }
    hex::encode(alloc, bytes)
}

fn vote_text(alloc: Global, row: &(u64, Cast)) -> Result<String, AllocError>
    ensures { IfOk result (λ text. string_bytes text ≡ vote_text row.now) }
{
    let place = row.0;
    let ballot = row.1.ballot.number();
    let value = value_text(alloc, &row.1.value)?;
    format!(in alloc; " vote ballot {ballot} place {place} value {value}")
}

fn votes_text(alloc: Global, votes: &Votes) -> Result<String, AllocError>
    ensures { IfOk result (λ text. string_bytes text ≡ votes_text votes.now) }
{
    let mut text = String::new(alloc);
    for row in votes.rows() {
        let vote = vote_text(alloc, row)?;
        text.push_str(vote.as_str())?;
    }
    Ok(text)
}

fn note_text(alloc: Global, note: &Note) -> Result<String, AllocError>
    ensures { IfOk result (λ text. string_bytes text ≡ note_text note.now) }
{
    match note {
        Note::Prepare { ballot, place } => {
            format!(in alloc; "prepare ballot {} place {place}", ballot.number())
        }
        Note::Promise {
            ballot,
            place,
            votes,
        } => {
            let votes = votes_text(alloc, votes)?;
            format!(in alloc; "promise ballot {} place {place}{votes}", ballot.number())
        }
        Note::Accept {
            ballot,
            place,
            value,
        } => {
            let value = value_text(alloc, value)?;
            format!(in alloc;
                "accept ballot {} place {place} value {value}",
                ballot.number()
            )
        }
        Note::Voted {
            ballot,
            place,
            value,
        } => {
            let value = value_text(alloc, value)?;
            format!(in alloc;
                "voted ballot {} place {place} value {value}",
                ballot.number()
            )
        }
        Note::Higher { ballot } => format!(in alloc; "higher ballot {}", ballot.number()),
        Note::Known { place, value } => {
            let value = value_text(alloc, value)?;
            format!(in alloc; "known place {place} value {value}")
        }
    }
}

/// A letter: who sends it to whom, its kind and its fields. It has neither its number in front nor a line's end.
pub fn letter_text(alloc: Global, letter: &Letter) -> Result<String, AllocError>
    ensures { IfOk result (λ text. string_bytes text ≡ letter_text letter.now) }
{
    let from = letter.from.number();
    let to = letter.to.number();
    let note = note_text(alloc, &letter.note)?;
    format!(in alloc; "from {from} to {to} {note}")
}
