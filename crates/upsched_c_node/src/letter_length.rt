//! How many bytes a letter has, without memory for them.

ghost use Rattle.std.specs.Prelude.{◌≡◌, ◌+◌, ◌<◌, ◌≤◌, ◌^◌, All, IfSome, MatchOption, length};
ghost use Rattle.std.specs.List.{flat_map};
ghost use Rattle.letter_bytes.specs.Spelling.{FitsFields, FitsFront, FitsLetter, FitsVote};
ghost use Rattle.letter_bytes.specs.Spelling.{fields_spelling, front_spelling, spelling, vote_spelling};

use ballots::{Cast, Letter, Note};
use letter_bytes::reported_votes;

/// Those of a note's fields, but for the votes that it reports.
fn fields_length(note: &Note) -> usize
    ensures length { result ≡ length (fields_spelling note.now) }
    ensures fits { FitsFields note.now }
    ensures most { result < 2 ^ 63 + 24 }
{
    match note {
        Note::Prepare { ballot, place } => {
            let _numbers = (ballot.number(), *place);
            16
        }
        Note::Promise {
            ballot,
            place,
            votes,
        } => {
            let _numbers = (ballot.number(), *place, votes.rows().len());
            24
        }
        Note::Accept {
            ballot,
            place,
            value,
        } => {
            let _numbers = (ballot.number(), *place);
            24 + value.as_slice().len()
        }
        Note::Voted {
            ballot,
            place,
            value,
        } => {
            let _numbers = (ballot.number(), *place);
            24 + value.as_slice().len()
        }
        Note::Higher { ballot } => {
            let _number = ballot.number();
            8
        }
        Note::Known { place, value } => {
            let _number = *place;
            16 + value.as_slice().len()
        }
    }
}

/// Those of a letter, but for the votes that it reports.
fn front_length(letter: &Letter) -> usize
    ensures length { result ≡ length (front_spelling letter.now) }
    ensures fits { FitsFront letter.now }
{
    let _nodes = (letter.from.number(), letter.to.number());
    3 + fields_length(&letter.note)
}

/// Those of a vote and its place.
fn vote_length(row: &(u64, Cast)) -> usize
    ensures length { result ≡ length (vote_spelling row.now) }
    ensures fits { FitsVote row.now }
{
    let _place = row.0;
    let _ballot = row.1.ballot.number();
    24 + row.1.value.as_slice().len()
}

/// Those of votes, none where no number says how many they are.
#[tactic(auto, using(crate::proofs::Lengths::at_least))]
fn votes_length(rows: &[(u64, Cast)]) -> Option<usize>
    ensures length { MatchOption result (2 ^ 64 ≤ length (flat_map vote_spelling rows.now)) (λ n. n ≡ length (flat_map vote_spelling rows.now)) }
    ensures fits { IfSome result (λ n. All FitsVote rows.now) }
{
    let mut sum = 0usize;
    for row in rows {
        match sum.checked_add(vote_length(row)) {
            Some(more) => sum = more,
            None => return None,
        }
    }
    Some(sum)
}

/// How many bytes a letter has, none where no number says it.
pub fn letter_length(letter: &Letter) -> Option<usize>
    ensures length { MatchOption result (2 ^ 64 ≤ length (spelling letter.now)) (λ n. n ≡ length (spelling letter.now)) }
    ensures fits { IfSome result (λ n. FitsLetter letter.now) }
{
    let votes = votes_length(reported_votes(letter))?;
    front_length(letter).checked_add(votes)
}
