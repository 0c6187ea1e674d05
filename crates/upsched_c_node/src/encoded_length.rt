//! How many bytes the letter of these fields has, without memory for it.

ghost use Rattle.std.specs.Prelude.{◌≡◌, ◌+◌, ◌*◌, ◌≤◌, All, IsSome, List, Some, ℕ, length, map};
ghost use Rattle.std.specs.List.{flat_map};
ghost use Rattle.ballots.specs.declared.letters.Cast.{Cast};
ghost use Rattle.ballots.specs.declared.letters.Letter.{Letter};
ghost use Rattle.ballots.specs.declared.letters.Note.{Note};
ghost use Rattle.letter_bytes.specs.Spelling.{FitsLetter, FitsVote, fields_spelling, kind_byte, kind_of, spelling};
ghost use Rattle.letter_bytes.specs.Spelling.{vote_spelling};
ghost use Rattle.upsched_c_node.specs.Letters.{AreOf, Fits, value_of, vote_of};

use crate::letter_fields::{LetterFields, VoteFields};

/// Those of a vote and its place.
fn vote_length(vote: &VoteFields) -> usize
    requires { IsSome (vote_of vote.now) }
    ensures length { (row : ℕ × Cast) → vote_of vote.now ≡ Some row → result ≡ length (vote_spelling row) }
    ensures fits { (row : ℕ × Cast) → vote_of vote.now ≡ Some row → FitsVote row }
    ensures most { result ≤ 88 }
{
    let _place = vote.place;
    let value = &vote.value[..usize::from(vote.value_len)];
    24 + value.len()
}

/// Those of votes.
fn votes_length(votes: &[VoteFields]) -> usize
    requires { All (λ v. IsSome (vote_of v)) votes.now }
    ensures length { (rows : List (ℕ × Cast)) → map vote_of votes.now ≡ map Some rows
        → result ≡ length (flat_map vote_spelling rows) }
    ensures fits { (rows : List (ℕ × Cast)) → map vote_of votes.now ≡ map Some rows → All FitsVote rows }
    ensures most { result ≤ 88 * length votes.now }
{
    let mut sum = 0;
    for vote in votes {
        sum += vote_length(vote);
    }
    sum
}

/// Those of a note's numbers, by its kind.
fn numbers_length(kind: u8) -> usize
    ensures length { (note : Note) → kind ≡ kind_byte (kind_of note)
        → length (fields_spelling note) ≡ result + length (value_of note) }
    ensures most { result ≤ 24 }
{
    match kind {
        1 => 16,
        5 => 8,
        6 => 16,
        _ => 24,
    }
}

/// How many bytes the letter of these fields and votes has.
pub fn encoded_length(fields: &LetterFields, votes: &[VoteFields]) -> usize
    requires { Fits fields.now votes.now }
    ensures length { (l : Letter) → AreOf fields.now votes.now l → result ≡ length (spelling l) }
    ensures letter { (l : Letter) × FitsLetter l × AreOf fields.now votes.now l }
{
    let _numbers = (fields.place, votes.len());
    let value = &fields.value[..usize::from(fields.value_len)];
    3 + numbers_length(fields.kind) + value.len() + votes_length(votes)
}
