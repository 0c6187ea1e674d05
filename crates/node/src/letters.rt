//! The letters of a node's answers.

ghost use Rattle.std.specs.Prelude.{◌≡◌, ◌≤◌, ◌<◌, [], ◌∷◌, IfOk, IsOk, length};
ghost use Rattle.ballots.specs.Limits.{most_places};
ghost use Rattle.ballots.specs.declared.letters.Note.TheVariants.{Higher as HigherNote};
ghost use Rattle.command_log.specs.View.{AreRows};
ghost use Rattle.node.specs.Answers.{prepared_note};
ghost use Rattle.node.specs.Learned.{AreLearned};
ghost use Rattle.node.specs.Step.{first_known, letter};
ghost use Rattle.node.specs.View.{values_from};

use acceptor::Prepared;
use ballots::{Ballot, Bytes, Letter, MOST_PLACES, NodeId, Note, Place};
use place_table::Table;
use std::alloc::{AllocError, Global};

/// One letter that tells a higher ballot.
pub(crate) fn one_letter(
    alloc: Global,
    from: NodeId,
    to: NodeId,
    ballot: Ballot,
) -> Result<Vec<Letter>, AllocError>
    ensures { IfOk result (λ letters. letters.items ≡ letter from to (HigherNote ballot) ∷ []) }
{
    let mut letters = Vec::new(alloc);
    letters.push(Letter {
        from,
        to,
        note: Note::Higher { ballot },
    })?;
    Ok(letters)
}

/// Known letters of the first 64 learned places from one on.
pub(crate) fn known_letters(
    alloc: Global,
    from: NodeId,
    to: NodeId,
    place: u64,
    learned: &Table<Bytes>,
) -> Result<Vec<Letter>, AllocError>
    requires { AreRows 1 learned.now.entries }
    ensures letters { IfOk result (λ letters. letters.items ≡ first_known from learned.now.entries to place) }
    ensures no_memory { first_known from learned.now.entries to place ≡ [] → IsOk result }
{
    let mut letters = Vec::new(alloc);
    let mut next = place;
    for _told in 0..64_u64 {
        let Some((at, value)) = learned.next_from(next) else {
            return Ok(letters);
        };
        let note = Note::Known {
            place: at,
            value: value.copy(alloc)?,
        };
        letters.push(Letter { from, to, note })?;
        next = at + 1;
    }
    Ok(letters)
}

/// How many places from the first on are learned without a gap, as far as the last place. So many are, and aren't
/// looked at.
pub(crate) fn prefix_len(learned: &Table<Bytes>, known: u64) -> u64
    requires rows { AreRows 1 learned.now.entries }
    requires known { AreLearned learned.now.entries known }
    ensures below { result < most_places → result ≡ length (values_from 1 learned.now.entries) }
    ensures full { most_places ≤ result → most_places ≤ length (values_from 1 learned.now.entries) }
    ensures learned { AreLearned learned.now.entries result }
{
    let mut len = known;
    while len < MOST_PLACES && learned.contains(len + 1) {
        len += 1;
    }
    len
}

/// What an acceptor's answer to a Prepare says.
pub(crate) fn prepared_note(answer: Prepared, ballot: Ballot, place: Place) -> Note
    ensures { result ≡ prepared_note ballot place answer }
{
    match answer {
        Prepared::Promised(votes) => Note::Promise {
            ballot,
            place: place.number(),
            votes,
        },
        Prepared::Higher(other) => Note::Higher { ballot: other },
    }
}
