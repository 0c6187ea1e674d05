//! Which letters a node heeds.

ghost use Rattle.std.specs.Prelude.{◌≡◌};
ghost use Rattle.ballots.specs.Members.{member_count};
ghost use Rattle.node.specs.Step.{is_place, is_value, are_votes, is_sound, is_heeded};

use ballots::{Ballot, Bytes, Cast, LONGEST_VALUE, Letter, MOST_PLACES, Members, NodeId, Note};

fn is_place(place: u64) -> bool
    ensures { result ≡ is_place place }
{
    0 < place && place <= MOST_PLACES
}

fn is_value(value: &Bytes) -> bool
    ensures { result ≡ is_value value.now }
{
    value.as_slice().len() <= LONGEST_VALUE
}

/// Whether these are votes that a promise of the ballot may report from the place on.
fn are_votes(ballot: Ballot, place: u64, votes: &[(u64, Cast)]) -> bool
    ensures { result ≡ are_votes ballot place votes.now }
{
    let mut least = place;
    for vote in votes {
        let is_vote = least <= vote.0
            && is_place(vote.0)
            && is_value(&vote.1.value)
            && vote.1.ballot.number() < ballot.number();
        if !is_vote {
            return false;
        }
        least = vote.0 + 1;
    }
    true
}

/// Whether a letter says what a node may have said.
fn is_sound(letter: &Letter) -> bool
    ensures { result ≡ is_sound letter.now letter.now.note }
{
    match &letter.note {
        Note::Prepare { ballot, place } => {
            is_place(*place) && ballot.node().number() == letter.from.number()
        }
        Note::Promise {
            ballot,
            place,
            votes,
        } => {
            is_place(*place)
                && ballot.node().number() == letter.to.number()
                && are_votes(*ballot, *place, votes.rows())
        }
        Note::Accept {
            ballot,
            place,
            value,
        } => {
            is_place(*place) && is_value(value) && ballot.node().number() == letter.from.number()
        }
        Note::Voted { place, value, .. } => is_place(*place) && is_value(value),
        Note::Higher { .. } => true,
        Note::Known { place, value } => is_place(*place) && is_value(value),
    }
}

/// Whether a letter is from a member and to this one, and sound.
pub(crate) fn is_heeded(members: Members, me: NodeId, letter: &Letter) -> bool
    ensures { result ≡ is_heeded (member_count members) me letter.now }
{
    letter.from.number() < members.count()
        && letter.to.number() < members.count()
        && letter.to.number() == me.number()
        && is_sound(letter)
}
