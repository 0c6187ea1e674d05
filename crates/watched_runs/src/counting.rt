//! Votes, counted as they are sent.

ghost use Rattle.std.specs.Prelude.{◌≡◌, IfOk, OnOk};
ghost use Rattle.ballots.specs.Members.{member_count};
ghost use Rattle.watched_runs.specs.Choices.{choices, heard, heard_vote, shown, shown_vote};

use ballots::{Ballot, Bytes, Letter, Members, NodeId, Note};
use learner::Learner;
use std::alloc::{AllocError, Global};

/// A vote is sent: the place, where a majority has voted so with it and no majority had before.
fn hear_vote(
    alloc: Global,
    learner: &mut Learner,
    members: Members,
    vote: (Ballot, u64, &Bytes),
    from: NodeId,
) -> Result<Option<u64>, AllocError>
    ensures heard { OnOk result (learner.new ≡ heard_vote (member_count members) learner.old vote.entry.0 vote.entry.1 vote.entry.2.now from) }
    ensures shown { IfOk result (λ place. place
        ≡ shown_vote (member_count members) learner.old vote.entry.0 vote.entry.1 vote.entry.2.now from) }
{
    let (ballot, place, value) = vote;
    let value = value.copy(alloc)?;
    match learner.voted(members, ballot, place, value, from)? {
        Some(value) => {
            learner.known(place, value)?;
            Ok(Some(place))
        }
        None => Ok(None),
    }
}

/// A letter is sent: the place that it shows to be chosen, if one.
fn hear(
    alloc: Global,
    learner: &mut Learner,
    members: Members,
    letter: &Letter,
) -> Result<Option<u64>, AllocError>
    ensures heard { OnOk result (learner.new ≡ heard (member_count members) learner.old letter.now) }
    ensures shown { IfOk result (λ place. place ≡ shown (member_count members) learner.old letter.now) }
{
    match &letter.note {
        Note::Voted {
            ballot,
            place,
            value,
        } => hear_vote(
            alloc,
            learner,
            members,
            (*ballot, *place, value),
            letter.from,
        ),
        _ => Ok(None),
    }
}

/// For each letter, in the order of sending, the place that it shows to be chosen: it is the vote by which a majority
/// of the members has voted for one value in one ballot there, and no letter before it showed that place.
pub fn choices(
    alloc: Global,
    members: Members,
    letters: &[Letter],
) -> Result<Vec<Option<u64>>, AllocError>
    ensures { IfOk result (λ places. places.items ≡ choices (member_count members) letters.now) }
{
    let mut learner = Learner::new(alloc);
    let mut places = Vec::with_capacity(alloc, letters.len())?;
    for letter in letters {
        places.push(hear(alloc, &mut learner, members, letter)?)?;
    }
    Ok(places)
}
