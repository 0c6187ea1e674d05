//! Votes as a plain list of ballot, place, value and voter, beside the learner's sets of voters.

use ballots::{Ballot, Bytes, Members, NodeId};
use learner::Learner;
use std::alloc::{AllocError, Global};
use std::test::Fail;

/// A vote: its ballot, its place, its value and who voted.
type Vote = (u64, u64, u8, u8);

/// The votes that were heard, each once, and the values learned with their places.
#[derive(Drop)]
struct Plain {
    heard: Vec<Vote>,
    learned: Vec<(u64, u8)>,
}

impl Plain {
    fn new(alloc: Global) -> Plain {
        Plain {
            heard: Vec::new(alloc),
            learned: Vec::new(alloc),
        }
    }

    fn learned(&self, place: u64) -> Option<u8> {
        for (at, value) in &self.learned {
            if *at == place {
                return Some(*value);
            }
        }
        None
    }

    /// How many voted as this one did.
    fn count(&self, vote: Vote) -> usize {
        let (ballot, place, value, _) = vote;
        let like = |other: &&Vote| other.0 == ballot && other.1 == place && other.2 == value;
        self.heard.iter().filter(like).count()
    }

    fn voted(&mut self, members: Members, vote: Vote) -> Result<(), AllocError> {
        let (_, place, value, _) = vote;
        if self.learned(place).is_some() {
            return Ok(());
        }
        if !self.heard.contains(&vote) {
            self.heard.push(vote)?;
        }
        if self.count(vote) >= usize::from(members.majority()) {
            self.learned.push((place, value))?;
        }
        Ok(())
    }
}

/// The first byte of what a learner learned at a place.
fn learned(learner: &Learner, place: u64) -> Option<u8> {
    learner.learned(place)?.as_slice().first().copied()
}

fn hear(learner: &mut Learner, alloc: Global, members: Members, vote: Vote) -> Result<(), Fail> {
    let (ballot, place, value, from) = vote;
    let ballot = Ballot::new(ballot).ok_or("ballot")?;
    let from = NodeId::new(from).ok_or("node")?;
    let value = Bytes::new(Vec::from_slice(alloc, &[value])?);
    if let Some(value) = learner.voted(members, ballot, place, value, from)? {
        learner.known(place, value)?;
    }
    Ok(())
}

/// Whether both have learned the same at places 1 and 2 after a vote.
fn is_alike(
    learner: &mut Learner,
    plain: &mut Plain,
    alloc: Global,
    members: Members,
    vote: Vote,
) -> Result<bool, Fail> {
    hear(learner, alloc, members, vote)?;
    plain.voted(members, vote)?;
    Ok(learned(learner, 1) == plain.learned(1) && learned(learner, 2) == plain.learned(2))
}

/// What is learned at places 1 and 2 after these votes, where after each one both had learned the same.
fn alike(
    learner: &mut Learner,
    plain: &mut Plain,
    alloc: Global,
    members: Members,
    votes: &[Vote],
) -> Result<Option<(Option<u8>, Option<u8>)>, Fail> {
    for vote in votes {
        if !is_alike(learner, plain, alloc, members, *vote)? {
            return Ok(None);
        }
    }
    Ok(Some((plain.learned(1), plain.learned(2))))
}

/// The same of a new learner and a new list.
fn alike_anew(
    alloc: Global,
    members: Members,
    votes: &[Vote],
) -> Result<Option<(Option<u8>, Option<u8>)>, Fail> {
    let mut learner = Learner::new(alloc);
    let mut plain = Plain::new(alloc);
    alike(&mut learner, &mut plain, alloc, members, votes)
}

/// Members, votes, and what is learned at places 1 and 2 after them.
static ROWS: [(Members, &[Vote], (Option<u8>, Option<u8>)); 3] = [
    // a value of a later ballot
    (
        Members::Five,
        &[
            (8, 1, 0x0A, 1),
            (10, 1, 0x0B, 2),
            (10, 1, 0x0B, 2),
            (8, 1, 0x0A, 2),
            (10, 1, 0x0B, 3),
            (8, 1, 0x0A, 1),
            (10, 1, 0x0B, 4),
            (8, 1, 0x0A, 0),
        ],
        (Some(0x0B), None),
    ),
    // a value that was reported
    (
        Members::Five,
        &[
            (8, 1, 0x0A, 1),
            (10, 1, 0x0A, 1),
            (10, 1, 0x0A, 2),
            (10, 2, 0x0A, 3),
            (10, 1, 0x0A, 3),
        ],
        (Some(0x0A), None),
    ),
    // two places of three nodes
    (
        Members::Three,
        &[
            (8, 2, 0x0C, 0),
            (8, 1, 0x0A, 0),
            (9, 1, 0x0A, 1),
            (8, 2, 0x0C, 1),
            (9, 1, 0x0B, 2),
        ],
        (None, Some(0x0C)),
    ),
];

#[test]
fn lists_and_sets_learn_alike(rt: HostRuntime) -> Result<(), Fail> {
    for (members, votes, want) in &ROWS {
        assert_eq!(rt; alike_anew(rt.alloc(), *members, votes)?, Some(*want));
    }
    Ok(())
}
