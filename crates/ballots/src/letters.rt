//! The letters that nodes send to one another (Lamport, Paxos Made Simple, section 2.2). They say what their sender put
//! in: a node has to test it.

ghost use Rattle.std.specs.Prelude.{◌≡◌, ◌↔◌, IfOk, IsTrue};

use crate::ballot::{Ballot, NodeId};
use crate::values::Bytes;
use std::alloc::{AllocError, Global};
use std::marker::Model;

/// A vote at a place: its ballot, and the value that it is for.
#[derive(Drop, Clone)]
pub struct Cast {
    pub ballot: Ballot,
    pub value: Bytes,
}

impl Cast {
    /// The same vote again.
    pub fn copy(&self, alloc: Global) -> Result<Cast, AllocError>
        ensures { IfOk result (λ copy. copy ≡ self.now) }
    {
        Ok(Cast {
            ballot: self.ballot,
            value: self.value.copy(alloc)?,
        })
    }

    /// Whether it is the same vote.
    pub fn is_same(&self, other: &Cast) -> bool
        ensures { IsTrue result ↔ (self.now ≡ other.now) }
    {
        self.ballot == other.ballot && self.value.as_slice() == other.value.as_slice()
    }
}

/// Whether the places and votes are the same, in the same order.
fn are_same_rows(a: &[(u64, Cast)], b: &[(u64, Cast)]) -> bool
    ensures { IsTrue result ↔ (a.now ≡ b.now) }
{
    if a.len() != b.len() {
        return false;
    }
    for i in 0..a.len() {
        if a[i].0 != b[i].0 || !a[i].1.is_same(&b[i].1) {
            return false;
        }
    }
    true
}

/// Votes with their places. A store gives its own by ascending place.
#[derive(Drop)]
pub struct Votes {
    rows: Vec<(u64, Cast)>,
}

impl Model for Votes {
    ghost use Rattle.std.specs.Prelude.{ℕ, List};
    ghost use Rattle.ballots.specs.declared.letters.Cast.{Cast};

    ghost Value = { List (ℕ × Cast) };

    ghost view = { λ v. v.rows.items };
}

impl Votes {
    /// Votes with their places, in this order.
    pub fn new(rows: Vec<(u64, Cast)>) -> Votes
        ensures { result ≡ rows.items }
    {
        Votes { rows }
    }

    /// The same votes again.
    pub fn copy(&self, alloc: Global) -> Result<Votes, AllocError>
        ensures { IfOk result (λ v. v ≡ self.now) }
    {
        let mut rows = Vec::new(alloc);
        for row in self.rows() {
            rows.push((row.0, row.1.copy(alloc)?))?;
        }
        Ok(Votes::new(rows))
    }

    /// Whether they are the same, in the same order.
    pub fn is_same(&self, other: &Votes) -> bool
        ensures { IsTrue result ↔ (self.now ≡ other.now) }
    {
        are_same_rows(self.rows(), other.rows())
    }

    /// The place and the vote of each.
    pub fn rows(&self) -> &[(u64, Cast)]
        ensures { result.now ≡ self.now }
    {
        self.rows.as_slice()
    }
}

/// What a letter says. Its places and values may be none of the log.
#[derive(Drop)]
pub enum Note {
    /// Asks for a promise of the ballot, for all places from one on.
    Prepare {
        ballot: Ballot,
        place: u64,
    },
    /// Takes part in no lower ballot, and reports the votes from the place on.
    Promise {
        ballot: Ballot,
        place: u64,
        votes: Votes,
    },
    /// Asks for a vote.
    Accept {
        ballot: Ballot,
        place: u64,
        value: Bytes,
    },
    /// Has voted.
    Voted {
        ballot: Ballot,
        place: u64,
        value: Bytes,
    },
    /// Has promised this ballot, so that a lower one isn't taken.
    Higher {
        ballot: Ballot,
    },
    /// Has learned the value of the place.
    Known {
        place: u64,
        value: Bytes,
    },
}

impl Note {
    /// The same note again.
    pub fn copy(&self, alloc: Global) -> Result<Note, AllocError>
        ensures { IfOk result (λ n. n ≡ self.now) }
    {
        match self {
            Note::Prepare { ballot, place } => Ok(Note::Prepare {
                ballot: *ballot,
                place: *place,
            }),
            Note::Promise {
                ballot,
                place,
                votes,
            } => Ok(Note::Promise {
                ballot: *ballot,
                place: *place,
                votes: votes.copy(alloc)?,
            }),
            Note::Accept {
                ballot,
                place,
                value,
            } => Ok(Note::Accept {
                ballot: *ballot,
                place: *place,
                value: value.copy(alloc)?,
            }),
            Note::Voted {
                ballot,
                place,
                value,
            } => Ok(Note::Voted {
                ballot: *ballot,
                place: *place,
                value: value.copy(alloc)?,
            }),
            Note::Higher { ballot } => Ok(Note::Higher { ballot: *ballot }),
            Note::Known { place, value } => Ok(Note::Known {
                place: *place,
                value: value.copy(alloc)?,
            }),
        }
    }

    /// Whether it says the same.
    pub fn is_same(&self, other: &Note) -> bool
        ensures { IsTrue result ↔ (self.now ≡ other.now) }
    {
        match (self, other) {
            (
                Note::Prepare { ballot, place },
                Note::Prepare {
                    ballot: other_ballot,
                    place: other_place,
                },
            ) => *ballot == *other_ballot && *place == *other_place,
            (
                Note::Promise {
                    ballot,
                    place,
                    votes,
                },
                Note::Promise {
                    ballot: other_ballot,
                    place: other_place,
                    votes: other_votes,
                },
            ) => {
                *ballot == *other_ballot && *place == *other_place && votes.is_same(other_votes)
            }
            (
                Note::Accept {
                    ballot,
                    place,
                    value,
                },
                Note::Accept {
                    ballot: other_ballot,
                    place: other_place,
                    value: other_value,
                },
            ) => {
                *ballot == *other_ballot
                    && *place == *other_place
                    && value.as_slice() == other_value.as_slice()
            }
            (
                Note::Voted {
                    ballot,
                    place,
                    value,
                },
                Note::Voted {
                    ballot: other_ballot,
                    place: other_place,
                    value: other_value,
                },
            ) => {
                *ballot == *other_ballot
                    && *place == *other_place
                    && value.as_slice() == other_value.as_slice()
            }
            (
                Note::Higher { ballot },
                Note::Higher {
                    ballot: other_ballot,
                },
            ) => *ballot == *other_ballot,
            (
                Note::Known { place, value },
                Note::Known {
                    place: other_place,
                    value: other_value,
                },
            ) => *place == *other_place && value.as_slice() == other_value.as_slice(),
            _ => false,
        }
    }
}

/// What a node tells another, or itself.
#[derive(Drop)]
pub struct Letter {
    pub from: NodeId,
    pub to: NodeId,
    pub note: Note,
}

impl Letter {
    /// The same letter again.
    pub fn copy(&self, alloc: Global) -> Result<Letter, AllocError>
        ensures { IfOk result (λ copy. copy ≡ self.now) }
    {
        Ok(Letter {
            from: self.from,
            to: self.to,
            note: self.note.copy(alloc)?,
        })
    }

    /// Whether it is the same letter.
    pub fn is_same(&self, other: &Letter) -> bool
        ensures { IsTrue result ↔ (self.now ≡ other.now) }
    {
        self.from == other.from && self.to == other.to && self.note.is_same(&other.note)
    }
}
