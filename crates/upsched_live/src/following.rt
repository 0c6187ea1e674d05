//! Whether a majority follows the node that leads.

use ballots::{Ballot, Letter, Members, NodeId, Note};
use node_worker::{Ask, Cause, Ended, Entry, Record};

/// The members that have promised a node's ballot, as the node's own records tell.
#[derive(Clone, Copy, Debug)]
pub struct Following {
    node: NodeId,
    members: Members,
    // The records that were read.
    read: usize,
    ballot: Option<Ballot>,
    // Whether the member of each number has promised.
    promised: [bool; 5],
}

// The ballot of which a letter asks for a promise.
fn asked_ballot(letter: Option<&Letter>) -> Option<Ballot> {
    match letter {
        Some(letter) => match letter.note {
            Note::Prepare { ballot, .. } => Some(ballot),
            _ => None,
        },
        None => None,
    }
}

impl Following {
    /// Nobody follows yet.
    pub fn new(node: NodeId, members: Members) -> Following {
        Following {
            node,
            members,
            read: 0,
            ballot: None,
            promised: [false; 5],
        }
    }

    // Notes a letter that the node received.
    fn note_letter(&mut self, letter: &Letter) {
        if let Note::Promise { ballot, .. } = letter.note {
            if Some(ballot) == self.ballot {
                self.promised[usize::from(letter.from.number())] = true;
            }
        }
    }

    // Notes what the node did.
    fn note(&mut self, entry: &Entry) {
        if entry.ended != Ended::Whole {
            return;
        }
        match entry.cause() {
            Cause::Ask(Ask::Lead) => {
                self.ballot = asked_ballot(entry.letters().first());
                self.promised = [false; 5];
            }
            Cause::Letter(letter) => self.note_letter(letter),
            Cause::Ask(_) => {}
        }
    }

    // Reads the records that are new.
    fn read_on(&mut self, records: &[Record]) {
        for i in self.read..records.len() {
            if records[i].node == self.node {
                self.note(&records[i].entry);
            }
            self.read = i + 1;
        }
    }

    /// Whether a majority of the members has promised the node's ballot, by these records.
    pub fn is_majority(&mut self, records: &[Record]) -> bool {
        self.read_on(records);
        let count = self.promised.iter().filter(|promised| **promised).count();
        count >= usize::from(self.members.majority())
    }
}
