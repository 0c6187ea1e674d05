//! The letters to a node, each once, in the order in which they were sent.

use ballots::{Letter, NodeId};
use node_worker::Record;

/// How far the letters of the records were looked through for those to a node.
#[derive(Clone, Copy, Debug)]
pub struct Inbox {
    node: NodeId,
    // The record that is looked at next, and the first of its letters that wasn't looked at.
    record: usize,
    letter: usize,
}

impl Inbox {
    /// Nothing was looked at yet.
    pub fn new(node: NodeId) -> Inbox {
        Inbox {
            node,
            record: 0,
            letter: 0,
        }
    }

    // The next letter to the node among those of one record.
    fn next_among<'a>(&mut self, letters: &'a [Letter]) -> Option<&'a Letter> {
        for i in self.letter..letters.len() {
            if letters[i].to == self.node {
                self.letter = i + 1;
                return Some(&letters[i]);
            }
        }
        self.letter = 0;
        None
    }

    /// The next letter to the node, if there is one yet. Records that were looked through aren't read again.
    pub fn next<'a>(&mut self, records: &'a [Record]) -> Option<&'a Letter> {
        for i in self.record..records.len() {
            self.record = i;
            if let Some(letter) = self.next_among(records[i].entry.letters()) {
                return Some(letter);
            }
            self.record = i + 1;
        }
        None
    }
}
