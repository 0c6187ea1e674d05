//! Where journals are torn.

use ballots::NodeId;

/// Why a journal doesn't go on.
#[derive(Clone, Copy, Debug, PartialEq, Eq)]
pub enum Why {
    /// What stands behind a line isn't the reply that the node gives to it.
    OtherReply,
    /// The line is a letter of this member, whose journal doesn't send it.
    Unsent(NodeId),
    /// It is no line of a journal of this node: no life begins there where one has to, or the line is a letter to
    /// another node or from no member.
    NoLine,
}

impl Why {
    ghost use Rattle.std.specs.Prelude.{◌≡◌};
    ghost use Rattle.node_journal.specs.Tears.{sender_of};

    /// The number of the member whose letter it is, where it is one.
    pub fn sender(self) -> Option<u8>
        ensures { result ≡ sender_of self }
    {
        match self {
            Why::Unsent(node) => Some(node.number()),
            _ => None,
        }
    }
}

/// Where a journal doesn't go on: its number, that of the line, from 1 on, and why.
#[derive(Clone, Copy, Debug, PartialEq, Eq)]
pub struct Tear {
    pub journal: usize,
    pub line: usize,
    pub why: Why,
}
