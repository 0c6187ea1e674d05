use ballots::{Bytes, Letter, NodeId};

/// What a line asks of a node.
#[derive(Drop)]
pub enum Request {
    /// To lead.
    Lead,
    /// To propose a value, of any length.
    Offer(Bytes),
    /// To release what it can, at a minislot time.
    Release(u64),
    /// To take a letter, which came from another node or from itself.
    Letter(Letter),
    /// To tell that node what it learned from a place on.
    Tell(NodeId, u64),
}
