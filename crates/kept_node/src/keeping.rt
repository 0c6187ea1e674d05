//! What a node in memory did is kept by commits of its writes.

use crate::kept::KeptNode;
use crate::store::WriteStore;
use node::{Node, NodeFault};
use seats::{Keeps, PlainNode};

impl<W: WriteStore> Keeps for KeptNode<W> {
    ghost use Rattle.std.specs.Prelude.{◌≡◌};
    ghost use Rattle.acceptor.specs.declared.records.RecordsFault.{RecordsFault};
    ghost use Rattle.kept_node.specs.Noted.{FailsToStore, HasKept};
    ghost use Rattle.proposer.specs.Faults.{told};

    ghost has_kept = { λ n. HasKept W.WriteStore n.noted n.node.parts.records };

    ghost fails_to_keep = { λ old why new. (fault : RecordsFault) × (why ≡ told fault)
        × FailsToStore W.WriteStore fault old.noted.store new.noted.store old.node.parts.records };

    fn waits(&self) -> bool {
        self.noted.waits()
    }

    fn is_full(&self) -> bool {
        self.noted.is_full()
    }

    fn keep(&mut self) -> Result<(), NodeFault> {
        let id = self.node.id();
        match self.noted.store_waiting(id) {
            Ok(()) => Ok(()),
            Err(fault) => Err(NodeFault::from(fault)),
        }
    }
}
