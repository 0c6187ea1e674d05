//! Where the writes of a node are stored.

ghost use Rattle.std.specs.Prelude.{ℕ, Bool, IsTrue};
ghost use Rattle.acceptor.specs.Content.{Content};
ghost use Rattle.acceptor_store.specs.Batches.{WritesAll};

use acceptor::RecordsFault;
use ballots::NodeId;
use node_writes::WriteBytes;

/// Where the writes of a node are stored, many at once.
pub trait WriteStore: Drop {
    // It has returned what it committed so far.
    ghost honest: { Self → Bool };

    // What an open of it may find.
    ghost may_find: { Self → Content → Type 0 };

    /// Stores writes of a node in order, all of them or none, committed before an Ok.
    fn store_all(&mut self, id: NodeId, writes: &[WriteBytes]) -> Result<(), RecordsFault>
        ensures honesty { IsTrue (honest self.new) → IsTrue (honest self.old) }
        ensures writes { IsTrue (honest self.new) → WritesAll result (may_find self.old) (may_find self.new) id writes.now };
}
