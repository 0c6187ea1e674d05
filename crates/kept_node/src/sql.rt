//! Records in SQL tables store the writes of a node in one transaction, with one sync.

use crate::store::WriteStore;
use acceptor::RecordsFault;
use acceptor_store::SqlRecords;
use ballots::NodeId;
use node_writes::WriteBytes;
use store_anew::OpensAnew;

impl<S: OpensAnew> WriteStore for SqlRecords<S> {
    ghost use Rattle.acceptor_store.specs.Linked.{MayFind, is_honest};

    ghost honest = { λ r. is_honest S.Store r };

    ghost may_find = { λ r c. MayFind S.Store r.owner r.held c };

    fn store_all(&mut self, id: NodeId, writes: &[WriteBytes]) -> Result<(), RecordsFault> {
        self.put_all(id, writes)
    }
}
