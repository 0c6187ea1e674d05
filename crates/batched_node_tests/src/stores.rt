//! A store of writes that counts its commits, and may refuse one.

use acceptor::RecordsFault;
use ballots::NodeId;
use kept_node::WriteStore;
use node_writes::WriteBytes;
use std::alloc::Global;

/// What was stored in so many commits. The commit of this number, from 0 on, fails so.
#[derive(Drop)]
pub struct Counted {
    pub writes: Vec<WriteBytes>,
    pub commits: u64,
    pub fails: Option<(u64, RecordsFault)>,
}

impl Counted {
    pub fn new(alloc: Global, fails: Option<(u64, RecordsFault)>) -> Counted {
        Counted {
            writes: Vec::new(alloc),
            commits: 0,
            fails,
        }
    }
}

/// Nothing is promised of it.
impl WriteStore for Counted {
    ghost use Rattle.std.specs.Prelude.{false};

    ghost honest = { λ store. false };

    ghost may_find = { λ store content. Unit {0} };

    fn store_all(&mut self, _id: NodeId, writes: &[WriteBytes]) -> Result<(), RecordsFault> {
        if let Some((number, fault)) = self.fails {
            if number == self.commits {
                return Err(fault);
            }
        }
        if self.writes.extend_from_slice(writes).is_err() {
            return Err(RecordsFault::OutOfMemory);
        }
        self.commits = self.commits.saturating_add(1);
        Ok(())
    }
}
