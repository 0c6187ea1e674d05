//! The databases of a folder of the operating system.

ghost use Rattle.std.specs.Prelude.{◌≡◌, ◌<◌, IfOk};
ghost use Rattle.ballots.specs.Members.{member_count};
ghost use Rattle.sqlite.specs.Files.{over_files};
ghost use Rattle.stored_nodes.specs.Alone.{IsBegunIn};

use crate::databases::Databases;
use ballots::{Members, NodeId};
use kept_node::WriteStore;
use seats::PlainNode;
use sqlite::File;
use sqlite_disk::Disk;
use std::alloc::AllocError;
use stored_hosts::{FileKind, HostFile, path_of};
use stored_nodes::{FileRecords, StartFault, refuse_used, started_at};

/// The databases `E.db` of the folder of this path, each of this node as one of these members.
#[derive(Drop)]
pub struct DatabasesAt<'a> {
    rt: &'a HostRuntime,
    path: &'a str,
    id: NodeId,
    members: Members,
    ghost one_of_them: { id < member_count members },
}

impl<'a> DatabasesAt<'a> {
    ghost use Rattle.std.specs.Prelude.{◌≡◌, ◌<◌, ◌≤◌, MatchOption};
    ghost use Rattle.folder_hosts.specs.System.{member_at};

    /// Those of the node of this number, which has to be below how many there are.
    pub fn new(
        rt: &'a HostRuntime,
        path: &'a str,
        id: NodeId,
        members: Members,
    ) -> Option<DatabasesAt<'a>>
        ensures { MatchOption result (member_count members ≤ id) (λ databases. (id < member_count members)
            × (member_at databases ≡ (id, member_count members))) }
    {
        if members.count() <= id.number() {
            return None;
        }
        Some(DatabasesAt {
            rt,
            path,
            id,
            members,
        })
    }

    /// The path of the database of an epoch.
    fn path_of(&self, epoch: u64) -> Result<String, AllocError> {
        let file = HostFile {
            epoch,
            kind: FileKind::Database,
        };
        path_of(self.rt.alloc(), self.path, file)
    }
}

// No contract can say what files hold, but of those that were opened.
impl<'a> Databases for DatabasesAt<'a> {
    ghost use Rattle.folder_hosts.specs.System.{member_at};

    type Store = FileRecords;

    ghost member = { λ databases. member_at databases };

    ghost begins = { λ databases epoch is_new c. (files : _)
        × IsBegunIn ⟦<File as Disk>⟧ files (record { node = databases.id; members = databases.members }) is_new c };

    ghost opens = { λ _ _ _ _ _. Unit {0} };

    ghost tells = { λ _ _ _. Unit {0} };

    fn id(&self) -> NodeId {
        self.id
    }

    fn members(&self) -> Members {
        self.members
    }

    fn open(&mut self, epoch: u64, is_new: bool) -> Result<(PlainNode, FileRecords), StartFault> {
        let path = self.path_of(epoch)?;
        started_at(self.rt, path.as_str(), (self.id, self.members), is_new)
    }

    fn refuse_used(&self, epoch: u64) -> Result<(), StartFault> {
        let path = self.path_of(epoch)?;
        refuse_used(self.rt, path.as_str(), self.id)
    }
}
