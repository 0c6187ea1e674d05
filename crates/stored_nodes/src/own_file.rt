//! The node of a file.

ghost use Rattle.std.specs.Prelude.{◌≡◌, ◌<◌, true, false, IfOk, IsTrue};
ghost use Rattle.acceptor.specs.Content.{Content};
ghost use Rattle.ballots.specs.Members.{member_count};
ghost use Rattle.node.specs.View.{started};
ghost use Rattle.node.specs.View.Standing.{Running};
ghost use Rattle.seats.specs.Fresh.{IsFreshAt};

use crate::owned::{begun_opened, resumed_node};
use crate::start::{FileFault, StartFault};
use crate::stored::StoredNode;
use crate::ties::Lengths;
use acceptor_store::SqlRecords;
use ballots::{Members, NodeId};
use log_ties::Loss;
use node::{Node, SchedNode};
use sqlite::{File, FileStore, Files, Unknown};
use std::fs;
use std::io::ErrorKind;

/// How many bytes the file of this path has, where there is one. What is there has to be a regular file.
pub(crate) fn length_of(rt: &HostRuntime, path: &str) -> Result<Option<u64>, StartFault> {
    match fs::symlink_metadata(rt, path) {
        Ok(found) if found.is_file() => Ok(Some(found.len())),
        Ok(_) => Err(StartFault::Unusable(FileFault::NotRegular)),
        Err(error) if error.kind() == ErrorKind::NotFound => Ok(None),
        Err(error) => Err(StartFault::from(error)),
    }
}

/// The files of a path, which are made where they aren't there.
#[derive(Drop)]
pub(crate) struct FilesAt<'a> {
    path: &'a str,
    log: String,
    lengths: Lengths,
}

impl<'a> FilesAt<'a> {
    /// Looks which of them are there.
    pub(crate) fn found(rt: &HostRuntime, path: &'a str) -> Result<FilesAt<'a>, StartFault> {
        let log = format!(in rt.alloc(); "{path}-wal")?;
        let lengths = Lengths {
            database: length_of(rt, path)?,
            log: length_of(rt, log.as_str())?,
        };
        Ok(FilesAt { path, log, lengths })
    }

    /// Opens them. Where a log is lost, nothing is made in its place.
    pub(crate) fn opened(&self, rt: &HostRuntime) -> Result<Files<File>, StartFault> {
        if let Some(loss) = self.lengths.loss() {
            return Err(StartFault::Lost(loss));
        }
        Ok(sqlite_std_file::open(rt, self.path, Unknown)?)
    }

    /// Takes them away, as far as that goes, but those that were there before.
    pub(crate) fn remove_made(&self, rt: &HostRuntime) {
        if self.lengths.database.is_none() {
            let _ = fs::remove_file(rt, self.path);
        }
        if self.lengths.log.is_none() {
            let _ = fs::remove_file(rt, self.log.as_str());
        }
    }
}

/// The database of a path and its log, `PATH-wal`. Without a database they are refused, and nothing is made.
pub(crate) fn files_of(rt: &HostRuntime, path: &str) -> Result<Files<File>, StartFault> {
    let found = FilesAt::found(rt, path)?;
    if found.lengths.database.is_none() {
        return Err(match found.lengths.log {
            None | Some(0) => StartFault::NoFile,
            Some(_) => StartFault::Lost(Loss::NoDatabase),
        });
    }
    found.opened(rt)
}

/// The node that goes on over the database of a path and its log, `PATH-wal`. Without a database it is refused, and
/// nothing is made.
pub fn node_of(
    rt: &HostRuntime,
    path: &str,
    id: NodeId,
    members: Members,
) -> Result<StoredNode<File>, StartFault>
    requires { id < member_count members }
    ensures id { IfOk result (λ node. (⟦<SchedNode<SqlRecords<FileStore<File>>> as Node>⟧.who node).id ≡ id) }
    ensures members { IfOk result (λ node. (⟦<SchedNode<SqlRecords<FileStore<File>>> as Node>⟧.who node).members ≡ member_count members) }
    ensures up { IfOk result (λ node. (⟦<SchedNode<SqlRecords<FileStore<File>>> as Node>⟧.who node).down ≡ false) }
    ensures resumed { IfOk result (λ node. IsTrue (⟦<SchedNode<SqlRecords<FileStore<File>>> as Node>⟧.honest node)
        → (c : Content) × ⟦<SchedNode<SqlRecords<FileStore<File>>> as Node>⟧.stands node (Running (started c))) }
{
    let files = files_of(rt, path)?;
    resumed_node(rt.alloc(), files, id, members)
}

/// The new node of a path, whose files are made where they aren't there. Where it is refused, what wasn't there before
/// is taken away again.
pub fn new_node_of(
    rt: &HostRuntime,
    path: &str,
    id: NodeId,
    members: Members,
) -> Result<StoredNode<File>, StartFault>
    requires { id < member_count members }
    ensures { IfOk result (IsFreshAt ⟦<SchedNode<SqlRecords<FileStore<File>>> as Node>⟧.who ⟦<SchedNode<SqlRecords<FileStore<File>>> as Node>⟧.honest
        ⟦<SchedNode<SqlRecords<FileStore<File>>> as Node>⟧.stands (member_count members) id) }
{
    let made = FilesAt::found(rt, path)?;
    let node = begun_opened(rt.alloc(), made.opened(rt), id, members);
    if node.is_err() {
        made.remove_made(rt);
    }
    node
}
