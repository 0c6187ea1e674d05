//! A node in memory beside the records of its files.

ghost use Rattle.std.specs.Prelude.{◌≡◌, ◌<◌, false, true, IfOk, IsTrue, OnOk};
ghost use Rattle.acceptor.specs.Content.{no_content};
ghost use Rattle.acceptor_store.specs.Linked.{MayFind, is_honest};
ghost use Rattle.ballots.specs.Members.{member_count};
ghost use Rattle.node.specs.View.{View, started};
ghost use Rattle.node.specs.View.Standing.{Running};
ghost use Rattle.sqlite.specs.Files.{over_files};
ghost use Rattle.stored_nodes.specs.Alone.{IsBegunIn};
ghost use Rattle.stored_nodes.specs.Starts.{HasStartedBeside};

use crate::fresh::{begun_with, resumed_with};
use crate::opens::OpensRecords;
use crate::own_file::{FilesAt, files_of};
use crate::start::StartFault;
use acceptor::{PlainRecords, RecordsFault};
use acceptor_store::SqlRecords;
use ballots::{Members, NodeId};
use node::{Node, NodeFault};
use seats::PlainNode;
use sqlite::{File, FileStore, Files};
use sqlite_disk::Disk;
use std::alloc::Global;

/// The records in the two files of a node.
pub type FileRecords = SqlRecords<FileStore<File>>;

fn unread(fault: RecordsFault) -> StartFault {
    StartFault::Unread(NodeFault::from(fault))
}

/// A node that begins over records in memory with nothing in them, or goes on over what they hold.
fn started_with(
    alloc: Global,
    member: (NodeId, Members),
    is_new: bool,
    records: PlainRecords,
) -> Result<PlainNode, StartFault>
    requires { member.0 < member_count member.1 }
    ensures id { IfOk result (λ node. (⟦<PlainNode as Node>⟧.who node).id ≡ member.0) }
    ensures members { IfOk result (λ node. (⟦<PlainNode as Node>⟧.who node).members ≡ member_count member.1) }
    ensures up { IfOk result (λ node. (⟦<PlainNode as Node>⟧.who node).down ≡ false) }
    ensures new { OnOk result (IsTrue is_new → records ≡ no_content) }
    ensures over { IfOk result (λ node. ⟦<PlainNode as Node>⟧.stands node (Running (started records))) }
    ensures same { IfOk result (λ node. (view : View) → ⟦<PlainNode as Node>⟧.stands node (Running view) → view.content ≡ records) }
{
    let (id, members) = member;
    if is_new {
        begun_with(alloc, id, members, records)
    } else {
        resumed_with(alloc, id, members, records)
    }
}

/// A node that begins in memory beside the records of files that may be new, or goes on over what these hold.
fn started_beside<F: OpensRecords>(
    alloc: Global,
    files: F,
    member: (NodeId, Members),
    is_new: bool,
) -> Result<(PlainNode, SqlRecords<F::Base>), StartFault>
    requires { member.0 < member_count member.1 }
    ensures { IfOk result (λ r. HasStartedBeside ⟦<PlainNode as Node>⟧.who ⟦<PlainNode as Node>⟧.stands
        (is_honest F.Base.Store r.1) (MayFind F.Base.Store r.1.owner r.1.held) (F.begins files (record { node = member.0; members = member.1 }))
        (member_count member.1) member.0 is_new r.0) }
{
    let (id, members) = member;
    let mut store = files.opened_for(alloc, id, members, is_new)?;
    let records = match store.copied() {
        Ok(records) => records,
        Err(fault) => return Err(unread(fault)),
    };
    let node = started_with(alloc, (id, members), is_new, records)?;
    Ok((node, store))
}

/// The same over files of any disk.
fn started_over_files<D: Disk + Drop>(
    alloc: Global,
    files: Files<D>,
    member: (NodeId, Members),
    is_new: bool,
) -> Result<(PlainNode, SqlRecords<FileStore<D>>), StartFault>
    requires { member.0 < member_count member.1 }
    ensures { IfOk result (λ r. HasStartedBeside ⟦<PlainNode as Node>⟧.who ⟦<PlainNode as Node>⟧.stands
        (is_honest over_files r.1) (MayFind over_files r.1.owner r.1.held) (IsBegunIn D.Disk files (record { node = member.0; members = member.1 }))
        (member_count member.1) member.0 is_new r.0) }
{
    started_beside(alloc, files, member, is_new)
}

/// The same over files that are new, or without tables.
fn started_made(
    rt: &HostRuntime,
    made: &FilesAt<'_>,
    member: (NodeId, Members),
) -> Result<(PlainNode, FileRecords), StartFault>
    requires { member.0 < member_count member.1 }
    ensures { IfOk result (λ r. HasStartedBeside ⟦<PlainNode as Node>⟧.who ⟦<PlainNode as Node>⟧.stands
        (is_honest over_files r.1) (MayFind over_files r.1.owner r.1.held)
        (λ is_new c. (files : _) × IsBegunIn ⟦<File as Disk>⟧ files (record { node = member.0; members = member.1 }) is_new c)
        (member_count member.1) member.0 true r.0) }
{
    match made.opened(rt) {
        Ok(files) => started_over_files(rt.alloc(), files, member, true),
        Err(fault) => Err(fault),
    }
}

/// The same. Where the node is refused, what wasn't there before is taken away again.
fn started_new(
    rt: &HostRuntime,
    path: &str,
    member: (NodeId, Members),
) -> Result<(PlainNode, FileRecords), StartFault>
    requires { member.0 < member_count member.1 }
    ensures { IfOk result (λ r. HasStartedBeside ⟦<PlainNode as Node>⟧.who ⟦<PlainNode as Node>⟧.stands
        (is_honest over_files r.1) (MayFind over_files r.1.owner r.1.held)
        (λ is_new c. (files : _) × IsBegunIn ⟦<File as Disk>⟧ files (record { node = member.0; members = member.1 }) is_new c)
        (member_count member.1) member.0 true r.0) }
{
    let made = FilesAt::found(rt, path)?;
    let started = started_made(rt, &made, member);
    if started.is_err() {
        made.remove_made(rt);
    }
    started
}

/// A node in memory beside the records of its files, the database of a path and its log: a new one where these hold
/// nothing, or one that goes on over what they hold. It is refused as by `use_node_at`, and by the same fault, and what
/// was made for it is taken away again. A node that goes on does so over a content that is in some files, which are this
/// node's as one of these members. Those of a new one have its tables in the database file by itself.
pub fn started_at(
    rt: &HostRuntime,
    path: &str,
    member: (NodeId, Members),
    is_new: bool,
) -> Result<(PlainNode, FileRecords), StartFault>
    requires { member.0 < member_count member.1 }
    ensures { IfOk result (λ r. HasStartedBeside ⟦<PlainNode as Node>⟧.who ⟦<PlainNode as Node>⟧.stands
        (is_honest over_files r.1) (MayFind over_files r.1.owner r.1.held)
        (λ is_new c. (files : _) × IsBegunIn ⟦<File as Disk>⟧ files (record { node = member.0; members = member.1 }) is_new c)
        (member_count member.1) member.0 is_new r.0) }
{
    if is_new {
        started_new(rt, path, member)
    } else {
        let files = files_of(rt, path)?;
        started_over_files(rt.alloc(), files, member, false)
    }
}
