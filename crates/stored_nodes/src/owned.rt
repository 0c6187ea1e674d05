//! A node over files that are its own.

ghost use Rattle.std.specs.Prelude.{◌≡◌, ◌<◌, false, true, IfOk, IsTrue};
ghost use Rattle.acceptor.specs.Content.{Content, no_content};
ghost use Rattle.ballots.specs.Members.{member_count};
ghost use Rattle.log_ties.specs.declared.tie.Loss.{Loss};
ghost use Rattle.node.specs.View.{started};
ghost use Rattle.node.specs.View.Standing.{Running};
ghost use Rattle.seats.specs.Fresh.{IsFreshAt};
ghost use Rattle.sqlite.specs.Files.{image_of};
ghost use Rattle.stored_nodes.specs.Alone.{IsAlone, IsBegunIn, IsBlankIn};
ghost use Rattle.stored_nodes.specs.Lost.{IsLossOf};
ghost use Rattle.stored_nodes.specs.Starts.{HasStarted};

use crate::fresh::{begun_with, resumed_with};
use crate::opens::OpensRecords;
use crate::start::StartFault;
use crate::stored::StoredNode;
use acceptor_store::SqlRecords;
use ballots::{Members, NodeId};
use node::{Node, SchedNode};
use sqlite::{FileStore, Files};
use sqlite_disk::Disk;
use std::alloc::Global;

/// A node that goes on over files of any kind. It is as one that starts over a content that is in them.
pub(crate) fn resumed_over<F: OpensRecords>(
    alloc: Global,
    files: F,
    id: NodeId,
    members: Members,
) -> Result<SchedNode<SqlRecords<F::Base>>, StartFault>
    requires { id < member_count members }
    ensures id { IfOk result (λ node. (⟦<SchedNode<SqlRecords<F::Base>> as Node>⟧.who node).id ≡ id) }
    ensures members { IfOk result (λ node. (⟦<SchedNode<SqlRecords<F::Base>> as Node>⟧.who node).members ≡ member_count members) }
    ensures up { IfOk result (λ node. (⟦<SchedNode<SqlRecords<F::Base>> as Node>⟧.who node).down ≡ false) }
    ensures resumed { IfOk result (λ node. IsTrue (⟦<SchedNode<SqlRecords<F::Base>> as Node>⟧.honest node)
        → (c : Content) × F.begins files (record { node = id; members = members }) false c
        × ⟦<SchedNode<SqlRecords<F::Base>> as Node>⟧.stands node (Running (started c))) }
    ensures lost { (loss : Loss) → F.lost files loss → IfOk result (λ node. IsTrue (⟦<SchedNode<SqlRecords<F::Base>> as Node>⟧.honest node) → ⊥) }
{
    let records = files.opened_for(alloc, id, members, false)?;
    resumed_with(alloc, id, members, records)
}

/// Whose records a node begins over.
#[derive(Clone, Copy)]
pub(crate) enum Claim {
    /// Its own, made in files without tables.
    New,
    /// Its own, which are there.
    Own,
    /// Those of a node without an owner, in files that may have none.
    Nobodys,
}

/// A new node over files of any kind without tables.
fn new_over<F: OpensRecords>(
    alloc: Global,
    files: F,
    id: NodeId,
    members: Members,
) -> Result<SchedNode<SqlRecords<F::Base>>, StartFault>
    requires { id < member_count members }
    ensures fresh { IfOk result (IsFreshAt ⟦<SchedNode<SqlRecords<F::Base>> as Node>⟧.who ⟦<SchedNode<SqlRecords<F::Base>> as Node>⟧.honest
        ⟦<SchedNode<SqlRecords<F::Base>> as Node>⟧.stands (member_count members) id) }
    ensures begins { IfOk result (λ node. IsTrue (⟦<SchedNode<SqlRecords<F::Base>> as Node>⟧.honest node)
        → F.begins files (record { node = id; members = members }) true no_content) }
    ensures lost { (loss : Loss) → F.lost files loss → IfOk result (λ node. IsTrue (⟦<SchedNode<SqlRecords<F::Base>> as Node>⟧.honest node) → ⊥) }
{
    let records = files.opened_for(alloc, id, members, true)?;
    begun_with(alloc, id, members, records)
}

/// A node that begins over records of its own, or over those of nobody.
fn own_over<F: OpensRecords>(
    alloc: Global,
    files: F,
    id: NodeId,
    members: Members,
    is_owned: bool,
) -> Result<SchedNode<SqlRecords<F::Base>>, StartFault>
    requires { id < member_count members }
    ensures fresh { IfOk result (IsFreshAt ⟦<SchedNode<SqlRecords<F::Base>> as Node>⟧.who ⟦<SchedNode<SqlRecords<F::Base>> as Node>⟧.honest
        ⟦<SchedNode<SqlRecords<F::Base>> as Node>⟧.stands (member_count members) id) }
    ensures lost { (loss : Loss) → F.lost files loss → IfOk result (λ node. IsTrue (⟦<SchedNode<SqlRecords<F::Base>> as Node>⟧.honest node) → ⊥) }
{
    let records = if is_owned {
        files.opened_for(alloc, id, members, false)?
    } else {
        files.opened(alloc)?
    };
    begun_with(alloc, id, members, records)
}

/// A node that begins over files of any kind with nothing in them.
pub(crate) fn begun_over<F: OpensRecords>(
    alloc: Global,
    files: F,
    id: NodeId,
    members: Members,
    claim: Claim,
) -> Result<SchedNode<SqlRecords<F::Base>>, StartFault>
    requires { id < member_count members }
    ensures fresh { IfOk result (IsFreshAt ⟦<SchedNode<SqlRecords<F::Base>> as Node>⟧.who ⟦<SchedNode<SqlRecords<F::Base>> as Node>⟧.honest
        ⟦<SchedNode<SqlRecords<F::Base>> as Node>⟧.stands (member_count members) id) }
    ensures lost { (loss : Loss) → F.lost files loss → IfOk result (λ node. IsTrue (⟦<SchedNode<SqlRecords<F::Base>> as Node>⟧.honest node) → ⊥) }
{
    match claim {
        Claim::New => new_over(alloc, files, id, members),
        Claim::Own => own_over(alloc, files, id, members, true),
        Claim::Nobodys => own_over(alloc, files, id, members, false),
    }
}

/// Whether a node begins so over files of any kind, or why it doesn't.
pub(crate) fn begins_over<F: OpensRecords>(
    alloc: Global,
    files: F,
    id: NodeId,
    members: Members,
    claim: Claim,
) -> Result<(), StartFault>
    requires { id < member_count members }
{
    match begun_over(alloc, files, id, members, claim) {
        Ok(_node) => Ok(()),
        Err(fault) => Err(fault),
    }
}

/// A node that is new, or goes on: over a content that is in the files.
pub(crate) fn started_over<F: OpensRecords>(
    alloc: Global,
    files: F,
    member: (NodeId, Members),
    is_new: bool,
) -> Result<SchedNode<SqlRecords<F::Base>>, StartFault>
    requires { member.0 < member_count member.1 }
    ensures { IfOk result (HasStarted ⟦<SchedNode<SqlRecords<F::Base>> as Node>⟧.who ⟦<SchedNode<SqlRecords<F::Base>> as Node>⟧.honest
        ⟦<SchedNode<SqlRecords<F::Base>> as Node>⟧.stands (F.begins files (record { node = member.0; members = member.1 }))
        (member_count member.1) member.0 is_new) }
{
    let (id, members) = member;
    if is_new {
        new_over(alloc, files, id, members)
    } else {
        resumed_over(alloc, files, id, members)
    }
}

/// A node that goes on over its files. It is as one that starts over a content that is in them: one of those that the
/// node might have left there, wherever it was stopped. Where no checkpoint was made yet, one is made first: behind Ok
/// the database file holds its tables by itself, without its log.
pub fn resumed_node<D: Disk + Drop>(
    alloc: Global,
    files: Files<D>,
    id: NodeId,
    members: Members,
) -> Result<StoredNode<D>, StartFault>
    requires { id < member_count members }
    ensures id { IfOk result (λ node. (⟦<SchedNode<SqlRecords<FileStore<D>>> as Node>⟧.who node).id ≡ id) }
    ensures members { IfOk result (λ node. (⟦<SchedNode<SqlRecords<FileStore<D>>> as Node>⟧.who node).members ≡ member_count members) }
    ensures up { IfOk result (λ node. (⟦<SchedNode<SqlRecords<FileStore<D>>> as Node>⟧.who node).down ≡ false) }
    ensures resumed { IfOk result (λ node. IsTrue (⟦<SchedNode<SqlRecords<FileStore<D>>> as Node>⟧.honest node)
        → (c : Content) × IsBegunIn D.Disk files (record { node = id; members = members }) false c
        × ⟦<SchedNode<SqlRecords<FileStore<D>>> as Node>⟧.stands node (Running (started c))) }
    ensures lost { (loss : Loss) → IsLossOf (image_of D.Disk files) loss
        → IfOk result (λ node. IsTrue (⟦<SchedNode<SqlRecords<FileStore<D>>> as Node>⟧.honest node) → ⊥) }
{
    resumed_over(alloc, files, id, members)
}

/// A new node over files without tables. Behind Ok the database file holds its tables by itself, without its log.
pub fn begun_node<D: Disk + Drop>(
    alloc: Global,
    files: Files<D>,
    id: NodeId,
    members: Members,
) -> Result<StoredNode<D>, StartFault>
    requires { id < member_count members }
    ensures fresh { IfOk result (IsFreshAt ⟦<SchedNode<SqlRecords<FileStore<D>>> as Node>⟧.who ⟦<SchedNode<SqlRecords<FileStore<D>>> as Node>⟧.honest
        ⟦<SchedNode<SqlRecords<FileStore<D>>> as Node>⟧.stands (member_count members) id) }
    ensures alone { IfOk result (λ node. IsTrue (⟦<SchedNode<SqlRecords<FileStore<D>>> as Node>⟧.honest node)
        → IsAlone D.Disk (record { node = id; members = members }) no_content) }
    ensures blank { IfOk result (λ node. IsTrue (⟦<SchedNode<SqlRecords<FileStore<D>>> as Node>⟧.honest node) → IsBlankIn D.Disk files) }
    ensures lost { (loss : Loss) → IsLossOf (image_of D.Disk files) loss
        → IfOk result (λ node. IsTrue (⟦<SchedNode<SqlRecords<FileStore<D>>> as Node>⟧.honest node) → ⊥) }
{
    new_over(alloc, files, id, members)
}

/// The same over files that may not have been opened.
pub(crate) fn begun_opened<D: Disk + Drop>(
    alloc: Global,
    files: Result<Files<D>, StartFault>,
    id: NodeId,
    members: Members,
) -> Result<StoredNode<D>, StartFault>
    requires { id < member_count members }
    ensures { IfOk result (IsFreshAt ⟦<SchedNode<SqlRecords<FileStore<D>>> as Node>⟧.who ⟦<SchedNode<SqlRecords<FileStore<D>>> as Node>⟧.honest
        ⟦<SchedNode<SqlRecords<FileStore<D>>> as Node>⟧.stands (member_count members) id) }
{
    match files {
        Ok(files) => begun_node(alloc, files, id, members),
        Err(fault) => Err(fault),
    }
}
