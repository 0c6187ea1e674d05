//! Nodes that keep their records in files.

ghost use Rattle.std.specs.Prelude.{◌≡◌, ◌<◌, IfOk, length};
ghost use Rattle.ballots.specs.Members.{member_count};
ghost use Rattle.seats.specs.Fresh.{AreFresh, IsFreshAt};
ghost use Rattle.stored_nodes.specs.States.{StayFiles};

use crate::copies::{begins_by_copy, begins_by_rest};
use crate::fault::StoreFault;
use crate::opens::OpensRecords;
use crate::owned::{Claim, begun_over};
use crate::start::StartFault;
use acceptor_store::SqlRecords;
use ballots::{Members, NodeId};
use node::{Node, SchedNode};
use sqlite::{FileStore, Files};
use sqlite_disk::Disk;
use std::alloc::Global;

/// A node whose records stand in two files.
pub type StoredNode<D> = SchedNode<SqlRecords<FileStore<D>>>;

/// A node with a member's number over files whose records are those of a fresh one, or of none.
fn stored_node<F: OpensRecords>(
    alloc: Global,
    number: u8,
    members: Members,
    files: F,
) -> Result<SchedNode<SqlRecords<F::Base>>, StoreFault>
    requires { number < member_count members }
    ensures { IfOk result (IsFreshAt ⟦<SchedNode<SqlRecords<F::Base>> as Node>⟧.who ⟦<SchedNode<SqlRecords<F::Base>> as Node>⟧.honest
        ⟦<SchedNode<SqlRecords<F::Base>> as Node>⟧.stands (member_count members) number) }
{
    let Some(id) = NodeId::new(number) else {
        unreachable!();
    };
    Ok(begun_over(alloc, files, id, members, Claim::Nobodys)?)
}

/// What is told of files that lost something: what is left of them isn't fresh, or they can't be used.
fn told_rest<D: Disk>(alloc: Global, files: &mut Files<D>, id: NodeId) -> StoreFault
    requires { id < member_count Members.Three }
    ensures { StayFiles D.Disk files.old files.new }
{
    match begins_by_rest(alloc, files, id, Members::Three) {
        Ok(()) => StoreFault::Unusable,
        Err(fault) => StoreFault::from(fault),
    }
}

/// Refuses files that a fresh node can't start over. It opens a copy of them in memory, so nothing is written to them.
pub(crate) fn examine<D: Disk>(alloc: Global, files: &mut Files<D>) -> Result<(), StoreFault>
    ensures { StayFiles D.Disk files.old files.new }
{
    let Some(id) = NodeId::new(0) else {
        unreachable!();
    };
    match begins_by_copy(alloc, files, id, Members::Three, Claim::Nobodys) {
        Ok(()) => Ok(()),
        Err(StartFault::Lost(_)) => Err(told_rest(alloc, files, id)),
        Err(fault) => Err(StoreFault::from(fault)),
    }
}

pub(crate) fn examine_all<D: Disk>(
    alloc: Global,
    files: &mut [Files<D>],
) -> Result<(), StoreFault> {
    for pair in files {
        examine(alloc, pair)?;
    }
    Ok(())
}

/// The nodes of so many members, by number, each over its files.
pub(crate) fn nodes_over<F: OpensRecords>(
    alloc: Global,
    members: Members,
    files: Vec<F>,
) -> Result<Vec<SchedNode<SqlRecords<F::Base>>>, StoreFault>
    ensures fresh { IfOk result (λ nodes. AreFresh ⟦<SchedNode<SqlRecords<F::Base>> as Node>⟧.who ⟦<SchedNode<SqlRecords<F::Base>> as Node>⟧.honest
        ⟦<SchedNode<SqlRecords<F::Base>> as Node>⟧.stands nodes.items) }
    ensures count { IfOk result (λ nodes. length nodes.items ≡ member_count members) }
{
    let mut left = files.into_iter();
    let mut nodes = Vec::new(alloc);
    for number in 0..members.count() {
        let Some(pair) = left.next() else {
            return Err(StoreFault::Unusable);
        };
        let node = stored_node(alloc, number, members, pair)?;
        let Ok(()) = nodes.push(node) else {
            return Err(StoreFault::OutOfMemory);
        };
    }
    Ok(nodes)
}

/// The fresh nodes of so many members, by number, each over its files. Files that hold anything else
/// than a fresh node's records, or nothing, are refused before any of them is written to.
pub fn stored_nodes<D: Disk + Drop>(
    alloc: Global,
    members: Members,
    files: Vec<Files<D>>,
) -> Result<Vec<StoredNode<D>>, StoreFault>
    ensures fresh { IfOk result (λ nodes. AreFresh ⟦<SchedNode<SqlRecords<FileStore<D>>> as Node>⟧.who ⟦<SchedNode<SqlRecords<FileStore<D>>> as Node>⟧.honest
        ⟦<SchedNode<SqlRecords<FileStore<D>>> as Node>⟧.stands nodes.items) }
    ensures count { IfOk result (λ nodes. length nodes.items ≡ member_count members) }
{
    let mut files = files;
    examine_all(alloc, files.as_mut_slice())?;
    nodes_over(alloc, members, files)
}
