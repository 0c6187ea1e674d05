//! Nodes over files, for whoever needn't know what they keep their records in.

ghost use Rattle.std.specs.Prelude.{◌≡◌, ◌<◌, ℕ, Bool, ⊤, true, IfOk, IsTrue, None, Option, Some};
ghost use Rattle.std.specs.Prelude.{length};
ghost use Rattle.acceptor.specs.Content.{Content};
ghost use Rattle.ballots.specs.Members.{member_count};
ghost use Rattle.seats.specs.Fresh.{AreFresh};
ghost use Rattle.node.specs.View.{started};
ghost use Rattle.node.specs.View.Standing.{Running};
ghost use Rattle.stored_nodes.specs.Alone.{IsBegunIn};
ghost use Rattle.stored_nodes.specs.Starts.{ComesOfStart, HasStarted};

use crate::fault::StoreFault;
use crate::opens::OpensRecords;
use crate::own_file::{FilesAt, files_of};
use crate::owned::started_over;
use crate::start::StartFault;
use crate::stored::{examine_all, nodes_over};
use acceptor_store::SqlRecords;
use ballots::{Members, NodeId};
use node::{Node, SchedNode};
use sqlite::{File, Files};
use sqlite_disk::Disk;
use std::alloc::Global;
use store_anew::OpensAnew;

/// What is done with the fresh nodes of a network, whatever they keep their records in.
pub trait NodesUse: Drop {
    /// What comes of it.
    type Answer;

    // What may come of so many nodes.
    ghost comes: { Self → ℕ → Self.Answer → Type 0 } = { λ _ _ _. ⊤ };

    /// Uses all nodes of the network, by number.
    fn use_nodes<N: Node + Drop>(self, nodes: Vec<N>) -> Self::Answer
        requires { AreFresh N.who N.honest N.stands nodes.items }
        ensures { comes self (length nodes.items) result };
}

/// What is done with a node that has started over its own files, whatever it keeps its records in.
pub trait NodeUse: Drop {
    /// What comes of it.
    type Answer;

    // What may come of a node of this number among so many members, which is new or goes on, and began over this
    // content. None is of a node that isn't honest.
    ghost comes: { Self → ℕ → ℕ → Bool → Option Content → Self.Answer → Type 0 } = { λ _ _ _ _ _ _. ⊤ };

    /// Uses a node, which is this member and is new or goes on.
    fn use_node<N: Node + Drop>(
        self,
        node: N,
        member: (NodeId, Members),
        is_new: bool,
    ) -> Self::Answer
        requires { HasStarted N.who N.honest N.stands (λ _ _. ⊤) (member_count member.1) member.0 is_new node }
        ensures lies { (IsTrue (N.honest node) → ⊥) → comes self member.0 (member_count member.1) is_new None result }
        ensures tells { IsTrue (N.honest node) → (c : Content) → N.stands node (Running (started c))
            → comes self member.0 (member_count member.1) is_new (Some c) result };
}

/// The nodes are used, where there are any.
fn use_nodes<S: OpensAnew, U: NodesUse>(
    nodes: Result<Vec<SchedNode<SqlRecords<S>>>, StoreFault>,
    members: Members,
    user: U,
) -> Result<U::Answer, StoreFault>
    requires fresh { IfOk nodes (λ nodes. AreFresh ⟦<SchedNode<SqlRecords<S>> as Node>⟧.who ⟦<SchedNode<SqlRecords<S>> as Node>⟧.honest
        ⟦<SchedNode<SqlRecords<S>> as Node>⟧.stands nodes.items) }
    requires count { IfOk nodes (λ nodes. length nodes.items ≡ member_count members) }
    ensures { IfOk result (U.comes user (member_count members)) }
{
    match nodes {
        Ok(nodes) => Ok(user.use_nodes(nodes)),
        Err(fault) => Err(fault),
    }
}

/// Uses the nodes of `nodes_over`.
fn use_nodes_of<F: OpensRecords, U: NodesUse>(
    alloc: Global,
    members: Members,
    files: Vec<F>,
    user: U,
) -> Result<U::Answer, StoreFault>
    ensures { IfOk result (U.comes user (member_count members)) }
{
    let nodes = nodes_over(alloc, members, files);
    use_nodes(nodes, members, user)
}

/// Uses the nodes of `stored_nodes`. Where it gives a fault, that is given, and nothing is used.
pub fn use_nodes_over<D: Disk + Drop, U: NodesUse>(
    alloc: Global,
    members: Members,
    files: Vec<Files<D>>,
    user: U,
) -> Result<U::Answer, StoreFault>
    ensures { IfOk result (U.comes user (member_count members)) }
{
    let mut files = files;
    examine_all(alloc, files.as_mut_slice())?;
    use_nodes_of(alloc, members, files, user)
}

/// Uses the node of `started_over`.
fn use_started<F: OpensRecords, U: NodeUse>(
    alloc: Global,
    files: F,
    member: (NodeId, Members),
    is_new: bool,
    user: U,
) -> Result<U::Answer, StartFault>
    requires { member.0 < member_count member.1 }
    ensures { IfOk result (ComesOfStart (U.comes user member.0 (member_count member.1) is_new)
        (F.begins files (record { node = member.0; members = member.1 })) is_new) }
{
    let (id, members) = member;
    match started_over(alloc, files, (id, members), is_new) {
        Ok(node) => Ok(user.use_node(node, (id, members), is_new)),
        Err(fault) => Err(fault),
    }
}

/// Uses the node that is new over the files, or goes on over a content that is in them: one of those that the node might
/// have left there.
fn use_node_over<D: Disk + Drop, U: NodeUse>(
    alloc: Global,
    files: Files<D>,
    member: (NodeId, Members),
    is_new: bool,
    user: U,
) -> Result<U::Answer, StartFault>
    requires { member.0 < member_count member.1 }
    ensures { IfOk result (ComesOfStart (U.comes user member.0 (member_count member.1) is_new)
        (IsBegunIn D.Disk files (record { node = member.0; members = member.1 })) is_new) }
{
    use_started(alloc, files, member, is_new, user)
}

/// Uses the node that is new over files that are, or that have no tables.
fn use_made<U: NodeUse>(
    rt: &HostRuntime,
    made: &FilesAt<'_>,
    member: (NodeId, Members),
    user: U,
) -> Result<U::Answer, StartFault>
    requires { member.0 < member_count member.1 }
    ensures { IfOk result (ComesOfStart (U.comes user member.0 (member_count member.1) true)
        (λ is_new c. (files : _) × IsBegunIn ⟦<File as Disk>⟧ files (record { node = member.0; members = member.1 }) is_new c) true) }
{
    match made.opened(rt) {
        Ok(files) => use_node_over(rt.alloc(), files, member, true, user),
        Err(fault) => Err(fault),
    }
}

/// Uses the node of `new_node_of`. Where it is refused, what wasn't there before is taken away again.
fn use_new_node<U: NodeUse>(
    rt: &HostRuntime,
    path: &str,
    member: (NodeId, Members),
    user: U,
) -> Result<U::Answer, StartFault>
    requires { member.0 < member_count member.1 }
    ensures { IfOk result (ComesOfStart (U.comes user member.0 (member_count member.1) true)
        (λ is_new c. (files : _) × IsBegunIn ⟦<File as Disk>⟧ files (record { node = member.0; members = member.1 }) is_new c) true) }
{
    let made = FilesAt::found(rt, path)?;
    let answer = use_made(rt, &made, member, user);
    if answer.is_err() {
        made.remove_made(rt);
    }
    answer
}

/// Uses the node of `new_node_of`, or of `node_of` where it isn't new. Where that gives a fault, that is given, and
/// nothing is used. A node that goes on does so over a content that is in some files, which are this node's as one of
/// these members. Those of a new one have its tables in the database file by itself.
pub fn use_node_at<U: NodeUse>(
    rt: &HostRuntime,
    path: &str,
    member: (NodeId, Members),
    is_new: bool,
    user: U,
) -> Result<U::Answer, StartFault>
    requires { member.0 < member_count member.1 }
    ensures { IfOk result (ComesOfStart (U.comes user member.0 (member_count member.1) is_new)
        (λ is_new c. (files : _) × IsBegunIn ⟦<File as Disk>⟧ files (record { node = member.0; members = member.1 }) is_new c) is_new) }
{
    if is_new {
        use_new_node(rt, path, member, user)
    } else {
        let files = files_of(rt, path)?;
        use_node_over(rt.alloc(), files, member, false, user)
    }
}
