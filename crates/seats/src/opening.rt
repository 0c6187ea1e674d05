//! The nodes and the modems that a world opens with.

ghost use Rattle.std.specs.Prelude.{◌≡◌, ◌<◌, ℕ, Ok, IfOk, length, map};
ghost use Rattle.ballots.specs.Members.{member_count};
ghost use Rattle.seats.specs.Fresh.{AreFresh, IsFreshAt};
ghost use Rattle.seats.specs.Receiving.{AreNew};

use acceptor::PlainRecords;
use ballots::{Members, NodeId};
use modem::Modem;
use node::{Node, SchedNode};
use std::alloc::{AllocError, Global};

/// A node whose records are lost with the process.
pub type PlainNode = SchedNode<PlainRecords>;

/// The nodes of so many members, by number, as `make` gives them for one number after another. The first fault ends it:
/// one that `make` gives, or want of memory for the list.
pub fn nodes_by_number<N: Node, E: From<AllocError>, F: FnMut(NodeId, Members) -> Result<N, E>>(
    alloc: Global,
    members: Members,
    mut make: F,
) -> Result<Vec<N>, E>
    requires callable { (state : F) (id : ℕ) → id < member_count members → F.pre state id members }
    requires fresh { (state after : F) (id : ℕ) (node : N) → id < member_count members → F.step state id members (Ok node) after
        → IsFreshAt N.who N.honest N.stands (member_count members) id node }
    ensures fresh { IfOk result (λ nodes. AreFresh N.who N.honest N.stands nodes.items) }
    ensures count { IfOk result (λ nodes. length nodes.items ≡ member_count members) }
{
    let mut nodes = Vec::new(alloc);
    for number in 0..members.count() {
        let Some(id) = NodeId::new(number) else {
            unreachable!();
        };
        let node = make(id, members)?;
        nodes.push(node).map_err(AllocError::from)?;
    }
    Ok(nodes)
}

/// A fresh node, with a member's number, as `nodes_by_number` asks for it: this one needs no room.
fn plain_node(alloc: Global, id: NodeId, members: Members) -> Result<PlainNode, AllocError>
    requires { id < member_count members }
    ensures { IfOk result (λ node. IsFreshAt ⟦<SchedNode<PlainRecords> as Node>⟧.who ⟦<SchedNode<PlainRecords> as Node>⟧.honest
        ⟦<SchedNode<PlainRecords> as Node>⟧.stands (member_count members) id node) }
{
    let records = PlainRecords::new(alloc);
    Ok(SchedNode::new(alloc, id, members, records))
}

/// The fresh nodes of so many members, by number.
pub fn plain_nodes(alloc: Global, members: Members) -> Result<Vec<PlainNode>, AllocError>
    ensures fresh { IfOk result (λ nodes. AreFresh ⟦<SchedNode<PlainRecords> as Node>⟧.who ⟦<SchedNode<PlainRecords> as Node>⟧.honest
        ⟦<SchedNode<PlainRecords> as Node>⟧.stands nodes.items) }
    ensures count { IfOk result (λ nodes. length nodes.items ≡ member_count members) }
{
    nodes_by_number(alloc, members, |id, members| plain_node(alloc, id, members))
}

/// New modems of these ids.
pub fn new_modems(alloc: Global, ids: &[u32]) -> Result<Vec<Modem>, AllocError>
    ensures new { IfOk result (λ modems. AreNew modems.items) }
    ensures ids { IfOk result (λ modems. map (λ modem. modem.id) modems.items ≡ ids.now) }
{
    let mut modems = Vec::new(alloc);
    for id in ids {
        modems.push(Modem::new(alloc, *id))?;
    }
    Ok(modems)
}
