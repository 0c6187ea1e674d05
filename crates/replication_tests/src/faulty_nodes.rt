//! Nodes over records whose calls fail.

ghost use Rattle.std.specs.Prelude.{◌≡◌, ◌<◌, IfOk, length};
ghost use Rattle.ballots.specs.Members.{member_count};
ghost use Rattle.seats.specs.Fresh.{AreFresh, IsFreshAt};

use ballots::{Members, NodeId};
use faulty_records::{FaultyRecords, Trouble};
use node::{Node, SchedNode};
use seats::nodes_by_number;
use std::alloc::{AllocError, Global};

/// A node over records whose calls fail where they are told to.
pub type FaultyNode = SchedNode<FaultyRecords>;

/// A fresh node, with a member's number, as `nodes_by_number` asks for it: this one needs no room.
fn faulty_node(
    alloc: Global,
    id: NodeId,
    members: Members,
    trouble: Trouble,
) -> Result<FaultyNode, AllocError>
    requires { id < member_count members }
    ensures { IfOk result (λ node. IsFreshAt ⟦<SchedNode<FaultyRecords> as Node>⟧.who ⟦<SchedNode<FaultyRecords> as Node>⟧.honest
        ⟦<SchedNode<FaultyRecords> as Node>⟧.stands (member_count members) id node) }
{
    let records = FaultyRecords::new(alloc, trouble);
    Ok(SchedNode::new(alloc, id, members, records))
}

/// The fresh nodes of so many members, by number. One of them has the trouble, and the others have none.
pub fn faulty_nodes(
    alloc: Global,
    members: Members,
    faulty: u8,
    trouble: Trouble,
) -> Result<Vec<FaultyNode>, AllocError>
    ensures fresh { IfOk result (λ nodes. AreFresh ⟦<SchedNode<FaultyRecords> as Node>⟧.who ⟦<SchedNode<FaultyRecords> as Node>⟧.honest
        ⟦<SchedNode<FaultyRecords> as Node>⟧.stands nodes.items) }
    ensures count { IfOk result (λ nodes. length nodes.items ≡ member_count members) }
{
    nodes_by_number(alloc, members, |id, members| {
        let given = if id.number() == faulty {
            trouble
        } else {
            Trouble::none()
        };
        faulty_node(alloc, id, members, given)
    })
}
