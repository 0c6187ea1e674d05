//! Nodes over records that may hold something, whatever these are.

ghost use Rattle.std.specs.Prelude.{◌≡◌, ◌≢◌, ◌<◌, Err, false, IfOk, IsTrue};
ghost use Rattle.acceptor.specs.Content.{Content, no_content};
ghost use Rattle.acceptor.specs.Found.{Holds};
ghost use Rattle.ballots.specs.Members.{member_count};
ghost use Rattle.node.specs.View.{started};
ghost use Rattle.node.specs.View.Standing.{Running};
ghost use Rattle.seats.specs.Fresh.{IsFreshAt};

use crate::start::StartFault;
use acceptor::Records;
use ballots::{Members, NodeId};
use node::{Node, SchedNode};
use std::alloc::Global;

/// A node that begins over records that hold nothing.
pub(crate) fn begun_with<R: Records + Drop>(
    alloc: Global,
    id: NodeId,
    members: Members,
    records: R,
) -> Result<SchedNode<R>, StartFault>
    requires member { id < member_count members }
    requires certain { IsTrue (R.is_honest records) → ∥ ((c : Content) × Holds (R.may_find records) c) ∥₁ }
    ensures fresh { IfOk result (IsFreshAt ⟦<SchedNode<R> as Node>⟧.who ⟦<SchedNode<R> as Node>⟧.honest
        ⟦<SchedNode<R> as Node>⟧.stands (member_count members) id) }
    ensures empty { IfOk result (λ node. IsTrue (⟦<SchedNode<R> as Node>⟧.honest node) → (c : Content) → Holds (R.may_find records) c → c ≡ no_content) }
    ensures honest { IfOk result (λ node. IsTrue (⟦<SchedNode<R> as Node>⟧.honest node) → IsTrue (R.is_honest records)) }
    ensures used { result ≡ Err StartFault.NotFresh → IsTrue (R.is_honest records) → ((r : R) → IsTrue (R.is_clean r))
        → (c : Content) → Holds (R.may_find records) c → c ≢ no_content }
{
    let mut node = SchedNode::new(alloc, id, members, records);
    if node.is_fresh()? {
        Ok(node)
    } else {
        Err(StartFault::NotFresh)
    }
}

/// A node that goes on over its records.
pub(crate) fn resumed_with<R: Records + Drop>(
    alloc: Global,
    id: NodeId,
    members: Members,
    records: R,
) -> Result<SchedNode<R>, StartFault>
    requires member { id < member_count members }
    requires certain { IsTrue (R.is_honest records) → ∥ ((c : Content) × Holds (R.may_find records) c) ∥₁ }
    ensures id { IfOk result (λ node. (⟦<SchedNode<R> as Node>⟧.who node).id ≡ id) }
    ensures members { IfOk result (λ node. (⟦<SchedNode<R> as Node>⟧.who node).members ≡ member_count members) }
    ensures up { IfOk result (λ node. (⟦<SchedNode<R> as Node>⟧.who node).down ≡ false) }
    ensures resumed { IfOk result (λ node. IsTrue (⟦<SchedNode<R> as Node>⟧.honest node) → IsTrue (R.is_honest records)
        × ((c : Content) → Holds (R.may_find records) c → ⟦<SchedNode<R> as Node>⟧.stands node (Running (started c)))) }
{
    let mut node = SchedNode::new(alloc, id, members, records);
    node.restart()?;
    Ok(node)
}
