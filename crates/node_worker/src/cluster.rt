//! Nodes that work side by side, and the plant that orders what they did.

ghost use Rattle.std.specs.Prelude.{◌≡◌, All, IfOk, IsTrue, length, map};
ghost use Rattle.std.specs.List.{range_with_len};
ghost use Rattle.ballots.specs.Members.{member_count};
ghost use Rattle.seats.specs.Fresh.{AreFresh};
ghost use Rattle.seats.specs.Receiving.{AreNew};
ghost use Rattle.node_worker.specs.Audits.{IsCluster};
ghost use Rattle.node_worker.specs.KeptView.{AreTrusted, made_as, member_of};
ghost use Rattle.node_worker.specs.Runs.{AreLegal};

use crate::carrier::{Carrier, Gate};
use crate::kept::{Kept, keep_all};
use crate::plant::Plant;
use crate::worker::work_in_threads;
use ballots::Members;
use modem::Modem;
use node::Node;
use seats::OutOfMemory;
use std::alloc::{AllocError, Global};
use std::sync::{Mutex, Wait};
use std::thread::Threads;
use std::time::Clock;

// Each node with its carrier.
fn paired<N: Node, C: Carrier>(
    alloc: Global,
    kepts: Vec<Kept<N>>,
    carriers: Vec<C>,
) -> Result<Vec<(Kept<N>, C)>, AllocError>
    requires one_each { length carriers.items ≡ length kepts.items }
    requires trusted { AreTrusted N.honest → All (λ k. IsTrue k.honest) kepts.items }
    ensures same { IfOk result (λ pairs. map (λ p. made_as p.0) pairs.items ≡ map made_as kepts.items) }
    ensures given { IfOk result (λ pairs. map (λ p. C.given p.1) pairs.items ≡ map C.given carriers.items) }
    ensures left { IfOk result (λ pairs. map (λ p. C.left p.1) pairs.items ≡ map C.left carriers.items) }
    ensures trusted { IfOk result (λ pairs. AreTrusted N.honest → All (λ p. IsTrue p.0.honest) pairs.items) }
{
    let mut pairs = Vec::with_capacity(alloc, kepts.len())?;
    let mut rest = carriers.into_iter();
    for kept in kepts {
        if let Some(carrier) = rest.next() {
            pairs.push((kept, carrier))?;
        }
    }
    Ok(pairs)
}

// The members of which nodes are that know of as many as they are.
fn members_of<N: Node>(nodes: &[N]) -> Members
    requires { AreFresh N.who N.honest N.stands nodes.now }
    ensures { All (λ n. (N.who n).members ≡ member_count result) nodes.now }
{
    match nodes.first() {
        Some(node) => node.members(),
        None => Members::Three,
    }
}

/// Runs a worker for each node, each in a thread of its own with the carrier of its number, and gives all back once
/// they have ended. A node may do `quota` things. It refuses where there is no memory, or no thread to be had.
///
/// The plant that it gives back is the one that it made, as far as can be seen: a gate, which is lent the lock, may have
/// put another one there. One of other members, or of another number of modems, is refused.
///
/// A cause that a node has no room or memory for, and what may not be recorded, is thrown away, and so is a letter that
/// isn't to the node. Nothing is said of which cause comes first, nor that a worker ends.
pub fn run_cluster<
    N: Node + Send,
    C: Carrier + Send,
    G: Gate<N> + Sync,
    R: Threads + Wait + Clock + Sync,
>(
    rt: &R,
    alloc: Global,
    nodes: Vec<N>,
    modems: Vec<Modem>,
    quota: usize,
    carriers: Vec<C>,
    gate: &G,
) -> Result<(Vec<Kept<N>>, Vec<C>, Plant<N>), OutOfMemory>
    requires nodes { AreFresh N.who N.honest N.stands nodes.items }
    requires modems { AreNew modems.items }
    requires one_each { length carriers.items ≡ length nodes.items }
    ensures members { IfOk result (λ back. map member_of back.0.items ≡ map (λ k. (k, length nodes.items)) (range_with_len 0 (length nodes.items))) }
    ensures quotas { IfOk result (λ back. All (λ k. k.quota ≡ quota) back.0.items) }
    ensures cluster { IfOk result (λ back. AreTrusted N.honest → IsCluster back.0.items) }
    ensures carriers { IfOk result (λ back. (length back.1.items ≡ length nodes.items) × All (λ c. C.left c ≡ 0) back.1.items) }
    ensures given { IfOk result (λ back. map C.given back.1.items ≡ map C.given carriers.items) }
    ensures turns { IfOk result (λ back. map (λ k. k.turns) back.0.items ≡ map C.left carriers.items) }
    ensures legal { IfOk result (λ back. AreTrusted N.honest → AreLegal back.2.members back.2.records back.2.modems) }
    ensures known { IfOk result (λ back. All (λ n. (N.who n).members ≡ back.2.members) nodes.items) }
    ensures modems { IfOk result (λ back. length back.2.modems ≡ length modems.items) }
{
    let members = members_of(nodes.as_slice());
    let count = modems.len();
    let Some(room) = quota.checked_mul(nodes.len()) else {
        return Err(OutOfMemory);
    };
    let plant = Mutex::new(Plant::new(alloc, members, modems, room)?);
    let kepts = keep_all(alloc, nodes, quota)?;
    let pairs = paired(alloc, kepts, carriers)?;
    let (kepts, carriers) = work_in_threads(rt, alloc, pairs, &plant, gate)?;
    let plant = plant.into_inner();
    // The records aren't wanted here: this call tells that they and the modems are legal (`legal`), which `into_inner`
    // doesn't.
    let _ = plant.records();
    if !plant.is_of(members, count) {
        return Err(OutOfMemory);
    }
    Ok((kepts, carriers, plant))
}
