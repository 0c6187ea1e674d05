//! A worker for each node, in a thread of its own.

ghost use Rattle.std.specs.Prelude.{◌≡◌, ◌<◌, ◌+◌, ◌^◌, All, IfOk, IsTrue, map};
ghost use Rattle.node_worker.specs.KeptView.{AreTrusted, made_as};

use crate::carrier::{Carrier, Gate, Point};
use crate::entry::Cause;
use crate::kept::Kept;
use crate::plant::Plant;
use ballots::NodeId;
use node::Node;
use seats::OutOfMemory;
use std::alloc::Global;
use std::snapshot::Snapshot;
use std::sync::{Mutex, Wait};
use std::thread;
use std::thread::{Promise, Threads};
use std::time::Clock;

// What a worker gives back: the node and the carrier that it was given, the carrier with no turn left, which was asked
// in as many turns as it came with.
#[derive(Drop)]
struct Returned<N: Node, C: Carrier> {
    kept: Snapshot<Kept<N>>,
    carrier: Snapshot<C>,
}

impl<N: Node, C: Carrier> Promise<(Kept<N>, C)> for Returned<N, C> {
    ghost kept_by = { λ p back. (made_as back.0 ≡ made_as p.kept.value) × (AreTrusted N.honest → IsTrue back.0.honest)
        × (C.left back.1 ≡ 0) × (C.given back.1 ≡ C.given p.carrier.value) × (back.0.turns ≡ C.left p.carrier.value) };
}

// Whether the cause may be worked at the node: a letter to another is passed over.
fn is_for(cause: &Cause, node: NodeId) -> bool {
    match cause {
        Cause::Letter(letter) => letter.to == node,
        Cause::Ask(_) => true,
    }
}

// One turn: a cause is picked under the plant's lock, worked without it, and recorded under it.
fn turn<N: Node, C: Carrier, G: Gate<N>, R: Wait + Clock>(
    rt: &R,
    kept: &mut Kept<N>,
    carrier: &mut C,
    plant: &Mutex<Plant<N>>,
    gate: &G,
)
    requires left { 0 < C.left carrier.old }
    requires turns { kept.old.turns + C.left carrier.old < 2 ^ 64 }
    ensures left { C.left carrier.new + 1 ≡ C.left carrier.old }
    ensures given { C.given carrier.new ≡ C.given carrier.old }
    ensures turns { kept.new.turns ≡ kept.old.turns + 1 }
    ensures same { made_as kept.new ≡ made_as kept.old }
    ensures trusted { AreTrusted N.honest → IsTrue kept.old.honest → IsTrue kept.new.honest }
{
    let node = kept.id();
    kept.count_turn();
    let picked = carrier.pick(plant.lock(rt).records());
    let Ok(Some(cause)) = picked else {
        gate.pass(rt, node, Point::Idle, plant);
        return;
    };
    if !is_for(&cause, node) {
        return;
    }
    let Ok(done) = kept.work(cause) else {
        return;
    };
    gate.pass(rt, node, Point::Worked, plant);
    let _ = plant.lock(rt).record(kept, done);
    gate.pass(rt, node, Point::Recorded, plant);
}

// Works until the carrier has no turn left, counts its turns at the node, and gives both back.
fn work_through<N: Node, C: Carrier, G: Gate<N>, R: Wait + Clock>(
    rt: &R,
    mut kept: Kept<N>,
    mut carrier: C,
    plant: &Mutex<Plant<N>>,
    gate: &G,
) -> (Kept<N>, C)
    ensures same { made_as result.0 ≡ made_as kept }
    ensures trusted { AreTrusted N.honest → IsTrue kept.honest → IsTrue result.0.honest }
    ensures left { C.left result.1 ≡ 0 }
    ensures given { C.given result.1 ≡ C.given carrier }
    ensures turns { result.0.turns ≡ C.left carrier }
{
    let turns = carrier.turns();
    kept.begin_turns();
    while carrier.turns() > 0 {
        turn(rt, &mut kept, &mut carrier, plant, gate);
    }
    (kept, carrier)
}

/// Runs a worker for each node, each in a scoped thread of its own, and gives all back once they have ended. It
/// refuses where there is no memory, or no thread to be had.
pub fn work_in_threads<
    N: Node + Send,
    C: Carrier + Send,
    G: Gate<N> + Sync,
    R: Threads + Wait + Clock + Sync,
>(
    rt: &R,
    alloc: Global,
    pairs: Vec<(Kept<N>, C)>,
    plant: &Mutex<Plant<N>>,
    gate: &G,
) -> Result<(Vec<Kept<N>>, Vec<C>), OutOfMemory>
    requires trusted { AreTrusted N.honest → All (λ p. IsTrue p.0.honest) pairs.items }
    ensures same { IfOk result (λ back. map made_as back.0.items ≡ map (λ p. made_as p.0) pairs.items) }
    ensures trusted { IfOk result (λ back. AreTrusted N.honest → All (λ k. IsTrue k.honest) back.0.items) }
    ensures left { IfOk result (λ back. All (λ c. C.left c ≡ 0) back.1.items) }
    ensures given { IfOk result (λ back. map C.given back.1.items ≡ map (λ p. C.given p.1) pairs.items) }
    ensures turns { IfOk result (λ back. map (λ k. k.turns) back.0.items ≡ map (λ p. C.left p.1) pairs.items) }
{
    thread::scope(
        thread::scope_env(),
        rt,
        |scope| -> Result<(Vec<Kept<N>>, Vec<C>), OutOfMemory>
            requires { AreTrusted N.honest → All (λ p. IsTrue p.0.honest) pairs.items }
            ensures same { IfOk result (λ back. map made_as back.0.items ≡ map (λ p. made_as p.0) pairs.items) }
            ensures trusted { IfOk result (λ back. AreTrusted N.honest → All (λ k. IsTrue k.honest) back.0.items) }
            ensures left { IfOk result (λ back. All (λ c. C.left c ≡ 0) back.1.items) }
            ensures given { IfOk result (λ back. map C.given back.1.items ≡ map (λ p. C.given p.1) pairs.items) }
            ensures turns { IfOk result (λ back. map (λ k. k.turns) back.0.items ≡ map (λ p. C.left p.1) pairs.items) }
        {
            let mut kepts = Vec::with_capacity(alloc, pairs.len())?;
            let mut carriers = Vec::with_capacity(alloc, pairs.len())?;
            let mut handles = Vec::with_capacity(alloc, pairs.len())?;
            for (kept, carrier) in pairs {
                let promise = Returned {
                    kept: Snapshot::of(&kept),
                    carrier: Snapshot::of(&carrier),
                };
                let Ok(handle) = scope.spawn_with(
                    promise,
                    move || -> (Kept<N>, C)
                        requires { AreTrusted N.honest → IsTrue kept.honest }
                        ensures { (made_as result.0 ≡ made_as kept) × (AreTrusted N.honest → IsTrue result.0.honest)
                            × (C.left result.1 ≡ 0) × (C.given result.1 ≡ C.given carrier) × (result.0.turns ≡ C.left carrier) }
                    { work_through(rt, kept, carrier, plant, gate) },
                ) else {
                    return Err(OutOfMemory);
                };
                handles.push(handle)?;
            }
            for handle in handles {
                let (kept, carrier) = handle.join(rt);
                kepts.push(kept)?;
                carriers.push(carrier)?;
            }
            Ok((kepts, carriers))
        },
    )
}
