//! Three nodes with a thread each, of which one leads and proposes a plan's commands.

ghost use Rattle.std.specs.Prelude.{◌≡◌, All, IfOk, length, vec_len};
ghost use Rattle.node_worker.specs.Audits.{IsCluster};
ghost use Rattle.node_worker.specs.Runs.{AreLegal};

use crate::driver::{Agenda, LiveCarrier, LiveGate};
use ballots::{Bytes, Members, NodeId};
use command_log::command_bytes;
use grant_machine::Command;
use node_worker::{Kept, Plant, run_cluster};
use seats::{OutOfMemory, PlainNode, plain_nodes};
use std::alloc::{AllocError, Global};
use std::sync::Wait;
use std::thread::Threads;
use std::time::Clock;

/// The members of `live`.
const MEMBERS: Members = Members::Three;

// The commands as values of the log.
fn values_of(alloc: Global, commands: &[Command]) -> Result<Vec<Bytes>, AllocError> {
    let mut values = Vec::with_capacity(alloc, commands.len())?;
    for command in commands {
        values.push(Bytes::new(command_bytes(alloc, command)?))?;
    }
    Ok(values)
}

// The carrier of a node of this number: node 0 leads.
fn carrier_of(
    alloc: Global,
    number: u8,
    turns: u64,
    commands: &[Command],
) -> Result<LiveCarrier, OutOfMemory>
    ensures turns { IfOk result (λ carrier. carrier.turns ≡ turns) }
    ensures given { IfOk result (λ carrier. carrier.given ≡ turns) }
{
    let Some(node) = NodeId::new(number) else {
        return Err(OutOfMemory);
    };
    if number > 0 {
        return Ok(LiveCarrier::new(alloc, node, turns, None));
    }
    let agenda = Agenda::new(node, MEMBERS, values_of(alloc, commands)?);
    Ok(LiveCarrier::new(alloc, node, turns, Some(agenda)))
}

// A carrier for each node.
fn carriers_of(
    alloc: Global,
    turns: u64,
    commands: &[Command],
) -> Result<Vec<LiveCarrier>, OutOfMemory>
    ensures count { IfOk result (λ carriers. vec_len carriers ≡ 3) }
    ensures turns { IfOk result (λ carriers. All (λ c. c.turns ≡ turns) carriers.items) }
    ensures given { IfOk result (λ carriers. All (λ c. c.given ≡ turns) carriers.items) }
{
    let mut carriers = Vec::new(alloc);
    for number in 0..MEMBERS.count() {
        carriers.push(carrier_of(alloc, number, turns, commands)?)?;
    }
    Ok(carriers)
}

/// Runs three fresh nodes with a thread and so many turns each, and gives back what `run_cluster` gives: node 0 is
/// asked to lead, to propose the commands in order once a majority follows it, and to release, and each node gets the
/// letters to it. How much of that happens isn't promised, but that each carrier was asked in each of its turns.
pub fn live_cluster<R: Threads + Wait + Clock + Sync + AllocGlobal>(
    rt: &R,
    commands: &[Command],
    turns: u32,
) -> Result<(Vec<Kept<PlainNode>>, Vec<LiveCarrier>, Plant<PlainNode>), OutOfMemory>
    ensures cluster { IfOk result (λ back. (length back.0.items ≡ 3) × IsCluster back.0.items) }
    ensures quotas { IfOk result (λ back. All (λ k. k.quota ≡ turns) back.0.items) }
    ensures carriers { IfOk result (λ back. (length back.1.items ≡ 3) × All (λ c. c.turns ≡ 0) back.1.items) }
    ensures given { IfOk result (λ back. All (λ c. c.given ≡ turns) back.1.items) }
    ensures asked { IfOk result (λ back. All (λ k. k.turns ≡ turns) back.0.items) }
    ensures legal { IfOk result (λ back. AreLegal back.2.members back.2.records back.2.modems) }
{
    let alloc = rt.alloc();
    let nodes = plain_nodes(alloc, MEMBERS)?;
    let carriers = carriers_of(alloc, u64::from(turns), commands)?;
    run_cluster(
        rt,
        alloc,
        nodes,
        Vec::new(alloc),
        turns as usize,
        carriers,
        &LiveGate,
    )
}
