//! Five nodes with a thread each, and a modem.

ghost use Rattle.std.specs.Prelude.{◌≡◌, ◌+◌, IfOk, length};
ghost use Rattle.seats.specs.Fresh.{AreFresh};
ghost use Rattle.seats.specs.Receiving.{AreNew};

use crate::driving::{Errands, Points};
use ballots::Members;
use modem::{Modem, WantFault};
use node::Node;
use node_worker::{Ask, Carrier, Cause, Gate, Kept, Plant, Record, audit, run_cluster};
use seats::{Answer, OutOfMemory, new_modems, plain_nodes};
use std::alloc::{AllocError, Global};
use std::process::Abort;
use std::sync::Wait;
use std::test::*;
use std::thread::Threads;
use std::time::Clock;
use world_events::{Event, EventRefusal};

// The carrier of the node of a number comes last.
fn add(carriers: &mut Vec<Errands>, alloc: Global, number: u8) -> Result<(), Fail>
    ensures { IfOk result (λ _. length carriers.new.items ≡ length carriers.old.items + 1) }
{
    let carrier = Errands::new(alloc, number).ok_or("node")?;
    Ok(carriers.push(carrier)?)
}

// A carrier for each node.
fn five(alloc: Global) -> Result<Vec<Errands>, Fail>
    ensures { IfOk result (λ carriers. length carriers.items ≡ 5) }
{
    let mut carriers = Vec::new(alloc);
    add(&mut carriers, alloc, 0)?;
    add(&mut carriers, alloc, 1)?;
    add(&mut carriers, alloc, 2)?;
    add(&mut carriers, alloc, 3)?;
    add(&mut carriers, alloc, 4)?;
    Ok(carriers)
}

// A modem in a list.
fn one_modem(alloc: Global) -> Result<Vec<Modem>, AllocError>
    ensures { IfOk result (λ modems. AreNew modems.items) }
{
    new_modems(alloc, &[50])
}

// Five nodes with these carriers, and a modem.
fn run<N: Node + Send, C: Carrier + Send, G: Gate<N> + Sync, R: Threads + Wait + Clock + Sync>(
    rt: &R,
    alloc: Global,
    nodes: Vec<N>,
    carriers: Vec<C>,
    gate: &G,
) -> Result<(Vec<Kept<N>>, Vec<C>, Plant<N>), OutOfMemory>
    requires fresh { AreFresh N.who N.honest N.stands nodes.items }
    requires count { length carriers.items ≡ length nodes.items }
{
    let modems = one_modem(alloc)?;
    run_cluster(rt, alloc, nodes, modems, 3, carriers, gate)
}

// Whether it is node k of five, did one thing, and learned nothing from a letter to another.
fn is_node<N: Node>(kept: &Kept<N>, k: usize) -> bool {
    usize::from(kept.id().number()) == k
        && kept.members().count() == 5
        && kept.entries().len() == 1
        && kept.node().learned(1).is_none()
}

// Whether the nodes and their carriers came back in order.
fn are_in_order<N: Node>(kepts: &[Kept<N>], carriers: &[Errands]) -> bool {
    for k in 0..kepts.len() {
        if !is_node(&kepts[k], k) {
            return false;
        }
    }
    for k in 0..carriers.len() {
        if !carriers[k].is_done(k) {
            return false;
        }
    }
    kepts.len() == 5 && carriers.len() == 5
}

// Whether the node was offered its own number.
fn is_own(record: &Record) -> bool {
    match record.entry.cause() {
        Cause::Ask(Ask::Offer(value)) => {
            value.as_slice().first().copied() == Some(record.node.number())
        }
        _ => false,
    }
}

// A modem that wants to send, and why it may not.
static REFUSED: [(usize, Answer); 2] = [
    (0, Answer::WantRefused(WantFault::NotMine)),
    (1, Answer::Refused(EventRefusal::NoModem)),
];

// The plant refuses so.
fn are_refused<N: Node>(rt: &impl Abort, plant: &mut Plant<N>) {
    for (modem, want) in &REFUSED {
        assert_eq!(rt; plant.modem_step(&Event::Want(*modem, 1, 1, 5)), *want);
    }
}

// What comes back of five nodes and a modem.
fn five_come_back<N: Node + Send, R: Threads + Wait + Clock + Sync + Abort>(
    rt: &R,
    alloc: Global,
    nodes: Vec<N>,
) -> Result<(), Fail>
    requires fresh { AreFresh N.who N.honest N.stands nodes.items }
    requires count { length nodes.items ≡ 5 }
{
    let points = Points::new();
    let (kepts, carriers, mut plant) = run(rt, alloc, nodes, five(alloc)?, &points)?;
    assert!(rt; are_in_order(kepts.as_slice(), carriers.as_slice()));
    assert_eq!(rt; points.passed(), [5, 5, 5]);
    assert!(rt; plant.records().iter().all(is_own));
    assert_eq!(rt; audit(kepts.as_slice(), plant.records()), Ok(()));
    are_refused(rt, &mut plant);
    Ok(())
}

#[test]
fn five_nodes_and_a_modem(rt: HostRuntime) -> Result<(), Fail> {
    let nodes = plain_nodes(rt.alloc(), Members::Five)?;
    five_come_back(&rt, rt.alloc(), nodes)
}
