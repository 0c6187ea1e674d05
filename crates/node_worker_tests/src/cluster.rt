//! Three nodes with a thread each.

ghost use Rattle.std.specs.Prelude.{◌≡◌, IfOk, length};
ghost use Rattle.seats.specs.Fresh.{AreFresh};

use crate::driving::{Leads, Meeting, Open};
use ballots::Members;
use node::Node;
use node_worker::{Ended, Gate, Kept, Plant, Record, Torn, audit, run_cluster};
use seats::{OutOfMemory, plain_nodes};
use std::alloc::Global;
use std::process::Abort;
use std::sync::Wait;
use std::test::*;
use std::thread::Threads;
use std::time::Clock;

type Outcome<N> = (Vec<Kept<N>>, Vec<Leads>, Plant<N>);

// The carriers in a list.
fn listed(alloc: Global, carriers: [Leads; 3]) -> Result<Vec<Leads>, OutOfMemory>
    ensures { IfOk result (λ list. length list.items ≡ 3) }
{
    let [first, second, third] = carriers;
    let mut list = Vec::new(alloc);
    list.push(first)?;
    list.push(second)?;
    list.push(third)?;
    Ok(list)
}

// Three nodes with these carriers.
fn run<N: Node + Send, G: Gate<N> + Sync, R: Threads + Wait + Clock + Sync>(
    rt: &R,
    alloc: Global,
    nodes: Vec<N>,
    carriers: [Leads; 3],
    gate: &G,
) -> Result<Outcome<N>, OutOfMemory>
    requires fresh { AreFresh N.who N.honest N.stands nodes.items }
    requires count { length nodes.items ≡ 3 }
{
    let carriers = listed(alloc, carriers)?;
    run_cluster(rt, alloc, nodes, Vec::new(alloc), 3, carriers, gate)
}

// Whether it is a whole call that sent three letters.
fn is_whole_lead(record: &Record) -> bool {
    record.entry.ended == Ended::Whole && record.entry.letters().len() == 3
}

// Whether there are so many records, each of a whole call to lead, and no turn is left.
fn are_whole_leads<N: Node>(outcome: &Outcome<N>, count: usize) -> bool {
    let records = outcome.2.records();
    records.len() == count
        && records.iter().all(is_whole_lead)
        && outcome.1.iter().all(Leads::is_done)
}

// What an audit says of all records but the last so many.
fn audit_without<N: Node>(outcome: &Outcome<N>, dropped: usize) -> Result<(), Torn> {
    let records = outcome.2.records();
    let count = records.len().saturating_sub(dropped);
    audit(outcome.0.as_slice(), &records[..count])
}

// Nodes 0 and 1, held for each other.
fn meet<N: Node + Send, R: Threads + Wait + Clock + Sync>(
    rt: &R,
    alloc: Global,
    nodes: Vec<N>,
    first: Leads,
    second: Leads,
) -> Result<(Outcome<N>, bool), OutOfMemory>
    requires fresh { AreFresh N.who N.honest N.stands nodes.items }
    requires count { length nodes.items ≡ 3 }
{
    let meeting = Meeting::new();
    let outcome = run(rt, alloc, nodes, [first, second, Leads::new(0)], &meeting)?;
    Ok((outcome, meeting.gave_up()))
}

// Both of two nodes lead, each held until the other has gone on.
fn two_are_held<N: Node + Send, R: Threads + Wait + Clock + Sync + Abort>(
    rt: &R,
    alloc: Global,
    nodes: Vec<N>,
) -> Result<(), Fail>
    requires fresh { AreFresh N.who N.honest N.stands nodes.items }
    requires count { length nodes.items ≡ 3 }
{
    let (outcome, gave_up) = meet(rt, alloc, nodes, Leads::new(1), Leads::new(1))?;
    assert!(rt; !gave_up);
    assert!(rt; are_whole_leads(&outcome, 2));
    assert_eq!(rt; audit_without(&outcome, 0), Ok(()));
    assert_eq!(rt; audit_without(&outcome, 1), Err(Torn(1)));
    Ok(())
}

#[test]
fn two_workers_are_held_for_each_other(rt: HostRuntime) -> Result<(), Fail> {
    let nodes = plain_nodes(rt.alloc(), Members::Three)?;
    two_are_held(&rt, rt.alloc(), nodes)
}

// Node 0 is held for node 1, which is asked nothing.
fn one_is_held<N: Node + Send, R: Threads + Wait + Clock + Sync + Abort>(
    rt: &R,
    alloc: Global,
    nodes: Vec<N>,
)
    requires fresh { AreFresh N.who N.honest N.stands nodes.items }
    requires count { length nodes.items ≡ 3 }
{
    if let Ok((_, gave_up)) = meet(rt, alloc, nodes, Leads::new(1), Leads::silent(1)) {
        assert!(rt; !gave_up);
    }
}

#[test]
#[should_panic]
fn a_worker_that_is_held_alone_is_told(rt: HostRuntime) {
    if let Ok(nodes) = plain_nodes(rt.alloc(), Members::Three) {
        one_is_held(&rt, rt.alloc(), nodes);
    }
}

// Each of three nodes leads three times, and is held by nobody.
fn three_lead<N: Node + Send, R: Threads + Wait + Clock + Sync + Abort>(
    rt: &R,
    alloc: Global,
    nodes: Vec<N>,
) -> Result<(), Fail>
    requires fresh { AreFresh N.who N.honest N.stands nodes.items }
    requires count { length nodes.items ≡ 3 }
{
    let carriers = [Leads::new(3), Leads::new(3), Leads::new(3)];
    let outcome = run(rt, alloc, nodes, carriers, &Open)?;
    assert!(rt; are_whole_leads(&outcome, 9));
    assert_eq!(rt; audit_without(&outcome, 0), Ok(()));
    Ok(())
}

#[test]
fn three_workers_lead_three_times(rt: HostRuntime) -> Result<(), Fail> {
    let nodes = plain_nodes(rt.alloc(), Members::Three)?;
    three_lead(&rt, rt.alloc(), nodes)
}
