//! What the nodes of `live` are asked, what they learn, and what `live` logs.

ghost use Rattle.seats.specs.Fresh.{AreFresh};

use crate::schedule::{CHANNEL, CUT};
use ballots::{Bytes, Members, NodeId};
use log::sink::Memory;
use log::{Level, Log, Logged};
use node::Node;
use node_worker::{Ask, Carrier, Cause, Kept, Plant, Record, keep_all, step};
use script_text::read_plan;
use seats::{OutOfMemory, plain_nodes};
use std::alloc::{AllocError, Global};
use std::process::Abort;
use std::sync::Wait;
use std::test::*;
use std::thread::Threads;
use std::time::Clock;
use upsched_ends::{LiveWords, Status};
use upsched_live::{Agenda, LiveCarrier, live, live_cluster};

// Whether the node was asked to lead.
fn is_lead(record: &Record) -> bool {
    matches!(record.entry.cause(), Cause::Ask(Ask::Lead))
}

// Whether node 0's first record is that it was asked to lead.
fn leads_first(records: &[Record]) -> bool {
    for record in records {
        if record.node.number() == 0 {
            return is_lead(record);
        }
    }
    false
}

/// What `live_cluster` gives back: the nodes, their carriers, and the plant.
type Outcome<N, C> = Result<(Vec<Kept<N>>, Vec<C>, Plant<N>), OutOfMemory>;

// Whether node 0 was asked to lead first.
fn has_led_first<N: Node, C: Carrier>(outcome: Outcome<N, C>) -> Result<bool, OutOfMemory> {
    Ok(leads_first(outcome?.2.records()))
}

/// With one turn each, and with so many that letters come too.
#[test]
fn node_0_is_asked_to_lead_first(rt: HostRuntime) -> Result<(), Fail> {
    for turns in [1, 50] {
        let has_led = has_led_first(live_cluster(&rt, &[], turns))?;
        assert!(rt; has_led, "{turns} turns");
    }
    Ok(())
}

// A value comes last.
fn add(values: &mut Vec<Bytes>, alloc: Global, bytes: &[u8]) -> Result<(), AllocError> {
    let value = Vec::from_slice(alloc, bytes)?;
    Ok(values.push(Bytes::new(value))?)
}

// A channel and a cut, to be proposed.
fn values(alloc: Global) -> Result<Vec<Bytes>, AllocError> {
    let mut values = Vec::new(alloc);
    add(&mut values, alloc, CHANNEL)?;
    add(&mut values, alloc, CUT)?;
    Ok(values)
}

// The carrier of the node of a number: node 0 is to propose a channel and a cut.
fn carrier(alloc: Global, number: u8, turns: u64) -> Result<LiveCarrier, Fail> {
    let node = NodeId::new(number).ok_or("node")?;
    if number > 0 {
        return Ok(LiveCarrier::new(alloc, node, turns, None));
    }
    let agenda = Agenda::new(node, Members::Three, values(alloc)?);
    Ok(LiveCarrier::new(alloc, node, turns, Some(agenda)))
}

// The carriers of three nodes.
fn three_carriers(alloc: Global, turns: u64) -> Result<Vec<LiveCarrier>, Fail> {
    let mut carriers = Vec::new(alloc);
    for number in 0..3 {
        carriers.push(carrier(alloc, number, turns)?)?;
    }
    Ok(carriers)
}

// What a carrier has for its node, if a turn is left.
fn picked<C: Carrier>(carrier: &mut C, records: &[Record]) -> Result<Option<Cause>, OutOfMemory> {
    if carrier.turns() == 0 {
        return Ok(None);
    }
    carrier.pick(records)
}

// A node takes a turn, if one is left; nothing where there is no memory.
fn take_turn<N: Node, C: Carrier>(
    kept: &mut Kept<N>,
    carrier: &mut C,
    plant: &mut Plant<N>,
) -> Option<()> {
    match picked(carrier, plant.records()) {
        Ok(Some(cause)) => {
            let _ = step(kept, plant, cause);
            Some(())
        }
        Ok(None) => Some(()),
        Err(_) => None,
    }
}

// Three nodes take so many turns each in one thread; nothing where one isn't there, or no memory.
fn take_turns<N: Node, C: Carrier>(
    kepts: &mut [Kept<N>],
    carriers: &mut [C],
    plant: &mut Plant<N>,
    turns: u64,
) -> Option<()> {
    for _ in 0..turns {
        for k in 0..3 {
            take_turn(kepts.get_mut(k)?, carriers.get_mut(k)?, plant)?;
        }
    }
    Some(())
}

// Whether the node has learned a value at a place.
fn has_learned<N: Node>(kept: &Kept<N>, place: u64, value: &[u8]) -> bool {
    match kept.node().learned(place) {
        Some(learned) => learned.as_slice() == value,
        None => false,
    }
}

// How many of the nodes have learned the channel and the cut.
fn taught<N: Node>(kepts: &[Kept<N>]) -> usize {
    kepts
        .iter()
        .filter(|kept| has_learned(kept, 1, CHANNEL) && has_learned(kept, 2, CUT))
        .count()
}

// How many outputs the nodes released.
fn released(records: &[Record]) -> usize {
    let mut count = 0usize;
    for record in records {
        count = count.saturating_add(record.entry.outputs().len());
    }
    count
}

/// How many turns each node has, how many of them learn the channel and the cut, and how many outputs are released.
static ROWS: [(u64, usize, usize); 2] = [(1, 0, 0), (60, 3, 2)];

// How many of three nodes have learned the channel and the cut after so many turns each, and how
// many outputs they released.
fn learned_and_released<N: Node, C: Carrier>(
    alloc: Global,
    nodes: Vec<N>,
    mut carriers: Vec<C>,
    turns: u64,
) -> Result<(usize, usize), Fail>
    requires { AreFresh N.who N.honest N.stands nodes.items }
{
    let mut kepts = keep_all(alloc, nodes, 100)?;
    let mut plant = Plant::new(alloc, Members::Three, Vec::new(alloc), 300)?;
    take_turns(&mut kepts, &mut carriers, &mut plant, turns).ok_or("a turn")?;
    Ok((taught(kepts.as_slice()), released(plant.records())))
}

// The same of plain nodes.
fn learned_by_plain_nodes(alloc: Global, turns: u64) -> Result<(usize, usize), Fail> {
    let carriers = three_carriers(alloc, turns)?;
    let nodes = plain_nodes(alloc, Members::Three)?;
    learned_and_released(alloc, nodes, carriers, turns)
}

#[test]
fn a_channel_and_a_cut_are_learned(rt: HostRuntime) -> Result<(), Fail> {
    for (turns, nodes, outputs) in &ROWS {
        assert_eq!(rt;
            learned_by_plain_nodes(rt.alloc(), *turns)?,
            (*nodes, *outputs)
        );
    }
    Ok(())
}

/// A plan, and its commands as values at their places.
const PLAN: &str = "command = [{kind = 'drop', ch = 1, sid = 1}, {kind = 'noop'}]";

static VALUES: [(u64, &[u8]); 2] = [(1, &[3, 1, 0, 1]), (2, &[0])];

// Node 0 has learned the values.
fn leader_learned<N: Node, C: Carrier>(
    rt: &impl Abort,
    outcome: Outcome<N, C>,
) -> Result<(), Fail> {
    let (kepts, _, _) = outcome?;
    let leader = kepts.first().ok_or("node 0")?;
    for (place, value) in &VALUES {
        assert!(rt; has_learned(leader, *place, value), "place {place}");
    }
    Ok(())
}

/// With a thread each, and two seconds at least.
#[test]
fn a_plan_is_proposed(rt: HostRuntime) -> Result<(), Fail> {
    let commands = read_plan(rt.alloc(), PLAN).ok().ok_or("plan")?;
    leader_learned(&rt, live_cluster(&rt, commands.as_slice(), 2000))
}

/// How many turns each node has on an empty plan, whether `live` is to log more, and how many lines it logs.
static LOGGED: [(u32, bool, usize); 3] = [(0, false, 0), (0, true, 4), (1, true, 3)];

// How `live` on an empty plan ends.
fn status_of<R: Log, T: Threads + Wait + Clock + Sync + AllocGlobal>(
    log: &R,
    rt: &T,
    words: &LiveWords<'_>,
    output: &mut Vec<u8>,
    errors: &mut Vec<u8>,
) -> Status {
    let mut plan = "".as_bytes();
    live(log, rt, &mut plan, words, output, errors)
}

// `live` on an empty plan ends well, and prints its verdict alone.
fn prints_verdict<R: Log, T: Threads + Wait + Clock + Sync + AllocGlobal + Abort>(
    log: &R,
    rt: &T,
    words: &LiveWords<'_>,
) {
    let mut output = Vec::new(rt.alloc());
    let mut errors = Vec::new(rt.alloc());
    let status = status_of(log, rt, words, &mut output, &mut errors);
    assert_eq!(rt; status, Status::Done);
    assert_eq!(rt; output.as_slice(), b"audit yes\n".as_slice());
    assert!(rt; errors.is_empty());
}

// Whether a line says that there is nothing to audit.
fn is_told(lines: &[String]) -> bool {
    lines
        .iter()
        .any(|line| line.as_str().contains("nothing to audit"))
}

#[test]
fn nothing_to_audit_is_told(rt: HostRuntime) {
    for (turns, verbose, count) in &LOGGED {
        let logged = Logged::new(&rt, Level::Info, Memory::new(rt.alloc()));
        let words = LiveWords {
            plan: "plan.toml",
            turns: *turns,
            verbose: *verbose,
        };
        prints_verdict(&logged, &rt, &words);
        let (_, sink) = logged.into_parts();
        let lines = sink.into_lines();
        assert_eq!(rt; lines.len(), *count);
        assert_eq!(rt; is_told(lines.as_slice()), *turns == 0 && *verbose);
    }
}
