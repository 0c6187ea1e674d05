//! Three nodes that agree on a channel and a cut, and a modem that hears of it.

ghost use Rattle.seats.specs.Fresh.{AreFresh};

use ballots::{Bytes, Letter, Members};
use minislot_time::Slot;
use modem::{Heard, WantFault};
use node::Node;
use node_worker::{Ask, Cause, Kept, Plant, Record, keep_all, step};
use seats::{Answer, OutOfMemory, new_modems, plain_nodes};
use std::alloc::Global;
use std::process::Abort;
use std::test::*;
use world_events::{Event, EventRefusal};

/// What node 0 is asked, what a node is asked to release, or which of all letters that were sent comes to its node.
#[derive(Clone, Copy)]
enum Act {
    Lead,
    Offer(&'static [u8]),
    Deliver(usize),
    Release(usize),
}

/// The record that sent letter number i of all, and the letter's number in it.
fn place_of(records: &[Record], i: usize) -> Option<(usize, usize)> {
    let mut left = i;
    for k in 0..records.len() {
        let count = records[k].entry.letters().len();
        if left < count {
            return Some((k, left));
        }
        left -= count;
    }
    None
}

/// Letter number i of all that were sent.
fn letter_at(alloc: Global, records: &[Record], i: usize) -> Option<Letter> {
    let (k, n) = place_of(records, i)?;
    let letter = records.get(k)?.entry.letters().get(n)?;
    letter.copy(alloc).ok()
}

/// The node that acts, and why.
fn cause(alloc: Global, records: &[Record], act: Act) -> Option<(usize, Cause)> {
    match act {
        Act::Lead => Some((0, Cause::Ask(Ask::Lead))),
        Act::Offer(bytes) => {
            let bytes = Bytes::new(Vec::from_slice(alloc, bytes).ok()?);
            Some((0, Cause::Ask(Ask::Offer(bytes))))
        }
        Act::Deliver(i) => {
            let letter = letter_at(alloc, records, i)?;
            Some((usize::from(letter.to.number()), Cause::Letter(letter)))
        }
        Act::Release(k) => Some((k, Cause::Ask(Ask::Release(0)))),
    }
}

/// Whether an act is done and recorded.
fn is_done<N: Node>(
    alloc: Global,
    kepts: &mut [Kept<N>],
    plant: &mut Plant<N>,
    act: Act,
) -> Option<bool> {
    let (k, cause) = cause(alloc, plant.records(), act)?;
    let kept = kepts.get_mut(k)?;
    Some(matches!(step(kept, plant, cause), Ok(Ok(()))))
}

/// A channel, and a cut of one minislot.
pub const CHANNEL: &[u8] = &[1, 1, 7, 0, 16, 2, 5, 3, 8, 0, 0, 0, 0, 0, 0, 3, 232];

pub const CUT: &[u8] = &[5, 1, 0, 1, 0, 0, 0, 0, 0, 0, 0, 0, 0, 0, 0, 0, 0, 0, 0, 0];

/// Nodes 0 and 1 agree on a channel and a cut, and release two outputs each.
static ACTS: [Act; 21] = [
    Act::Lead,
    Act::Deliver(0),
    Act::Deliver(1),
    Act::Deliver(3),
    Act::Deliver(4),
    Act::Offer(CHANNEL),
    Act::Deliver(5),
    Act::Deliver(6),
    Act::Deliver(8),
    Act::Deliver(11),
    Act::Deliver(9),
    Act::Deliver(12),
    Act::Offer(CUT),
    Act::Deliver(14),
    Act::Deliver(15),
    Act::Deliver(17),
    Act::Deliver(20),
    Act::Deliver(18),
    Act::Deliver(21),
    Act::Release(0),
    Act::Release(1),
];

/// The plant of three nodes after this, with one modem; none where an act isn't done.
fn plant_after<N: Node>(alloc: Global, nodes: Vec<N>) -> Result<Option<Plant<N>>, OutOfMemory>
    requires { AreFresh N.who N.honest N.stands nodes.items }
{
    let mut kepts = keep_all(alloc, nodes, 16)?;
    let mut plant = Plant::new(alloc, Members::Three, new_modems(alloc, &[50])?, 48)?;
    for act in &ACTS {
        if is_done(alloc, &mut kepts, &mut plant, *act) != Some(true) {
            return Ok(None);
        }
    }
    Ok(Some(plant))
}

/// What modem 0 does at a minislot.
#[derive(Clone, Copy)]
enum Asked {
    /// It hears this one of all outputs.
    Hear(usize),
    /// It comes to the minislot.
    Tick,
    /// It wants to send by SID 1.
    Want,
}

fn answer<N: Node>(plant: &mut Plant<N>, slot: Slot, asked: Asked) -> Answer {
    match asked {
        Asked::Hear(i) => plant.modem_step(&Event::Hear(0, i, slot)),
        Asked::Tick => plant.modem_step(&Event::Tick(0, 1, slot, 0)),
        Asked::Want => plant.modem_step(&Event::Want(0, 1, 1, 5)),
    }
}

/// It hears of the channel and the cut, and has nothing to send; and there are four outputs.
static ANSWERS: [(Asked, Answer); 5] = [
    (Asked::Hear(0), Answer::Heard(Heard::Taken)),
    (Asked::Hear(1), Answer::Heard(Heard::Taken)),
    (Asked::Tick, Answer::Ticked(None)),
    (Asked::Want, Answer::WantRefused(WantFault::NotMine)),
    (Asked::Hear(4), Answer::Refused(EventRefusal::NoOutput)),
];

/// A modem answers so after what two of these three nodes did.
fn hears<N: Node>(rt: &impl Abort, alloc: Global, nodes: Vec<N>) -> Result<(), Fail>
    requires { AreFresh N.who N.honest N.stands nodes.items }
{
    let mut plant = plant_after(alloc, nodes)?.ok_or("a plant")?;
    let slot = Slot::new(1000).ok_or("slot")?;
    for (asked, want) in &ANSWERS {
        assert_eq!(rt; answer(&mut plant, slot, *asked), *want);
    }
    Ok(())
}

#[test]
fn a_modem_hears_what_two_nodes_release(rt: HostRuntime) -> Result<(), Fail> {
    let nodes = plain_nodes(rt.alloc(), Members::Three)?;
    hears(&rt, rt.alloc(), nodes)
}
