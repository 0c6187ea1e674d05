//! What may be recorded, and what an audit says of it.

ghost use Rattle.seats.specs.Fresh.{AreFresh};

use ballots::{Bytes, Members};
use node::Node;
use node_worker::{Ask, Cause, Done, Kept, Plant, Torn, WorkFault, audit, keep_all};
use seats::{OutOfMemory, plain_nodes};
use std::alloc::Global;
use std::test::*;

/// What is done with three nodes of three, and with further ones, numbered behind them.
#[derive(Clone, Copy)]
enum Act {
    /// The node is asked to lead.
    Lead(usize),
    /// It is asked to propose no bytes.
    Offer(usize),
    /// It gets a letter of what was done before: the number of that, and the number of the letter.
    Letter(usize, usize, usize),
    /// It has done as much as it may.
    Full(usize),
    /// What it did, by the number of that, is recorded, or given back.
    Record(usize, usize, bool),
    /// An audit of what isn't recorded says this; it is audited backwards where that is said.
    Audit(bool, Result<(), Torn>),
}

/// Three nodes and further ones, with nothing done, that may each do so many things.
fn kept_nodes<N: Node>(
    alloc: Global,
    nodes: Vec<N>,
    others: Vec<N>,
    quota: usize,
) -> Result<Vec<Kept<N>>, OutOfMemory>
    requires nodes { AreFresh N.who N.honest N.stands nodes.items }
    requires others { AreFresh N.who N.honest N.stands others.items }
{
    let mut kepts = keep_all(alloc, nodes, quota)?;
    let mut more = keep_all(alloc, others, quota)?;
    kepts.append(&mut more)?;
    Ok(kepts)
}

/// The letter of what was done, as a cause.
fn letter(alloc: Global, dones: &[Option<Done>], n: usize, i: usize) -> Option<Cause> {
    let done = dones.get(n)?.as_ref()?;
    let letter = done.entry.letters().get(i)?;
    Some(Cause::Letter(letter.copy(alloc).ok()?))
}

/// What was done comes last. Whether it was done; nothing where there is no memory to tell of it.
fn noted(dones: &mut Vec<Option<Done>>, done: Option<Done>) -> Option<bool> {
    let is_done = done.is_some();
    dones.push(done).ok()?;
    Some(is_done)
}

/// Whether a node does one thing.
fn works<N: Node>(kept: &mut Kept<N>, dones: &mut Vec<Option<Done>>, cause: Cause) -> Option<bool> {
    noted(dones, kept.work(cause).ok())
}

/// Whether a node has done as much as it may.
fn is_full<N: Node>(kept: &mut Kept<N>) -> bool {
    kept.work(Cause::Ask(Ask::Lead)).err() == Some(WorkFault::Full)
}

/// Whether what was done is taken as the node's; else it is there again.
fn is_recorded<N: Node>(
    plant: &mut Plant<N>,
    kept: &Kept<N>,
    place: &mut Option<Done>,
) -> Option<bool> {
    match plant.record(kept, place.take()?) {
        Ok(()) => Some(true),
        Err(back) => {
            *place = Some(back);
            Some(false)
        }
    }
}

/// What was done and isn't recorded.
fn taken(alloc: Global, dones: &mut [Option<Done>]) -> Option<Vec<Done>> {
    let mut records = Vec::new(alloc);
    for done in dones {
        if let Some(done) = done.take() {
            records.push(done).ok()?;
        }
    }
    Some(records)
}

/// What an audit of the first three nodes says.
fn audited<N: Node>(
    kepts: &[Kept<N>],
    mut records: Vec<Done>,
    is_backwards: bool,
) -> Option<Result<(), Torn>> {
    if is_backwards {
        records.reverse();
    }
    Some(audit(kepts.get(..3)?, records.as_slice()))
}

/// Whether an act ends as it says; nothing where there is no such node or letter, or no memory.
fn is_right<N: Node>(
    alloc: Global,
    kepts: &mut [Kept<N>],
    dones: &mut Vec<Option<Done>>,
    plant: &mut Plant<N>,
    act: Act,
) -> Option<bool> {
    match act {
        Act::Lead(k) => works(kepts.get_mut(k)?, dones, Cause::Ask(Ask::Lead)),
        Act::Offer(k) => {
            let cause = Cause::Ask(Ask::Offer(Bytes::new(Vec::new(alloc))));
            works(kepts.get_mut(k)?, dones, cause)
        }
        Act::Letter(k, n, i) => {
            let cause = letter(alloc, dones.as_slice(), n, i)?;
            works(kepts.get_mut(k)?, dones, cause)
        }
        Act::Full(k) => Some(is_full(kepts.get_mut(k)?)),
        Act::Record(k, n, want) => {
            Some(is_recorded(plant, kepts.get(k)?, dones.get_mut(n)?)? == want)
        }
        Act::Audit(is_backwards, want) => {
            let records = taken(alloc, dones)?;
            Some(audited(kepts, records, is_backwards)? == want)
        }
    }
}

/// How many acts of these nodes end as they say, up to the first that doesn't.
fn right<N: Node>(
    alloc: Global,
    nodes: Vec<N>,
    others: Vec<N>,
    quota: usize,
    acts: &[Act],
) -> Result<usize, OutOfMemory>
    requires nodes { AreFresh N.who N.honest N.stands nodes.items }
    requires others { AreFresh N.who N.honest N.stands others.items }
{
    let mut kepts = kept_nodes(alloc, nodes, others, quota)?;
    let mut plant = Plant::new(alloc, Members::Three, Vec::new(alloc), 6)?;
    let mut dones = Vec::new(alloc);
    let mut count: usize = 0;
    for act in acts {
        if is_right(alloc, &mut kepts, &mut dones, &mut plant, *act) != Some(true) {
            return Ok(count);
        }
        count = count.saturating_add(1);
    }
    Ok(count)
}

/// The same, of three nodes and of as many further ones as these members are.
fn plainly_right(
    alloc: Global,
    others: Members,
    quota: usize,
    acts: &[Act],
) -> Result<usize, OutOfMemory> {
    let nodes = plain_nodes(alloc, Members::Three)?;
    let others = plain_nodes(alloc, others)?;
    right(alloc, nodes, others, quota, acts)
}

/// The further nodes, how much each node may do, and what is done.
static ROWS: [(Members, usize, &[Act]); 8] = [
    // a letter is recorded after it was sent
    (
        Members::Three,
        2,
        &[
            Act::Lead(0),
            Act::Letter(1, 0, 1),
            Act::Audit(false, Ok(())),
        ],
    ),
    // and before it
    (
        Members::Three,
        2,
        &[
            Act::Lead(0),
            Act::Letter(1, 0, 1),
            Act::Audit(true, Err(Torn(0))),
        ],
    ),
    // a letter to another node
    (
        Members::Three,
        2,
        &[
            Act::Lead(0),
            Act::Letter(1, 0, 2),
            Act::Audit(false, Err(Torn(1))),
        ],
    ),
    // a node does no more than it may
    (Members::Three, 1, &[Act::Lead(0), Act::Full(0)]),
    // a letter is given back until it was sent
    (
        Members::Three,
        2,
        &[
            Act::Lead(0),
            Act::Letter(1, 0, 1),
            Act::Record(1, 1, false),
            Act::Record(0, 0, true),
            Act::Record(1, 1, true),
        ],
    ),
    // two letters are recorded in another order than they were sent
    (
        Members::Three,
        2,
        &[
            Act::Lead(0),
            Act::Lead(0),
            Act::Letter(1, 1, 1),
            Act::Letter(1, 0, 1),
            Act::Record(0, 0, true),
            Act::Record(0, 1, true),
            Act::Record(1, 2, true),
            Act::Record(1, 3, true),
        ],
    ),
    // another node 0 doesn't go on where its records end
    (
        Members::Three,
        2,
        &[
            Act::Lead(0),
            Act::Record(0, 0, true),
            Act::Offer(3),
            Act::Lead(3),
            Act::Record(3, 2, false),
        ],
    ),
    // a node of five is none of three
    (Members::Five, 1, &[Act::Lead(3), Act::Record(3, 0, false)]),
];

#[test]
fn records_and_audits(rt: HostRuntime) -> Result<(), Fail> {
    for (others, quota, acts) in &ROWS {
        assert_eq!(rt;
            plainly_right(rt.alloc(), *others, *quota, acts)?,
            acts.len()
        );
    }
    Ok(())
}
