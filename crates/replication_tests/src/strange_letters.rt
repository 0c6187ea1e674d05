//! Letters that no member may send to node 0 of three, which passes each over; and those that go as far as a member
//! may.

use acceptor::PlainRecords;
use ballots::{Ballot, Bytes, Cast, Letter, Members, NodeId, Note, Votes};
use node::{Node, SchedNode};
use std::alloc::Global;
use std::test::Fail;

type PlainNode = SchedNode<PlainRecords>;

/// What a letter says.
#[derive(Clone, Copy)]
enum Told {
    /// It asks for a promise of this ballot.
    Prepare(u64),
    /// It asks for a vote of ballot 9 at a place, for so many bytes.
    Accept(u64, usize),
    /// It promises this ballot, and reports empty values voted for at these places in these ballots.
    Promise(u64, &'static [(u64, u64)]),
}

fn ballot(number: u64) -> Result<Ballot, Fail> {
    Ok(Ballot::new(number).ok_or("ballot")?)
}

fn node(number: u8) -> Result<NodeId, Fail> {
    Ok(NodeId::new(number).ok_or("node")?)
}

fn votes(alloc: Global, told: &[(u64, u64)]) -> Result<Votes, Fail> {
    let mut rows = Vec::new(alloc);
    for (place, number) in told {
        let value = Bytes::new(Vec::new(alloc));
        let ballot = ballot(*number)?;
        rows.push((*place, Cast { ballot, value }))?;
    }
    Ok(Votes::new(rows))
}

fn note(alloc: Global, told: Told) -> Result<Note, Fail> {
    match told {
        Told::Prepare(number) => Ok(Note::Prepare {
            ballot: ballot(number)?,
            place: 1,
        }),
        Told::Accept(place, len) => Ok(Note::Accept {
            ballot: ballot(9)?,
            place,
            value: Bytes::new(Vec::from_elem(alloc, 7, len)?),
        }),
        Told::Promise(number, told) => Ok(Note::Promise {
            ballot: ballot(number)?,
            place: 1,
            votes: votes(alloc, told)?,
        }),
    }
}

fn letter(alloc: Global, from: u8, to: u8, told: Told) -> Result<Letter, Fail> {
    Ok(Letter {
        from: node(from)?,
        to: node(to)?,
        note: note(alloc, told)?,
    })
}

fn node_0(alloc: Global) -> Result<PlainNode, Fail> {
    let id = node(0)?;
    if id.number() >= Members::Three.count() {
        return Err("member".into());
    }
    Ok(SchedNode::new(alloc, id, Members::Three, PlainRecords::new(alloc)))
}

/// How many letters a node sends to this one.
fn sent<N: Node>(node: &mut N, letter: &Letter) -> Result<usize, Fail> {
    Ok(node.receive(letter)?.len())
}

/// Whether a node sends nothing to a letter that says this, and is fresh then.
fn passes_over<N: Node>(
    node: &mut N,
    alloc: Global,
    from: u8,
    to: u8,
    told: Told,
) -> Result<bool, Fail> {
    let letter = letter(alloc, from, to, told)?;
    Ok(sent(node, &letter)? == 0 && node.is_fresh()?)
}

/// Asks a node to lead so many times: after one node 0 prepares ballot 8, after two 16.
fn prepare<N: Node>(node: &mut N, leads: usize) -> Result<(), Fail> {
    for _ in 0..leads {
        node.lead()?;
    }
    Ok(())
}

/// How many letters a node sends to this from nodes 1 and 2.
fn heard<N: Node>(node: &mut N, alloc: Global, told: Told) -> Result<usize, Fail> {
    let mut count: usize = 0;
    for from in [1, 2] {
        let letter = letter(alloc, from, 0, told)?;
        count = count.saturating_add(sent(node, &letter)?);
    }
    Ok(count)
}

/// The number of a node's fault at an offer, 0 where it proposes the value to three nodes.
fn answered<N: Node>(node: &mut N, value: &[u8]) -> Result<u8, Fail> {
    match node.offer(value) {
        Ok(letters) if letters.len() == 3 => Ok(0),
        Ok(_) => Err("letters".into()),
        Err(fault) => Ok(fault.number()),
    }
}

/// The same of so many bytes that are offered to a node which leads its first ballot.
fn answered_by_leader<N: Node>(node: &mut N, alloc: Global, len: usize) -> Result<u8, Fail> {
    prepare(node, 1)?;
    heard(node, alloc, Told::Promise(8, &[]))?;
    let value = Vec::from_elem(alloc, 7, len)?;
    answered(node, value.as_slice())
}

/// Whether a node leads: whether it may be offered a value.
fn leads<N: Node>(node: &mut N) -> bool {
    node.offer(b"A").is_ok()
}

/// How many letters a node that was asked to lead so many times sends to this from nodes 1 and 2, and whether it
/// leads then.
fn heard_after_leads<N: Node>(
    node: &mut N,
    alloc: Global,
    asked: usize,
    told: Told,
) -> Result<(usize, bool), Fail> {
    prepare(node, asked)?;
    let sent = heard(node, alloc, told)?;
    Ok((sent, leads(node)))
}

/// What comes to node 0, which was fresh before, and what comes of it.
#[derive(Clone, Copy)]
enum Trial {
    /// A letter from a node to a node, and whether it is passed over.
    Letter(u8, u8, Told, bool),
    /// An offer of so many bytes to the leader of its first ballot, and the fault's number, 0 where they are proposed.
    Offer(usize, u8),
    /// How often it leads, what nodes 1 and 2 promise it, how many letters it sends, and whether it leads.
    Promises(usize, Told, usize, bool),
}

static TRIALS: [Trial; 19] = [
    Trial::Letter(4, 0, Told::Promise(8, &[]), true),
    Trial::Letter(2, 0, Told::Prepare(9), true),
    Trial::Letter(1, 1, Told::Prepare(9), true),
    Trial::Letter(1, 0, Told::Prepare(9), false),
    Trial::Letter(1, 0, Told::Accept(0, 1), true),
    Trial::Letter(1, 0, Told::Accept(1, 65), true),
    Trial::Letter(1, 0, Told::Accept(1, 64), false),
    Trial::Letter(1, 0, Told::Accept(1_000_000, 64), false),
    Trial::Letter(1, 0, Told::Accept(1_000_001, 64), true),
    Trial::Letter(1, 0, Told::Promise(8, &[]), true),
    Trial::Offer(0, 0),
    Trial::Offer(64, 0),
    Trial::Offer(65, 4),
    Trial::Promises(1, Told::Promise(8, &[]), 0, true),
    Trial::Promises(1, Told::Promise(8, &[(2, 8), (1, 8)]), 0, false),
    Trial::Promises(1, Told::Promise(8, &[(1, 8)]), 0, false),
    Trial::Promises(2, Told::Promise(8, &[]), 0, false),
    Trial::Promises(2, Told::Promise(16, &[(1, 8), (2, 8)]), 6, true),
    Trial::Promises(2, Told::Promise(16, &[(2, 8), (1, 8)]), 0, false),
];

/// Whether a fresh node does as a trial says.
fn is_right<N: Node>(node: &mut N, alloc: Global, trial: Trial) -> Result<bool, Fail> {
    match trial {
        Trial::Letter(from, to, told, want) => {
            Ok(passes_over(node, alloc, from, to, told)? == want)
        }
        Trial::Offer(len, want) => Ok(answered_by_leader(node, alloc, len)? == want),
        Trial::Promises(asked, told, sent, is_leader) => {
            Ok(heard_after_leads(node, alloc, asked, told)? == (sent, is_leader))
        }
    }
}

/// The same of a node of one's own. It is let go of here, where its parts aren't known.
fn is_right_alone<N: Node>(mut node: N, alloc: Global, trial: Trial) -> Result<bool, Fail> {
    is_right(&mut node, alloc, trial)
}

/// Whether node 0 does so.
fn is_right_anew(alloc: Global, trial: Trial) -> Result<bool, Fail> {
    is_right_alone(node_0(alloc)?, alloc, trial)
}

#[test]
fn letters_and_offers_to_a_node(rt: HostRuntime) -> Result<(), Fail> {
    for row in 0..TRIALS.len() {
        assert!(rt; is_right_anew(rt.alloc(), TRIALS[row])?, "row {row}");
    }
    Ok(())
}
