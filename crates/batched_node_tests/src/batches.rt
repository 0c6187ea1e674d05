//! Lines all at once, one by one and cut anywhere: the replies and what is stored are the same.

ghost use Rattle.std.specs.Prelude.{◌≡◌, ◌<◌, false};

use crate::stores::Counted;
use acceptor::{PlainRecords, RecordsFault};
use ballots::{Members, NodeId};
use batched_node::{BatchedSeat, serve_batched_member};
use node::{Node, SchedNode};
use node_service::{BatchedEnd, End, serve};
use node_writes::WriteBytes;
use seats::{PlainNode, Seat};
use std::alloc::Global;
use std::io::BufReader;
use std::test::Fail;

/// What node 0 of three is asked. It writes at four of the lines: it tries a ballot, promises it, votes and learns.
const LINES: &str = "lead
letter 01000000000000000000080000000000000001
no line
letter 020000000000000000000800000000000000010000000000000000
letter 020100000000000000000800000000000000010000000000000000
offer 00
letter 03000000000000000000080000000000000001000000000000000100
letter 04000000000000000000080000000000000001000000000000000100
letter 04010000000000000000080000000000000001000000000000000100
release 0
tell 2 1
half a line";

/// The reply to the first line.
const LED: &str = "sent 3
letter 0 01000000000000000000080000000000000001
letter 1 01000100000000000000080000000000000001
letter 2 01000200000000000000080000000000000001
";

/// Bytes that are read ahead, which commit fails and how, the replies before, and what is told.
static FAILURES: [(usize, u64, RecordsFault, &str, &str); 4] = [
    (
        65536,
        0,
        RecordsFault::Refused,
        "",
        "fault 6 StoreRefused\n",
    ),
    (
        65536,
        0,
        RecordsFault::OutOfMemory,
        "",
        "fault 5 OutOfMemory\n",
    ),
    (65536, 0, RecordsFault::Broken, "", "fault 7 Down\n"),
    (1, 1, RecordsFault::Refused, LED, "fault 6 StoreRefused\n"),
];

/// Node 0 of three, with nothing in its records.
fn new_node(alloc: Global) -> PlainNode
    ensures up { (⟦<PlainNode as Node>⟧.who result).down ≡ false }
    ensures some { 0 < (⟦<PlainNode as Node>⟧.who result).members }
{
    let id = NodeId::new(0).unwrap();
    SchedNode::new(alloc, id, Members::Three, PlainRecords::new(alloc))
}

/// What is replied to the lines one by one, and how that ends.
fn replied_plainly(alloc: Global) -> (Vec<u8>, End) {
    let mut seat = Seat::new(new_node(alloc));
    let mut output = Vec::new(alloc);
    let end = serve(alloc, &mut seat, &mut LINES.as_bytes(), &mut output);
    (output, end)
}

/// What is replied, how that ended, and what was stored.
#[derive(Drop)]
struct Served {
    output: Vec<u8>,
    end: BatchedEnd,
    stored: Counted,
}

/// What is replied to the lines where so many bytes are read ahead.
fn replied(
    alloc: Global,
    capacity: usize,
    fails: Option<(u64, RecordsFault)>,
) -> Result<Served, Fail> {
    let mut input = BufReader::with_capacity(alloc, capacity, LINES.as_bytes())?;
    let mut output = Vec::new(alloc);
    let mut seat = BatchedSeat::of(alloc, new_node(alloc), Counted::new(alloc, fails))?;
    let end = serve_batched_member(alloc, &mut seat, &mut input, &mut output);
    Ok(Served {
        output,
        end,
        stored: seat.into_store(),
    })
}

fn are_same(writes: &[WriteBytes], others: &[WriteBytes]) -> bool {
    if writes.len() != others.len() {
        return false;
    }
    for (one, other) in writes.iter().zip(others) {
        if one.kind != other.kind || one.place != other.place || one.value != other.value {
            return false;
        }
    }
    true
}

/// Whether this is replied up to the input's end, and these four writes are stored.
fn is_alike(found: &Served, output: &[u8], writes: &[WriteBytes]) -> bool {
    found.end == BatchedEnd::Input
        && found.output.as_slice() == output
        && writes.len() == 4
        && are_same(&found.stored.writes, writes)
}

#[test]
fn lines_are_served_alike(rt: HostRuntime) -> Result<(), Fail> {
    let alloc = rt.alloc();
    let (plain, end) = replied_plainly(alloc);
    assert_eq!(rt; end, End::Input);
    let whole = replied(alloc, 65536, None)?;
    for (capacity, fewest, most) in [
        (65536, 1, 1),
        (1, 4, 4),
        (7, 1, 4),
        (100, 1, 4),
        (250, 1, 4),
    ] {
        let found = replied(alloc, capacity, None)?;
        let commits = found.stored.commits;
        assert!(rt;
            is_alike(&found, &plain, &whole.stored.writes),
            "at {capacity}"
        );
        assert!(rt; fewest <= commits && commits <= most, "at {capacity}");
    }
    Ok(())
}

/// Whether so many commits were made, each of one write, this was replied up to one that failed, and then this told.
fn is_told(found: &Served, commits: u64, before: &str, told: &str) -> bool {
    found.end == BatchedEnd::Uncommitted
        && found.stored.commits == commits
        && found.stored.writes.len() as u64 == commits
        && found.output.as_slice().strip_prefix(before.as_bytes()) == Some(told.as_bytes())
}

#[test]
fn a_commit_that_fails_is_told(rt: HostRuntime) -> Result<(), Fail> {
    for (capacity, number, fault, before, told) in FAILURES {
        let found = replied(rt.alloc(), capacity, Some((number, fault)))?;
        assert!(rt; is_told(&found, number, before, told), "at {told}");
    }
    Ok(())
}
