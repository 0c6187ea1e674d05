//! Records that have an owner, also where a file stops as they are made or adopted.

use crate::files::{Fused, Stopped};
use crate::kinds::{TellsKinds, stops};
use crate::tables::{Row, open_so};
use crate::uses::{
    ReadsContent, RecordsUse, Refusal, Unopened, Way, answer_in, ballot, bodies_after, content,
    fault_after, found_after, refusal_of, used_in,
};
use acceptor::Records;
use acceptor_store::{OpenFault, OwnerFault};
use acceptor_store_parts::Owner;
use ballots::{Members, NodeId};
use sqlite::Files;
use std::alloc::Global;
use std::test::Fail;

/// Tables of version 2: tried 16, the promised row 18, and a vote of ballot 17 for the byte 65 at
/// place 1.
pub const SECOND: &str =
    "CREATE TABLE ballot (id INTEGER PRIMARY KEY, number INTEGER NOT NULL) STRICT; CREATE TABLE vote (place INTEGER PRIMARY KEY, ballot INTEGER NOT NULL, value BLOB NOT NULL) STRICT; CREATE TABLE learned (place INTEGER PRIMARY KEY, value BLOB NOT NULL) STRICT; INSERT INTO ballot (id, number) VALUES (0, 16), (1, 18), (2, 2); INSERT INTO vote (place, ballot, value) VALUES (1, 17, x'41')";

/// What makes version 3 of them, of node 1 of three.
pub const THIRD: &str =
    "CREATE TABLE fact (id INTEGER PRIMARY KEY, bytes BLOB NOT NULL) STRICT; INSERT INTO fact VALUES (0, x'0103'); UPDATE ballot SET number = 3 WHERE id = 2";

/// What makes version 4 of those.
const FOURTH: &str =
    "INSERT INTO fact VALUES (1, x'0000000000000001'); UPDATE ballot SET number = 4 WHERE id = 2";

/// What they hold.
pub const HELD: &str = "16 18 1 17 [65]";

/// What fresh records hold.
const EMPTY: &str = "0 0";

const FOREIGN: Option<Refusal> = Some(Refusal::Open(OpenFault::Foreign));

const REFUSED: Option<Refusal> = Some(Refusal::Open(OpenFault::Refused));

/// A database without tables, and one of each version from the second on, and how each is opened.
static OPENED: [Row; 16] = [
    (["", "", "", ""], Way::Plain, None),
    (["", "", "", ""], Way::New, None),
    (["", "", "", ""], Way::Old, Some(Refusal::Blank)),
    (["", "", "", ""], Way::Adopt, Some(Refusal::Blank)),
    ([SECOND, "", "", ""], Way::Plain, None),
    ([SECOND, "", "", ""], Way::New, Some(Refusal::Unowned)),
    ([SECOND, "", "", ""], Way::Old, Some(Refusal::Unowned)),
    ([SECOND, "", "", ""], Way::Adopt, None),
    ([SECOND, THIRD, "", ""], Way::Plain, FOREIGN),
    ([SECOND, THIRD, "", ""], Way::New, None),
    ([SECOND, THIRD, "", ""], Way::Old, None),
    ([SECOND, THIRD, "", ""], Way::Adopt, None),
    ([SECOND, THIRD, FOURTH, ""], Way::Plain, FOREIGN),
    ([SECOND, THIRD, FOURTH, ""], Way::New, None),
    ([SECOND, THIRD, FOURTH, ""], Way::Old, None),
    ([SECOND, THIRD, FOURTH, ""], Way::Adopt, None),
];

#[test]
fn each_version_in_each_way(rt: HostRuntime) -> Result<(), Fail> {
    open_so(&rt, rt.alloc(), &OPENED)
}

/// Changes of a database of version 3 or 4, and how it is opened then.
static CHANGED: [Row; 17] = [
    (
        [SECOND, THIRD, "UPDATE fact SET bytes = x'0104'", ""],
        Way::Old,
        FOREIGN,
    ),
    (
        [SECOND, THIRD, "UPDATE fact SET bytes = x'0503'", ""],
        Way::Old,
        FOREIGN,
    ),
    (
        [SECOND, THIRD, "UPDATE fact SET bytes = x'01'", ""],
        Way::Old,
        FOREIGN,
    ),
    (
        [SECOND, THIRD, "UPDATE fact SET bytes = x'010300'", ""],
        Way::Old,
        FOREIGN,
    ),
    (
        [SECOND, THIRD, "UPDATE fact SET id = 1", ""],
        Way::Old,
        FOREIGN,
    ),
    (
        [SECOND, THIRD, "INSERT INTO fact VALUES (1, x'0103')", ""],
        Way::Old,
        FOREIGN,
    ),
    ([SECOND, THIRD, "DELETE FROM fact", ""], Way::Old, FOREIGN),
    (
        [
            SECOND,
            THIRD,
            "UPDATE ballot SET number = 4 WHERE id = 2",
            "",
        ],
        Way::Old,
        FOREIGN,
    ),
    (
        [
            SECOND,
            THIRD,
            FOURTH,
            "UPDATE ballot SET number = 3 WHERE id = 2",
        ],
        Way::Old,
        FOREIGN,
    ),
    (
        [
            SECOND,
            THIRD,
            FOURTH,
            "UPDATE fact SET bytes = x'01' WHERE id = 1",
        ],
        Way::Old,
        FOREIGN,
    ),
    (
        [SECOND, THIRD, FOURTH, "DELETE FROM fact WHERE id = 0"],
        Way::Old,
        FOREIGN,
    ),
    (
        [
            SECOND,
            THIRD,
            "UPDATE ballot SET number = 2 WHERE id = 2",
            "",
        ],
        Way::Old,
        FOREIGN,
    ),
    (
        [
            SECOND,
            THIRD,
            "INSERT INTO vote VALUES (0, 16, x'0907')",
            "",
        ],
        Way::Old,
        FOREIGN,
    ),
    ([SECOND, THIRD, "DROP TABLE vote", ""], Way::Old, FOREIGN),
    (
        [SECOND, THIRD, "DROP TABLE fact", ""],
        Way::Old,
        Some(Refusal::Unowned),
    ),
    (
        [SECOND, THIRD, "CREATE INDEX by_bytes ON fact (bytes)", ""],
        Way::Old,
        REFUSED,
    ),
    ([SECOND, THIRD, "BEGIN", ""], Way::Old, REFUSED),
];

#[test]
fn what_an_owner_refuses(rt: HostRuntime) -> Result<(), Fail> {
    open_so(&rt, rt.alloc(), &CHANGED)
}

/// Changes of a database of node 1 of three, the owner that it has then, and whether node 1 of three is told of other
/// members.
static OTHERS: [(&str, u8, u8, bool); 3] = [
    ("UPDATE fact SET bytes = x'0003'", 0, 3, false),
    ("UPDATE fact SET bytes = x'0005'", 0, 5, false),
    ("UPDATE fact SET bytes = x'0105'", 1, 5, true),
];

fn other(node: u8, members: u8, is_same_node: bool) -> Result<OwnerFault, Fail> {
    let node = NodeId::new(node).ok_or("a node")?;
    let members = Members::of(members).ok_or("members")?;
    let owner = Owner { node, members };
    Ok(if is_same_node {
        OwnerFault::OtherMembers(owner)
    } else {
        OwnerFault::OtherNode(owner)
    })
}

#[test]
fn another_owner_is_named(rt: HostRuntime) -> Result<(), Fail> {
    for (text, node, members, is_same_node) in OTHERS {
        let wanted = other(node, members, is_same_node)?;
        let found = fault_after(rt.alloc(), &[SECOND, THIRD, text], Way::Old)?;
        assert!(rt; found == Some(wanted), "{text}: {found:?}");
    }
    Ok(())
}

fn refusal_in(unopened: Unopened) -> Option<Refusal> {
    match unopened {
        Unopened::Unlinked => None,
        Unopened::Fault(fault) => Some(refusal_of(fault)),
    }
}

/// Tells tables that have an owner, and what they hold, from what was there before, by how that is refused.
#[derive(Drop)]
struct TellsOwned<'a> {
    held: &'a str,
    before: Refusal,
}

pub fn is_held(content: &str, held: &str) -> Result<bool, Fail> {
    if content == held {
        Ok(true)
    } else {
        Err(Fail::new("it holds something else"))
    }
}

impl<'a> TellsOwned<'a> {
    /// False where what was there before is refused so; else it fails.
    fn is_before(&self, unopened: Unopened) -> Result<bool, Fail> {
        let found = refusal_in(unopened);
        if found == Some(self.before) {
            return Ok(false);
        }
        Err(Fail::new(format_args!("it doesn't open: {found:?}")))
    }
}

impl<'a> TellsKinds for TellsOwned<'a> {
    fn is_newer(&self, alloc: Global, files: Files<Fused>) -> Result<bool, Fail> {
        let (content, _) = used_in(alloc, files, Way::Old, ReadsContent)?;
        match content {
            Ok(content) => is_held(content.as_str(), self.held),
            Err(unopened) => self.is_before(unopened),
        }
    }
}

/// The text that makes a database, how it is refused before, in which way it is opened, which of its files stops, what
/// it holds, and how many stops leave either.
static STOPS: [(&str, Refusal, Way, Stopped, &str, u64); 3] = [
    // tables that are made for an owner are there whole, or not at all
    ("", Refusal::Blank, Way::New, Stopped::Log, EMPTY, 1),
    // tables of version 2 are adopted whole, or not at all, and hold the same
    (SECOND, Refusal::Unowned, Way::Adopt, Stopped::Log, HELD, 1),
    // the same where the database stops
    (
        SECOND,
        Refusal::Unowned,
        Way::Adopt,
        Stopped::Database,
        HELD,
        0,
    ),
];

#[test]
fn files_stop_as_owned_tables_are_made(rt: HostRuntime) -> Result<(), Fail> {
    for (text, before, way, stopped, held, want) in &STOPS {
        let teller = TellsOwned {
            held,
            before: *before,
        };
        let bodies = bodies_after(rt.alloc(), text)?;
        let (none, either) = stops(rt.alloc(), &bodies, *way, *stopped, &teller)?;
        assert!(rt; none > 3 && either == *want, "{none} {either}");
    }
    Ok(())
}

/// What records hold that are reopened after a write of a ballot.
#[derive(Drop)]
struct WrittenContent;

impl RecordsUse for WrittenContent {
    type Answer = String;

    fn use_records<R: Records>(self, alloc: Global, records: &mut R) -> Result<String, Fail> {
        records.put_tried(ballot(25)?)?;
        records.reopen()?;
        content(alloc, records)
    }
}

/// What the tables of version 2 hold after it.
const WRITTEN: &str = "25 18 1 17 [65]";

/// Whether records that have an owner keep what they wrote, and it, over a reopen.
fn keep_their_owner(alloc: Global) -> Result<bool, Fail> {
    let files = found_after(alloc, SECOND)?;
    let (text, files) = answer_in(alloc, files, Way::Adopt, WrittenContent)?;
    is_held(text.as_str(), WRITTEN)?;
    let teller = TellsOwned {
        held: WRITTEN,
        before: Refusal::Unowned,
    };
    teller.is_newer(alloc, files)
}

#[test]
fn owned_records_are_reopened(rt: HostRuntime) -> Result<(), Fail> {
    assert!(rt; keep_their_owner(rt.alloc())?);
    Ok(())
}
