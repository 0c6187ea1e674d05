use crate::uses::{Refusal, Way, fault_after, refusal_of};
use acceptor_store::OpenFault;
use std::alloc::Global;
use std::process::Abort;
use std::test::Fail;

/// Tables of version 1.
const TABLES: &str =
    "CREATE TABLE ballot (id INTEGER PRIMARY KEY, number INTEGER NOT NULL) STRICT; CREATE TABLE vote (place INTEGER PRIMARY KEY, ballot INTEGER NOT NULL, value BLOB NOT NULL) STRICT; INSERT INTO ballot (id, number) VALUES (0, 8), (1, 0)";

/// What version 2 has beside them.
const LEARNED: &str =
    "CREATE TABLE learned (place INTEGER PRIMARY KEY, value BLOB NOT NULL) STRICT";

const SECOND: &str = "INSERT INTO ballot (id, number) VALUES (2, 2)";

const FOREIGN: Option<Refusal> = Some(Refusal::Open(OpenFault::Foreign));

const REFUSED: Option<Refusal> = Some(Refusal::Open(OpenFault::Refused));

/// The texts that make a database, and how it is opened in a way.
pub type Row = ([&'static str; 4], Way, Option<Refusal>);

static OPENED: [Row; 29] = [
    // tables of records open
    (
        [
            TABLES,
            "INSERT INTO vote VALUES (3, 9, x'00'), (2, 16, x'0907')",
            "",
            "",
        ],
        Way::Plain,
        None,
    ),
    (
        [
            TABLES,
            "INSERT INTO vote VALUES (1000000, 16, x'00112233445566778899aabbccddeeff00112233445566778899aabbccddeeff00112233445566778899aabbccddeeff00112233445566778899aabbccddeeff')",
            "",
            "",
        ],
        Way::Plain,
        None,
    ),
    // all other tables are foreign
    (
        [TABLES, "INSERT INTO vote VALUES (0, 16, x'0907')", "", ""],
        Way::Plain,
        FOREIGN,
    ),
    (
        [
            TABLES,
            "INSERT INTO vote VALUES (1000001, 16, x'0907')",
            "",
            "",
        ],
        Way::Plain,
        FOREIGN,
    ),
    (
        [TABLES, "INSERT INTO vote VALUES (1, 0, x'0907')", "", ""],
        Way::Plain,
        FOREIGN,
    ),
    (
        [TABLES, "INSERT INTO vote VALUES (1, 15, x'0907')", "", ""],
        Way::Plain,
        FOREIGN,
    ),
    (
        [
            TABLES,
            "INSERT INTO vote VALUES (1, 16, x'00112233445566778899aabbccddeeff00112233445566778899aabbccddeeff00112233445566778899aabbccddeeff00112233445566778899aabbccddeeff00')",
            "",
            "",
        ],
        Way::Plain,
        FOREIGN,
    ),
    (
        [TABLES, "UPDATE ballot SET number = 7", "", ""],
        Way::Plain,
        FOREIGN,
    ),
    (
        [TABLES, "DELETE FROM ballot WHERE id = 1", "", ""],
        Way::Plain,
        FOREIGN,
    ),
    (
        [TABLES, "INSERT INTO ballot VALUES (2, 0)", "", ""],
        Way::Plain,
        FOREIGN,
    ),
    ([TABLES, "DROP TABLE vote", "", ""], Way::Plain, FOREIGN),
    // learned values at a node's places, of at most 64 bytes, open, and all others are foreign
    (
        [
            TABLES,
            LEARNED,
            SECOND,
            "INSERT INTO learned VALUES (3, x'00'), (1, x'')",
        ],
        Way::Plain,
        None,
    ),
    (
        [
            TABLES,
            LEARNED,
            SECOND,
            "INSERT INTO learned VALUES (1000000, x'00112233445566778899aabbccddeeff00112233445566778899aabbccddeeff00112233445566778899aabbccddeeff00112233445566778899aabbccddeeff')",
        ],
        Way::Plain,
        None,
    ),
    (
        [
            TABLES,
            LEARNED,
            SECOND,
            "INSERT INTO learned VALUES (0, x'0907')",
        ],
        Way::Plain,
        FOREIGN,
    ),
    (
        [
            TABLES,
            LEARNED,
            SECOND,
            "INSERT INTO learned VALUES (1000001, x'0907')",
        ],
        Way::Plain,
        FOREIGN,
    ),
    (
        [
            TABLES,
            LEARNED,
            SECOND,
            "INSERT INTO learned VALUES (1, x'00112233445566778899aabbccddeeff00112233445566778899aabbccddeeff00112233445566778899aabbccddeeff00112233445566778899aabbccddeeff00')",
        ],
        Way::Plain,
        FOREIGN,
    ),
    // tables of version 1 with a part of what version 2 has beside them are foreign, and so is a part of the tables of
    // version 2
    ([TABLES, SECOND, "", ""], Way::Plain, FOREIGN),
    ([TABLES, LEARNED, "", ""], Way::Plain, FOREIGN),
    (
        [TABLES, LEARNED, "INSERT INTO ballot VALUES (2, 1)", ""],
        Way::Plain,
        FOREIGN,
    ),
    (
        [
            TABLES,
            LEARNED,
            "INSERT INTO ballot VALUES (2, 2), (3, 0)",
            "",
        ],
        Way::Plain,
        FOREIGN,
    ),
    (
        [
            TABLES,
            LEARNED,
            "INSERT INTO ballot VALUES (2, 2); DROP TABLE vote",
            "",
        ],
        Way::Plain,
        FOREIGN,
    ),
    (
        [TABLES, LEARNED, "DROP TABLE vote; DROP TABLE ballot", ""],
        Way::Plain,
        FOREIGN,
    ),
    (
        [
            TABLES,
            "CREATE TABLE learned (place INTEGER PRIMARY KEY) STRICT",
            SECOND,
            "",
        ],
        Way::Plain,
        FOREIGN,
    ),
    // what stands beside the tables of either version isn't foreign, and is refused
    (
        [
            TABLES,
            "CREATE TABLE more (id INTEGER PRIMARY KEY) STRICT",
            "",
            "",
        ],
        Way::Plain,
        REFUSED,
    ),
    (
        [TABLES, "CREATE INDEX by_ballot ON vote (ballot)", "", ""],
        Way::Plain,
        REFUSED,
    ),
    (
        [
            TABLES,
            "CREATE TABLE learned (place INTEGER PRIMARY KEY, value BLOB NOT NULL) STRICT; INSERT INTO ballot VALUES (2, 2); CREATE INDEX by_value ON learned (value)",
            "",
            "",
        ],
        Way::Plain,
        REFUSED,
    ),
    (
        [
            TABLES,
            "DROP TABLE vote; DROP TABLE ballot; CREATE TABLE more (id INTEGER PRIMARY KEY) STRICT",
            "",
            "",
        ],
        Way::Plain,
        REFUSED,
    ),
    ([TABLES, "BEGIN", "", ""], Way::Plain, REFUSED),
    // a table of votes without values is foreign
    (
        [
            "CREATE TABLE ballot (id INTEGER PRIMARY KEY, number INTEGER NOT NULL) STRICT; INSERT INTO ballot VALUES (0, 0), (1, 0)",
            "CREATE TABLE vote (place INTEGER PRIMARY KEY, ballot INTEGER NOT NULL) STRICT",
            "",
            "",
        ],
        Way::Plain,
        FOREIGN,
    ),
];

/// Each row opens as it says.
pub fn open_so(rt: &impl Abort, alloc: Global, rows: &[Row]) -> Result<(), Fail> {
    for (texts, way, wanted) in rows {
        let found = match fault_after(alloc, texts, *way)? {
            Some(fault) => Some(refusal_of(fault)),
            None => None,
        };
        assert_eq!(rt; found, *wanted, "{texts:?}");
    }
    Ok(())
}

#[test]
fn which_tables_open(rt: HostRuntime) -> Result<(), Fail> {
    open_so(&rt, rt.alloc(), &OPENED)
}
