//! Files of version 1 that are opened, also where a file stops, and learned values that are kept.

use crate::files::{Fused, Stopped};
use crate::kinds::{TellsKinds, stops};
use crate::uses::{
    RecordsUse, StoreUse, Way, answer_in, answered, bodies_after, content, found_after, place,
    used_files, used_over, value,
};
use acceptor::Records;
use acceptor_store_parts::{Version, version_of};
use ballots::{Place, Value};
use sqlite::{Alter, Connection, Files};
use std::alloc::{AllocError, Global};
use std::test::Fail;
use store_anew::OpensAnew;

/// Tables of version 1: tried 16, the promised row 18, and a vote of ballot 17 for the byte 65 at
/// place 1.
const FIRST: &str =
    "CREATE TABLE ballot (id INTEGER PRIMARY KEY, number INTEGER NOT NULL) STRICT; CREATE TABLE vote (place INTEGER PRIMARY KEY, ballot INTEGER NOT NULL, value BLOB NOT NULL) STRICT; INSERT INTO ballot (id, number) VALUES (0, 16), (1, 18); INSERT INTO vote (place, ballot, value) VALUES (1, 17, x'41')";

/// What they hold, of tables of either version.
const HELD: &str = "16 18 1 17 [65]";

/// Whether the numbers have the row that tells version 2.
fn has_second<S: Alter>(conn: &mut Connection<S>) -> Result<bool, Fail> {
    let rows = conn.query_all("SELECT id FROM ballot WHERE id = 2 AND number = 2", &[])?;
    Ok(rows.len() == 1)
}

/// The version whose tables the files have, with or without the row that tells version 2.
fn version<S: Alter>(alloc: Global, conn: &mut Connection<S>) -> Result<Version, Fail> {
    let is_second = has_second(conn)?;
    match (version_of(alloc, conn.schema())?, is_second) {
        (Some(Version::First), false) => Ok(Version::First),
        (Some(Version::Second), true) => Ok(Version::Second),
        _ => Err(Fail::new("it is of no version")),
    }
}

/// Adds place and bytes of a learned value to the text.
fn push_learned(alloc: Global, text: &mut String, place: Place, value: &Value) -> Result<(), Fail> {
    let row = format!(in alloc; "{} {:?};", place.number(), value.as_slice())?;
    Ok(text.push_str(row.as_str())?)
}

/// Place and bytes of each of these learned values.
fn learned_text(alloc: Global, rows: Vec<(Place, Value)>) -> Result<String, Fail> {
    let mut text = String::new(alloc);
    for (place, value) in rows {
        push_learned(alloc, &mut text, place, &value)?;
    }
    Ok(text)
}

/// Place and bytes of each learned value from the place on.
fn learned_from<R: Records>(alloc: Global, records: &mut R, number: u64) -> Result<String, Fail> {
    learned_text(alloc, records.learned_from(place(number)?)?)
}

/// The bytes of a learned value.
fn row_text(alloc: Global, value: Option<&Value>) -> Result<String, AllocError> {
    match value {
        Some(value) => format!(in alloc; "{:?}", value.as_slice()),
        None => format!(in alloc; "none"),
    }
}

/// The bytes of the learned value of the place.
fn learned_row<R: Records>(alloc: Global, records: &mut R, number: u64) -> Result<String, Fail> {
    let value = records.learned_row(place(number)?)?;
    Ok(row_text(alloc, value.as_ref())?)
}

/// Whether the records hold what the tables of version 1 held.
fn holds_votes<R: Records>(alloc: Global, records: &mut R) -> Result<bool, Fail> {
    Ok(content(alloc, records)?.as_str() == HELD)
}

/// Whether these are the learned values from this place on.
fn holds_from<R: Records>(
    alloc: Global,
    records: &mut R,
    place: u64,
    want: &str,
) -> Result<bool, Fail> {
    Ok(learned_from(alloc, records, place)?.as_str() == want)
}

/// Whether this is the learned value of the place.
fn holds_row<R: Records>(
    alloc: Global,
    records: &mut R,
    place: u64,
    want: &str,
) -> Result<bool, Fail> {
    Ok(learned_row(alloc, records, place)?.as_str() == want)
}

/// The records hold what the tables of version 1 held, and nothing learned.
fn holds_the_first<R: Records>(alloc: Global, records: &mut R) -> Result<bool, Fail> {
    Ok(
        holds_votes(alloc, records)?
            && holds_from(alloc, records, 1, "")?
            && holds_row(alloc, records, 1, "none")?,
    )
}

fn put_learned<R: Records>(
    alloc: Global,
    records: &mut R,
    place: Place,
    byte: u8,
) -> Result<(), Fail> {
    let value = value(alloc, &[byte])?;
    Ok(records.put_learned(place, &value)?)
}

/// Writes learned values at places 3 and 1, and reopens the records.
fn learn_two<R: Records>(alloc: Global, records: &mut R) -> Result<(), Fail> {
    put_learned(alloc, records, place(3)?, 51)?;
    put_learned(alloc, records, place(1)?, 49)?;
    Ok(records.reopen()?)
}

fn has_both_rows<R: Records>(alloc: Global, records: &mut R) -> Result<bool, Fail> {
    Ok(holds_row(alloc, records, 2, "none")? && holds_row(alloc, records, 3, "[51]")?)
}

/// The records hold learned values at places 1 and 3 alone, and what the tables of version 1 held.
fn holds_learned<R: Records>(alloc: Global, records: &mut R) -> Result<bool, Fail> {
    Ok(
        has_both_rows(alloc, records)?
            && holds_from(alloc, records, 1, "1 [49];3 [51];")?
            && holds_from(alloc, records, 2, "3 [51];")?
            && holds_votes(alloc, records)?,
    )
}

/// Whether records keep learned values as they are reopened.
fn keeps_learned<R: Records>(alloc: Global, records: &mut R) -> Result<bool, Fail> {
    learn_two(alloc, records)?;
    holds_learned(alloc, records)
}

/// What records have to hold.
#[derive(Clone, Copy)]
enum Holding {
    /// What the tables of version 1 held, and nothing learned.
    TheFirst,
    /// Learned values that are written first, and are kept as they are reopened.
    Kept,
    /// The same learned values, unwritten.
    Learned,
}

impl RecordsUse for Holding {
    type Answer = bool;

    fn use_records<R: Records>(self, alloc: Global, records: &mut R) -> Result<bool, Fail> {
        match self {
            Holding::TheFirst => holds_the_first(alloc, records),
            Holding::Kept => keeps_learned(alloc, records),
            Holding::Learned => holds_learned(alloc, records),
        }
    }
}

/// Opens the records over the connection, and tells of which version its tables were; with the
/// store again. Whatever that was, they hold the same.
fn raised<S: OpensAnew>(alloc: Global, mut conn: Connection<S>) -> Result<(Version, S), Fail> {
    let version = version(alloc, &mut conn)?;
    let (is_same, store) = used_over(alloc, conn, Way::Plain, Holding::TheFirst)?;
    if answered(is_same)? {
        Ok((version, store))
    } else {
        Err(Fail::new("it holds something else"))
    }
}

/// Records that are opened as `raised` opens them.
#[derive(Drop)]
struct Raises;

impl StoreUse for Raises {
    type Answer = Version;

    fn use_store<S: OpensAnew>(
        self,
        alloc: Global,
        conn: Connection<S>,
    ) -> Result<(Version, S), Fail> {
        raised(alloc, conn)
    }
}

/// The same of records in files, with the files again.
fn reopened(alloc: Global, files: Files<Fused>) -> Result<(Version, Files<Fused>), Fail> {
    match used_files(alloc, files, Raises)? {
        (Some(version), files) => Ok((version, files)),
        (None, _) => Err(Fail::new("no connection")),
    }
}

/// A database of version 1 holds the same once it was opened, and nothing learned, in tables of
/// version 2.
#[test]
fn version_one_is_raised(rt: HostRuntime) -> Result<(), Fail> {
    let (first, files) = reopened(rt.alloc(), found_after(rt.alloc(), FIRST)?)?;
    assert_eq!(rt; first, Version::First);
    let (second, _) = reopened(rt.alloc(), files)?;
    assert_eq!(rt; second, Version::Second);
    Ok(())
}

/// Whether the records in the files hold this. The files come back.
fn holds_in(
    alloc: Global,
    files: Files<Fused>,
    holding: Holding,
) -> Result<(bool, Files<Fused>), Fail> {
    answer_in(alloc, files, Way::Plain, holding)
}

/// Learned values are kept as the records are reopened, and as their files are opened anew.
#[test]
fn learned_values_are_kept(rt: HostRuntime) -> Result<(), Fail> {
    let (is_kept, files) = holds_in(rt.alloc(), found_after(rt.alloc(), FIRST)?, Holding::Kept)?;
    assert!(rt; is_kept);
    let (is_still_there, _) = holds_in(rt.alloc(), files, Holding::Learned)?;
    assert!(rt; is_still_there);
    Ok(())
}

/// Tells tables of version 2 from those of version 1. Whatever they are of, they hold the same.
#[derive(Drop)]
struct TellsVersions;

impl TellsKinds for TellsVersions {
    fn is_newer(&self, alloc: Global, files: Files<Fused>) -> Result<bool, Fail> {
        match reopened(alloc, files)? {
            (Version::First, _) => Ok(false),
            (Version::Second, _) => Ok(true),
            (Version::Third | Version::Fourth, _) => Err(Fail::new("it has an owner")),
        }
    }
}

/// Which file stops, and how many stops leave either version.
const STOPS: [(Stopped, u64); 2] = [
    // the database alone holds version 1 until the log is copied into it, which is after the open
    (Stopped::Database, 0),
    // the stop at the sync of the log leaves both
    (Stopped::Log, 1),
];

#[test]
fn files_stop_as_they_are_raised(rt: HostRuntime) -> Result<(), Fail> {
    let bodies = bodies_after(rt.alloc(), FIRST)?;
    for (stopped, want) in STOPS {
        let (first, either) = stops(rt.alloc(), &bodies, Way::Plain, stopped, &TellsVersions)?;
        assert!(rt; first > 3 && either == want, "{first} {either}");
    }
    Ok(())
}
