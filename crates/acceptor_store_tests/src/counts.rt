//! The count of an owner's tables: each transaction raises it by one, and tables of version 3 get it, also where a file
//! stops.

use crate::batches::{node, six};
use crate::files::{Fused, Stopped};
use crate::kinds::{TellsKinds, stops};
use crate::owners::{HELD, SECOND, THIRD, is_held};
use crate::uses::{
    Opens, ReadsContent, RecordsUse, StoreUse, Way, answer_in, ballot, bodies_after, content,
    found_after, place, put_vote, used_files, value,
};
use acceptor::{Records, RecordsFault};
use acceptor_store::SqlRecords;
use acceptor_store_parts::read_count;
use ballots::{Members, NodeId};
use sqlite::{Connection, Files};
use std::alloc::Global;
use std::test::Fail;
use store_anew::OpensAnew;

/// Reads the count of a connection.
#[derive(Drop)]
struct Counts;

impl StoreUse for Counts {
    type Answer = Option<u64>;

    fn use_store<S: OpensAnew>(
        self,
        alloc: Global,
        mut conn: Connection<S>,
    ) -> Result<(Option<u64>, S), Fail> {
        match read_count(alloc, &mut conn) {
            Ok(count) => Ok((count, conn.into_store())),
            Err(stop) => Err(Fail::new(format_args!("no count: {stop:?}"))),
        }
    }
}

/// The count in the files, which come back.
fn count_in(alloc: Global, files: Files<Fused>) -> Result<(Option<u64>, Files<Fused>), Fail> {
    match used_files(alloc, files, Counts)? {
        (Some(count), files) => Ok((count, files)),
        (None, _) => Err(Fail::new("no connection")),
    }
}

/// The files, if they have this count.
fn counted(alloc: Global, files: Files<Fused>, want: Option<u64>) -> Result<Files<Fused>, Fail> {
    let (count, files) = count_in(alloc, files)?;
    if count == want {
        Ok(files)
    } else {
        Err(Fail::new(format_args!("it counts {count:?}")))
    }
}

/// Makes one write of each kind.
#[derive(Drop)]
struct WritesFour;

impl RecordsUse for WritesFour {
    type Answer = ();

    fn use_records<R: Records>(self, alloc: Global, records: &mut R) -> Result<(), Fail> {
        records.put_tried(ballot(17)?)?;
        records.put_promised(ballot(17)?)?;
        put_vote(alloc, records, (1, 17, 65))?;
        let first = place(1)?;
        Ok(records.put_learned(first, &value(alloc, &[65])?)?)
    }
}

fn put_six<S: OpensAnew>(records: &mut SqlRecords<S>, node: NodeId) -> Result<(), Fail> {
    Ok(records.put_all(node, &six(node)?)?)
}

/// Opens records for their owner, and makes six writes at once.
#[derive(Drop)]
struct PutsSix;

impl StoreUse for PutsSix {
    type Answer = ();

    fn use_store<S: OpensAnew>(self, alloc: Global, conn: Connection<S>) -> Result<((), S), Fail> {
        let node = node()?;
        let Ok(mut records) = SqlRecords::open_as(alloc, conn, node, Members::Three, false) else {
            return Err(Fail::new("it doesn't open"));
        };
        put_six(&mut records, node)?;
        let store = records.into_store().ok_or("a store")?;
        Ok(((), store))
    }
}

/// The files, once six writes were made at once.
fn with_six(alloc: Global, files: Files<Fused>) -> Result<Files<Fused>, Fail> {
    match used_files(alloc, files, PutsSix)? {
        (Some(()), files) => Ok(files),
        (None, _) => Err(Fail::new("no connection")),
    }
}

#[test]
fn each_transaction_counts_one(rt: HostRuntime) -> Result<(), Fail> {
    let alloc = rt.alloc();
    let files = counted(alloc, found_after(alloc, "")?, None)?;
    let ((), files) = answer_in(alloc, files, Way::New, Opens)?;
    let files = counted(alloc, files, Some(1))?;
    let ((), files) = answer_in(alloc, files, Way::Old, WritesFour)?;
    let files = counted(alloc, files, Some(5))?;
    let files = counted(alloc, with_six(alloc, files)?, Some(6))?;
    let ((), files) = answer_in(alloc, files, Way::Old, Opens)?;
    counted(alloc, files, Some(6))?;
    Ok(())
}

/// A database of version 3, of node 1 of three.
fn third(alloc: Global) -> Result<String, Fail> {
    Ok(format!(in alloc; "{SECOND}; {THIRD}")?)
}

#[test]
fn version_three_gets_a_count(rt: HostRuntime) -> Result<(), Fail> {
    let alloc = rt.alloc();
    let text = third(alloc)?;
    let files = counted(alloc, found_after(alloc, text.as_str())?, None)?;
    let (first, files) = answer_in(alloc, files, Way::Old, ReadsContent)?;
    assert_eq!(rt; first.as_str(), HELD);
    let files = counted(alloc, files, Some(1))?;
    let (second, files) = answer_in(alloc, files, Way::Old, ReadsContent)?;
    assert_eq!(rt; second.as_str(), HELD);
    counted(alloc, files, Some(1))?;
    Ok(())
}

/// Tells tables of version 4 from those of version 3, by their count. Whatever they are of, they hold the same.
#[derive(Drop)]
struct TellsCounted;

impl TellsKinds for TellsCounted {
    fn is_newer(&self, alloc: Global, files: Files<Fused>) -> Result<bool, Fail> {
        let (count, files) = count_in(alloc, files)?;
        let (content, _) = answer_in(alloc, files, Way::Old, ReadsContent)?;
        is_held(content.as_str(), HELD)?;
        match count {
            None => Ok(false),
            Some(1) => Ok(true),
            Some(_) => Err(Fail::new("it counts more")),
        }
    }
}

#[test]
fn the_log_stops_as_tables_get_a_count(rt: HostRuntime) -> Result<(), Fail> {
    let text = third(rt.alloc())?;
    let bodies = bodies_after(rt.alloc(), text.as_str())?;
    let (none, either) = stops(rt.alloc(), &bodies, Way::Old, Stopped::Log, &TellsCounted)?;
    assert!(rt; none > 1 && either == 1, "{none} {either}");
    Ok(())
}

/// The last count that there is.
const LAST: &str =
    "INSERT INTO fact VALUES (1, x'ffffffffffffffff'); UPDATE ballot SET number = 4 WHERE id = 2";

/// Whether a write is Refused, and then nothing was written.
#[derive(Drop)]
struct IsRefused;

impl RecordsUse for IsRefused {
    type Answer = bool;

    fn use_records<R: Records>(self, alloc: Global, records: &mut R) -> Result<bool, Fail> {
        let answer = records.put_tried(ballot(25)?);
        let text = content(alloc, records)?;
        Ok(answer == Err(RecordsFault::Refused) && text.as_str() == HELD)
    }
}

#[test]
fn no_write_behind_the_last_count(rt: HostRuntime) -> Result<(), Fail> {
    let alloc = rt.alloc();
    let text = format!(in alloc; "{SECOND}; {THIRD}; {LAST}")?;
    let (refused, files) = answer_in(
        alloc,
        found_after(alloc, text.as_str())?,
        Way::Old,
        IsRefused,
    )?;
    assert!(rt; refused);
    counted(alloc, files, Some(u64::MAX))?;
    Ok(())
}
