//! Records over a log that slips at a reopen, which are broken for good, and a node over such.

use crate::files::Stopped;
use crate::slip::Slip;
use crate::uses::{Opens, OwnedUse, RecordsUse, Way, answer_in, ballot, content, owned_in};
use acceptor::{Records, RecordsFault};
use ballots::{Members, NodeId};
use node::{Node, SchedNode};
use sqlite::Files;
use sqlite_disk::{Disk, Memory};
use std::alloc::Global;
use std::test::Fail;

fn slipping_file(alloc: Global, calls_left: u64) -> Slip<Memory> {
    Slip::new(Memory::new(alloc), calls_left)
}

/// Empty files, of which this one slips after so many calls.
pub fn slipping(alloc: Global, which: Stopped, calls: u64) -> Files<Slip<Memory>> {
    match which {
        Stopped::Database => Files {
            log: slipping_file(alloc, u64::MAX),
            db: slipping_file(alloc, calls),
        },
        Stopped::Log => Files {
            log: slipping_file(alloc, calls),
            db: slipping_file(alloc, u64::MAX),
        },
    }
}

/// Whether the records, whose reopen failed, are broken and stay so. Else their tables couldn't be read, and the next
/// reopen brings back the one write that was made.
fn stays_broken<R: Records>(alloc: Global, records: &mut R) -> Result<bool, Fail> {
    if !matches!(records.tried(), Err(RecordsFault::Broken)) {
        return Err(Fail::new("the records answer"));
    }
    match records.reopen() {
        Err(RecordsFault::Broken) => Ok(matches!(records.tried(), Err(RecordsFault::Broken))),
        Err(_) => Ok(false),
        Ok(()) if content(alloc, records)?.as_str() == "8 0" => Ok(false),
        Ok(()) => Err(Fail::new("other records come back")),
    }
}

fn write<R: Records>(records: &mut R) -> Result<(), Fail> {
    Ok(records.put_tried(ballot(8)?)?)
}

/// Records in which one write is made.
#[derive(Drop)]
struct Writes;

impl RecordsUse for Writes {
    type Answer = ();

    fn use_records<R: Records>(self, _alloc: Global, records: &mut R) -> Result<(), Fail> {
        write(records)
    }
}

/// Whether a reopen of records in which one write is made fails, and they stay broken.
#[derive(Drop)]
struct StaysBroken;

impl OwnedUse for StaysBroken {
    type Answer = bool;

    fn use_owned<R: Records + Drop>(self, alloc: Global, mut records: R) -> Result<bool, Fail> {
        write(&mut records)?;
        if records.reopen().is_ok() {
            return Ok(false);
        }
        stays_broken(alloc, &mut records)
    }
}

/// Whether a node can't restart, and can't do so the next time. It is let go of here, where its parts aren't known.
fn stays_down<N: Node>(mut node: N) -> bool {
    node.restart().is_err() && node.restart().is_err()
}

/// Whether node 0 over the records can't restart, and can't do so the next time.
#[derive(Drop)]
struct StaysDown;

impl OwnedUse for StaysDown {
    type Answer = bool;

    fn use_owned<R: Records + Drop>(self, alloc: Global, records: R) -> Result<bool, Fail> {
        let Some(id) = NodeId::new(0) else {
            return Err(Fail::new("a node"));
        };
        Ok(stays_down(SchedNode::new(alloc, id, Members::Three, records)))
    }
}

/// What is done again where a file slipped at it.
#[derive(Clone, Copy)]
enum Again {
    /// A reopen of records in which one write was made.
    Reopen,
    /// A restart of a node over records that were opened.
    Restart,
}

/// The files after what comes before the first reopen, or before records are opened for a node.
fn files_before<D: Disk + Drop>(
    alloc: Global,
    files: Files<D>,
    again: Again,
) -> Result<Files<D>, Fail> {
    let (_, files) = match again {
        Again::Reopen => answer_in(alloc, files, Way::Plain, Writes)?,
        Again::Restart => answer_in(alloc, files, Way::Plain, Opens)?,
    };
    Ok(files)
}

/// Whether it fails over these files for good.
fn fails_in<D: Disk + Drop>(alloc: Global, files: Files<D>, again: Again) -> Result<bool, Fail> {
    match again {
        Again::Reopen => owned_in(alloc, files, StaysBroken),
        Again::Restart => owned_in(alloc, files, StaysDown),
    }
}

/// How many calls on this file are made before.
fn calls_before(alloc: Global, which: Stopped, again: Again) -> Result<u64, Fail> {
    let files = files_before(alloc, slipping(alloc, which, u64::MAX), again)?;
    let left = match which {
        Stopped::Database => files.db.calls_left(),
        Stopped::Log => files.log.calls_left(),
    };
    Ok(u64::MAX - left)
}

/// How many of the first calls on this file after those have it fail for good where they slip.
fn slips(alloc: Global, which: Stopped, again: Again) -> Result<u64, Fail> {
    let before = calls_before(alloc, which, again)?;
    let mut count = 0u64;
    for further in 0..4u64 {
        let files = slipping(alloc, which, before.saturating_add(further));
        if fails_in(alloc, files, again)? {
            count = count.saturating_add(1);
        }
    }
    Ok(count)
}

/// Which file slips, and at what.
const SLIPS: [(Stopped, Again); 2] = [
    // after a reopen that couldn't open the files, as the log slipped, records stay broken
    (Stopped::Log, Again::Reopen),
    // a node whose restart failed so stays down
    (Stopped::Log, Again::Restart),
];

#[test]
fn each_slip_is_for_good(rt: HostRuntime) -> Result<(), Fail> {
    for (which, again) in SLIPS {
        let count = slips(rt.alloc(), which, again)?;
        assert!(rt; count > 0, "{count}");
    }
    Ok(())
}
