//! The four writes that a node makes up to its first grant, stopped at each call on one of its
//! files in turn.

use crate::files::{Bodies, FOUND, Fused, Stopped, found, is_again, left_behind, stopping};
use crate::uses::{ReadsContent, RecordsUse, Way, answer_in, ballot, used_in, value};
use acceptor::{Records, RecordsFault};
use ballots::{Ballot, Place, Value};
use sqlite::Files;
use std::alloc::Global;
use std::test::Fail;

/// Channel 1 of UCD Count 7 as a command, and a cut of one minislot.
static CHANNEL: [u8; 17] = [1, 1, 7, 0, 16, 2, 5, 3, 8, 0, 0, 0, 0, 0, 0, 3, 232];

static CUT: [u8; 20] = [5, 1, 0, 1, 0, 0, 0, 0, 0, 0, 0, 0, 0, 0, 0, 0, 0, 0, 0, 0];

/// What the records hold after none of the writes, after the first, and so on.
static CONTENTS: [&str; 5] = [
    "0 0",
    "8 0",
    "8 8",
    "8 8 1 8 [1, 1, 7, 0, 16, 2, 5, 3, 8, 0, 0, 0, 0, 0, 0, 3, 232]",
    "8 8 1 8 [1, 1, 7, 0, 16, 2, 5, 3, 8, 0, 0, 0, 0, 0, 0, 3, 232] 2 8 [5, 1, 0, 1, 0, 0, 0, 0, 0, 0, 0, 0, 0, 0, 0, 0, 0, 0, 0, 0]",
];

/// What the writes write.
#[derive(Drop)]
struct Writes {
    ballot: Ballot,
    channel: Value,
    cut: Value,
}

/// How far the writes came: whether the files opened, how many writes were made, and why the next
/// wasn't.
#[derive(Clone, Copy)]
struct Reached {
    is_open: bool,
    made: usize,
    fault: Option<RecordsFault>,
}

fn first_writes(alloc: Global) -> Result<Writes, Fail> {
    Ok(Writes {
        ballot: ballot(8)?,
        channel: value(alloc, &CHANNEL)?,
        cut: value(alloc, &CUT)?,
    })
}

fn put_vote<R: Records>(
    records: &mut R,
    place: u64,
    ballot: Ballot,
    value: &Value,
) -> Result<(), RecordsFault> {
    match Place::new(place) {
        Some(place) => records.put_vote(place, ballot, value),
        None => Err(RecordsFault::Refused),
    }
}

/// Makes the write of this number.
fn put<R: Records>(records: &mut R, number: usize, writes: &Writes) -> Result<(), RecordsFault> {
    match number {
        0 => records.put_tried(writes.ballot),
        1 => records.put_promised(writes.ballot),
        2 => put_vote(records, 1, writes.ballot, &writes.channel),
        _ => put_vote(records, 2, writes.ballot, &writes.cut),
    }
}

/// How many writes are made, and why the next isn't.
fn put_all<R: Records>(records: &mut R, writes: &Writes) -> Reached {
    for number in 0..4usize {
        if let Err(fault) = put(records, number, writes) {
            return Reached {
                is_open: true,
                made: number,
                fault: Some(fault),
            };
        }
    }
    Reached {
        is_open: true,
        made: 4,
        fault: None,
    }
}

/// Where the files don't open.
const UNOPENED: Reached = Reached {
    is_open: false,
    made: 0,
    fault: None,
};

impl RecordsUse for &Writes {
    type Answer = Reached;

    fn use_records<R: Records>(self, _alloc: Global, records: &mut R) -> Result<Reached, Fail> {
        Ok(put_all(records, self))
    }
}

/// Opens the files and makes the writes: how far they came, and the files as the stop left them.
fn written(
    alloc: Global,
    files: Files<Fused>,
    writes: &Writes,
) -> Result<(Reached, Files<Fused>), Fail> {
    match used_in(alloc, files, Way::Plain, writes)? {
        (Ok(reached), files) => Ok((reached, files)),
        (Err(_), files) => Ok((UNOPENED, files)),
    }
}

/// The number of writes after which the records hold this.
fn made_of(text: &str) -> Option<usize> {
    CONTENTS.iter().position(|content| *content == text)
}

/// What the records in the files hold.
fn content_of(alloc: Global, files: Files<Fused>) -> Result<String, Fail> {
    let (content, _) = answer_in(alloc, files, Way::Plain, ReadsContent)?;
    Ok(content)
}

/// What the files hold, by a node's number of writes. Every database that is found opens, and holds
/// one of `CONTENTS`.
fn held(alloc: Global, bodies: &Bodies, which: (bool, bool)) -> Result<usize, Fail> {
    let text = content_of(alloc, found(alloc, bodies, which)?)?;
    match made_of(text.as_str()) {
        Some(made) => Ok(made),
        None => Err(Fail::new("it holds something else")),
    }
}

/// Whether a stop that came after so many writes may leave so many. A write that was refused isn't
/// there.
fn may_leave(reached: Reached, made: usize) -> bool {
    match reached.fault {
        Some(RecordsFault::Broken) => made == reached.made
            || made == reached.made.saturating_add(1),
        _ => made == reached.made,
    }
}

/// Whatever is found of the files holds what was written before, or that and the one write at which
/// they stopped.
fn all_held(alloc: Global, reached: Reached, bodies: &Bodies) -> Result<(), Fail> {
    for which in FOUND {
        if is_again(bodies, which) {
            continue;
        }
        let made = held(alloc, bodies, which)?;
        if !may_leave(reached, made) {
            return Err(Fail::new(format_args!("{which:?}: {made} of {}", reached.made)));
        }
    }
    Ok(())
}

/// How far the writes come that are stopped after so many calls on a file, where what is left of
/// them is what may be.
fn stopped_at(
    alloc: Global,
    writes: &Writes,
    stopped: Stopped,
    calls: u64,
) -> Result<Reached, Fail> {
    let files = stopping(alloc, (&[], &[]), stopped, calls)?;
    let (reached, files) = written(alloc, files, writes)?;
    let bodies = left_behind(alloc, files)?;
    all_held(alloc, reached, &bodies)?;
    Ok(reached)
}

/// Where the writes stopped: 0 as the files were opened, and then by the write. None where they
/// went through.
fn place_of(reached: Reached) -> Option<usize> {
    if !reached.is_open {
        return Some(0);
    }
    match reached.fault {
        Some(_) => Some(reached.made.saturating_add(1)),
        None => None,
    }
}

fn counted(mut counts: [u64; 5], place: usize) -> [u64; 5] {
    if let Some(count) = counts.get_mut(place) {
        *count = count.saturating_add(1);
    }
    counts
}

/// How many stops come as the files are opened, and at each write.
fn stops(alloc: Global, stopped: Stopped) -> Result<[u64; 5], Fail> {
    let writes = first_writes(alloc)?;
    let mut counts = [0u64; 5];
    for calls in 0..500u64 {
        match place_of(stopped_at(alloc, &writes, stopped, calls)?) {
            Some(place) => counts = counted(counts, place),
            None => return Ok(counts),
        }
    }
    Err(Fail::new("the writes never go through"))
}

/// A stop comes as the files are opened, and at each write.
fn is_stopped_everywhere(counts: [u64; 5]) -> bool {
    counts.iter().all(|count| *count > 0)
}

#[test]
fn each_file_stops(rt: HostRuntime) -> Result<(), Fail> {
    for stopped in [Stopped::Database, Stopped::Log] {
        let counts = stops(rt.alloc(), stopped)?;
        assert!(rt; is_stopped_everywhere(counts), "{counts:?}");
    }
    Ok(())
}
