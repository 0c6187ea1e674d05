//! Six writes of a node that are made at once, where a file stops or slips at one call in turn, and a copy of what they
//! leave.

use crate::files::{Bodies, FOUND, Stopped, found, is_again, left_behind, stopping};
use crate::slips::slipping;
use crate::uses::{
    ReadsContent, StoreUse, Way, answer_in, ballot, content, number, place, put_vote, used_files,
};
use acceptor::{Records, RecordsFault};
use acceptor_store::SqlRecords;
use ballots::{NodeId, Place, Value};
use node_writes::{WriteBytes, learned, promised, tried, vote};
use sqlite::Connection;
use std::alloc::Global;
use std::test::Fail;
use store_anew::OpensAnew;

/// What the records hold before the writes.
const BEFORE: &str = "0 0";

/// What they hold after them: of two votes at one place the later one.
const AFTER: &str = "8 24 1 24 [3] 2 24 [4, 5]";

/// The same with the learned values.
const AFTER_WHOLE: &str = "8 24 1 24 [3] 2 24 [4, 5] learned 1 [3]";

pub fn node() -> Result<NodeId, Fail> {
    Ok(NodeId::new(1).ok_or("a node")?)
}

/// A ballot tried and promised, two votes at one place, one at another, and a learned value.
pub fn six(node: NodeId) -> Result<[WriteBytes; 6], Fail> {
    let low = ballot(16)?;
    let high = ballot(24)?;
    let first = place(1)?;
    Ok([
        tried(node, ballot(8)?),
        promised(node, low),
        vote(node, first, low, &[1, 2]),
        vote(node, first, high, &[3]),
        vote(node, place(2)?, high, &[4, 5]),
        learned(node, first, &[3]),
    ])
}

/// How the writes ended: whether the records opened, and by which fault of the writes, if there was one.
#[derive(Clone, Copy)]
struct Ended {
    is_open: bool,
    fault: Option<RecordsFault>,
}

const UNOPENED: Ended = Ended {
    is_open: false,
    fault: None,
};

/// What is done with records over any store.
trait BatchUse: Drop {
    /// What comes of it.
    type Answer: Drop;

    fn use_batch<S: OpensAnew>(
        self,
        alloc: Global,
        records: &mut SqlRecords<S>,
    ) -> Result<Self::Answer, Fail>;
}

/// Opens records over a connection, uses them, and closes them.
#[derive(Drop)]
struct OpensFor<U: BatchUse>(U);

fn used_then<S: OpensAnew, U: BatchUse>(
    alloc: Global,
    mut records: SqlRecords<S>,
    user: U,
) -> Result<(Option<U::Answer>, S), Fail> {
    let answer = user.use_batch(alloc, &mut records);
    let store = records.into_store();
    let answer = answer?;
    match store {
        Some(store) => Ok((Some(answer), store)),
        None => Err(Fail::new("no store")),
    }
}

impl<U: BatchUse> StoreUse for OpensFor<U> {
    type Answer = Option<U::Answer>;

    fn use_store<S: OpensAnew>(
        self,
        alloc: Global,
        conn: Connection<S>,
    ) -> Result<(Option<U::Answer>, S), Fail> {
        match SqlRecords::open(alloc, conn) {
            Ok(records) => used_then(alloc, records, self.0),
            Err((_, store)) => Ok((None, store)),
        }
    }
}

/// Makes the six writes.
#[derive(Drop)]
struct PutsAll;

impl BatchUse for PutsAll {
    type Answer = Ended;

    fn use_batch<S: OpensAnew>(
        self,
        _alloc: Global,
        records: &mut SqlRecords<S>,
    ) -> Result<Ended, Fail> {
        let node = node()?;
        Ok(Ended {
            is_open: true,
            fault: records.put_all(node, &six(node)?).err(),
        })
    }
}

/// Whether the files hold the writes. It fails where they hold anything but all or none.
fn holds_all(alloc: Global, bodies: &Bodies, which: (bool, bool)) -> Result<bool, Fail> {
    let files = found(alloc, bodies, which)?;
    let (text, _) = answer_in(alloc, files, Way::Plain, ReadsContent)?;
    match text.as_str() {
        BEFORE => Ok(false),
        AFTER => Ok(true),
        other => Err(Fail::new(format_args!("it holds {other}"))),
    }
}

/// Whether writes that ended so may be there.
fn may_hold(ended: Ended, all: bool) -> bool {
    match ended.fault {
        Some(RecordsFault::Broken) => true,
        Some(_) => !all,
        None => all == ended.is_open,
    }
}

/// Whatever is found of the files holds all writes or none, as they ended.
fn all_or_none(alloc: Global, ended: Ended, bodies: &Bodies) -> Result<(), Fail> {
    for which in FOUND {
        if is_again(bodies, which) {
            continue;
        }
        let all = holds_all(alloc, bodies, which)?;
        if !may_hold(ended, all) {
            return Err(Fail::new(format_args!("{which:?}: {all} after {:?}", ended.fault)));
        }
    }
    Ok(())
}

/// How the writes end where a file stops after so many calls.
fn stopped_at(alloc: Global, stopped: Stopped, calls: u64) -> Result<Ended, Fail> {
    let files = stopping(alloc, (&[], &[]), stopped, calls)?;
    let (answer, files) = used_files(alloc, files, OpensFor(PutsAll))?;
    let ended = answer.unwrap_or(None).unwrap_or(UNOPENED);
    all_or_none(alloc, ended, &left_behind(alloc, files)?)?;
    Ok(ended)
}

/// How many stops come at the writes.
fn stops(alloc: Global, stopped: Stopped) -> Result<u64, Fail> {
    let mut count = 0u64;
    for calls in 0..500u64 {
        let ended = stopped_at(alloc, stopped, calls)?;
        if ended.fault.is_some() {
            count = count.saturating_add(1);
        } else if ended.is_open {
            return Ok(count);
        }
    }
    Err(Fail::new("the writes never go through"))
}

#[test]
fn each_stop_leaves_all_or_none(rt: HostRuntime) -> Result<(), Fail> {
    for stopped in [Stopped::Database, Stopped::Log] {
        let count = stops(rt.alloc(), stopped)?;
        assert!(rt; count > 0, "{count}");
    }
    Ok(())
}

/// What may be found where the writes failed so and the file answers again: after a refusal nothing, and then they go
/// through, and after a break all or none.
fn goes_on<S: OpensAnew>(
    alloc: Global,
    records: &mut SqlRecords<S>,
    fault: RecordsFault,
) -> Result<bool, Fail> {
    if fault == RecordsFault::Broken {
        if records.reopen().is_err() {
            return Ok(true);
        }
        let text = content(alloc, records)?;
        return Ok(text.as_str() == BEFORE || text.as_str() == AFTER);
    }
    let refused = content(alloc, records)?;
    let node = node()?;
    records.put_all(node, &six(node)?)?;
    let made = content(alloc, records)?;
    Ok(refused.as_str() == BEFORE && made.as_str() == AFTER)
}

/// Makes the six writes, and goes on where that failed: whether it failed.
#[derive(Drop)]
struct GoesOn;

impl BatchUse for GoesOn {
    type Answer = bool;

    fn use_batch<S: OpensAnew>(
        self,
        alloc: Global,
        records: &mut SqlRecords<S>,
    ) -> Result<bool, Fail> {
        let node = node()?;
        match records.put_all(node, &six(node)?) {
            Ok(()) => Ok(false),
            Err(fault) if goes_on(alloc, records, fault)? => Ok(true),
            Err(fault) => Err(Fail::new(format_args!("after {fault}"))),
        }
    }
}

/// How many calls on a file have the writes fail where it slips at them.
fn slips(alloc: Global, which: Stopped) -> Result<u64, Fail> {
    let mut count = 0u64;
    for calls in 0..500u64 {
        let files = slipping(alloc, which, calls);
        match used_files(alloc, files, OpensFor(GoesOn))?
            .0
            .unwrap_or(None)
        {
            Some(true) => count = count.saturating_add(1),
            Some(false) => return Ok(count),
            None => {}
        }
    }
    Err(Fail::new("the writes never go through"))
}

#[test]
fn each_slip_leaves_all_or_none(rt: HostRuntime) -> Result<(), Fail> {
    for which in [Stopped::Database, Stopped::Log] {
        let count = slips(rt.alloc(), which)?;
        assert!(rt; count > 0, "{count}");
    }
    Ok(())
}

/// Place and bytes of each learned value, behind this text.
fn with_learned(alloc: Global, mut text: String, rows: &[(Place, Value)]) -> Result<String, Fail> {
    for (place, value) in rows {
        let row = format!(in alloc; " learned {} {:?}", place.number(), value.as_slice())?;
        text.push_str(row.as_str())?;
    }
    Ok(text)
}

fn whole<R: Records>(alloc: Global, records: &mut R) -> Result<String, Fail> {
    let text = content(alloc, records)?;
    let rows = records.learned_from(place(1)?)?;
    with_learned(alloc, text, rows.as_slice())
}

/// The promised ballot once all votes are in the lowest one: that of the promised row.
fn row_of<R: Records>(alloc: Global, records: &mut R) -> Result<u64, Fail> {
    put_vote(alloc, records, (1, 8, 1))?;
    put_vote(alloc, records, (2, 8, 1))?;
    Ok(number(records.promised()?))
}

/// What the records hold, and their promised row.
fn whole_and_row<R: Records>(alloc: Global, records: &mut R) -> Result<(String, u64), Fail> {
    let text = whole(alloc, records)?;
    Ok((text, row_of(alloc, records)?))
}

/// The same of records that were copied.
fn copy_of<S: OpensAnew>(
    alloc: Global,
    records: &mut SqlRecords<S>,
) -> Result<(String, u64), Fail> {
    let mut copy = records.copied()?;
    whole_and_row(alloc, &mut copy)
}

/// Makes the six writes, and copies the records.
#[derive(Drop)]
struct Copies;

impl BatchUse for Copies {
    type Answer = (String, u64);

    fn use_batch<S: OpensAnew>(
        self,
        alloc: Global,
        records: &mut SqlRecords<S>,
    ) -> Result<(String, u64), Fail> {
        let node = node()?;
        records.put_all(node, &six(node)?)?;
        copy_of(alloc, records)
    }
}

/// Writes that spell one of another node, and then a batch in which the promised row falls.
#[derive(Drop)]
struct PutsStrange;

impl BatchUse for PutsStrange {
    type Answer = (bool, String);

    fn use_batch<S: OpensAnew>(
        self,
        alloc: Global,
        records: &mut SqlRecords<S>,
    ) -> Result<(bool, String), Fail> {
        let node = node()?;
        let other = NodeId::new(2).ok_or("a node")?;
        let strange = [tried(node, ballot(8)?), tried(other, ballot(16)?)];
        let is_refused = records.put_all(node, &strange) == Err(RecordsFault::Refused);
        let is_refused = is_refused && content(alloc, records)?.as_str() == BEFORE;
        records.put_all(
            node,
            &[promised(node, ballot(16)?), promised(node, ballot(8)?)],
        )?;
        Ok((is_refused, content(alloc, records)?))
    }
}

/// Uses records in empty files.
fn used_anew<U: BatchUse>(alloc: Global, user: U) -> Result<U::Answer, Fail> {
    let files = stopping(alloc, (&[], &[]), Stopped::Log, u64::MAX)?;
    Ok(
        used_files(alloc, files, OpensFor(user))?
            .0
            .unwrap_or(None)
            .ok_or("no records")?,
    )
}

#[test]
fn a_copy_has_the_content(rt: HostRuntime) -> Result<(), Fail> {
    let (text, row) = used_anew(rt.alloc(), Copies)?;
    assert!(rt; text.as_str() == AFTER_WHOLE, "{text}");
    assert!(rt; row == 16, "{row}");
    Ok(())
}

#[test]
fn strange_writes_are_refused(rt: HostRuntime) -> Result<(), Fail> {
    let (is_refused, text) = used_anew(rt.alloc(), PutsStrange)?;
    assert!(rt; is_refused);
    assert!(rt; text.as_str() == "0 8", "{text}");
    Ok(())
}
