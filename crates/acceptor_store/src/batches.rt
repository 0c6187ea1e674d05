//! Writes of a node that are made all at once, and a copy of all that the tables hold.

ghost use Rattle.std.specs.Prelude.{◌≡◌, ◌≤◌, ℕ, List, [], Err, IfErr, IfOk, IfSome, OnOk, Some, not, true};
ghost use Rattle.ballots.specs.Ballots.{number_of};
ghost use Rattle.ballots.specs.Rows.{put};
ghost use Rattle.acceptor.specs.Calls.{Accounts, KeepsTrust};
ghost use Rattle.acceptor.specs.Content.{AreRowsFrom, Content, IsSound, after_write, no_content};
ghost use Rattle.acceptor.specs.Found.{Holds, Keeps};
ghost use Rattle.node_writes.specs.Rows.{row_write};
ghost use Rattle.node_writes.specs.Writes.{HasStrange, LeadTo};
ghost use Rattle.sqlite.specs.Held.{state};
ghost use Rattle.sqlite.specs.State.{HasCleanDisk, Survives};
ghost use Rattle.acceptor_store_parts.specs.Serves.{DoesNotServe, Serves, ServesFor, StaysOpen, StillServes};
ghost use Rattle.acceptor_store_parts.specs.Stops.{LeavesOpen};
ghost use Rattle.acceptor_store.specs.Batches.{WritesAll};
ghost use Rattle.acceptor_store.specs.Counting.{HasCountedAll, MayHaveCountedAll};
ghost use Rattle.acceptor_store.specs.Linked.{AreNumbersOf, IsHonest, MayFind, ServesKnown, is_clean_in, is_honest};

use crate::known::{Numbers, ballots_in, is_below, next_count, numbers_of};
use crate::{SqlRecords, end};
use acceptor::{PlainRecords, Records, RecordsFault};
use acceptor_store_parts::{Owner, Stop};
use ballots::{Ballot, Cast, NodeId, Place, Value};
use node_writes::{Row, WriteBytes, are_whole, row_of};
use sqlite::{Alter, Connection};
use std::alloc::Global;
use store_anew::OpensAnew;

/// Writes of a node, in order.
#[derive(Clone, Copy)]
struct Batch<'a> {
    id: NodeId,
    writes: &'a [WriteBytes],
}

/// The numbers once a ballot is promised, and none where it is below the promised one.
fn promised_too(before: Numbers, ballot: Ballot) -> Option<Numbers>
    ensures { IfSome result (λ n. (number_of before.promised ≤ ballot) × (n.tried ≡ before.tried) × (n.promised ≡ Some ballot)) }
{
    if is_below(ballot, before.promised) {
        return None;
    }
    Some(Numbers {
        tried: before.tried,
        promised: Some(ballot),
        count: before.count,
    })
}

/// The numbers once a row is written, and none where only the votes can tell.
fn raised(before: Numbers, row: Row) -> Option<Numbers>
    ensures { IfSome result (λ n. (c : Content) (v : List ℕ) → AreNumbersOf before c → AreNumbersOf n (after_write c (row_write row v))) }
{
    match row {
        Row::Nothing => Some(before),
        Row::Tried(ballot) => Some(Numbers {
            tried: Some(ballot),
            promised: before.promised,
            count: before.count,
        }),
        Row::Promised(ballot) => promised_too(before, ballot),
        Row::Vote(_, ballot) => promised_too(before, ballot),
        Row::Learned(_) => Some(before),
    }
}

/// The numbers once these are written, and none where only the votes can tell.
fn raised_by_all(before: Numbers, id: NodeId, writes: &[WriteBytes]) -> Option<Numbers>
    ensures { IfSome result (λ n. (c : Content) → AreNumbersOf before c → (last : Content) × LeadTo id writes.now c last × AreNumbersOf n last) }
{
    let mut numbers = before;
    for bytes in writes {
        let row = row_of(bytes, id)?;
        numbers = raised(numbers, row)?;
    }
    Some(numbers)
}

/// Makes the writes in one transaction, and gives the numbers then. Only where none are known they are read. Where the
/// count is at its end, they are Refused.
fn all_written<S: Alter>(
    alloc: Global,
    conn: &mut Connection<S>,
    owner: Option<Owner>,
    before: Numbers,
    batch: &Batch<'_>,
) -> Result<Numbers, Stop>
    requires { ¬ HasStrange batch.now.id batch.now.writes.now }
    ensures value { HasCleanDisk (state S.Store conn.new) → IfOk result (λ n. (c last : Content)
        → ServesKnown owner before.count (state S.Store conn.old) c → AreNumbersOf before c
        → LeadTo batch.now.id batch.now.writes.now c last → AreNumbersOf n last) }
    ensures ok { HasCleanDisk (state S.Store conn.new) → IfOk result (λ n. HasCountedAll owner before.count n.count batch.now.id batch.now.writes.now
        (state S.Store conn.old) (state S.Store conn.new)) }
    ensures err { HasCleanDisk (state S.Store conn.new) → IfErr result (λ e. LeavesOpen e → StillServes (state S.Store conn.old) (state S.Store conn.new)) }
    ensures survives { Survives (state S.Store conn.old) (state S.Store conn.new)
        (MayHaveCountedAll owner before.count batch.now.id batch.now.writes.now (state S.Store conn.old)) }
{
    let next = next_count(before.count)?;
    let known = raised_by_all(before, batch.id, batch.writes);
    match acceptor_store_parts::put_rows(conn, batch.id, batch.writes, next) {
        Ok(()) => {}
        Err(stop) => return Err(stop),
    }
    if let Some(numbers) = known {
        return Ok(numbers.at(next));
    }
    match numbers_of(alloc, conn, owner, next) {
        Ok(numbers) => Ok(numbers),
        Err(_) => Err(Stop::Down),
    }
}

fn copy_tried(records: &mut PlainRecords, ballot: Ballot) -> Result<(), Stop>
    ensures { OnOk result (records.new ≡ record records.old { tried = ballot }) }
{
    match records.put_tried(ballot) {
        Ok(()) => Ok(()),
        Err(_) => Err(Stop::Memory),
    }
}

fn copy_row(records: &mut PlainRecords, ballot: Ballot) -> Result<(), Stop>
    ensures { OnOk result (records.new ≡ record records.old { row = ballot }) }
{
    match records.put_promised(ballot) {
        Ok(()) => Ok(()),
        Err(_) => Err(Stop::Memory),
    }
}

/// Records in memory of these ballots alone.
fn of_ballots(
    alloc: Global,
    tried: Option<Ballot>,
    row: Option<Ballot>,
) -> Result<PlainRecords, Stop>
    ensures { IfOk result (λ r. r ≡ record no_content { tried = number_of tried; row = number_of row }) }
{
    let mut records = PlainRecords::new(alloc);
    if let Some(ballot) = tried {
        copy_tried(&mut records, ballot)?;
    }
    if let Some(ballot) = row {
        copy_row(&mut records, ballot)?;
    }
    Ok(records)
}

fn copy_vote(alloc: Global, records: &mut PlainRecords, vote: &(u64, Cast)) -> Result<(), Stop>
    ensures { OnOk result (records.new ≡ record records.old { votes = put records.old.votes vote.now.0 vote.now.1 }) }
{
    let Some(place) = Place::new(vote.0) else {
        return Err(Stop::Down);
    };
    let Some(value) = Value::new(vote.1.value.copy(alloc)?) else {
        return Err(Stop::Down);
    };
    match records.put_vote(place, vote.1.ballot, &value) {
        Ok(()) => Ok(()),
        Err(_) => Err(Stop::Memory),
    }
}

/// Puts the votes into records that have none.
fn copy_votes(alloc: Global, records: &mut PlainRecords, votes: &[(u64, Cast)]) -> Result<(), Stop>
    ensures { OnOk result (AreRowsFrom 1 votes.now → records.old.votes ≡ [] → records.new ≡ record records.old { votes = votes.now }) }
{
    for vote in votes {
        copy_vote(alloc, records, vote)?;
    }
    Ok(())
}

fn copy_learned(records: &mut PlainRecords, row: &(Place, Value)) -> Result<(), Stop>
    ensures { OnOk result (records.new ≡ record records.old { learned = put records.old.learned row.now.0 row.now.1 }) }
{
    match records.put_learned(row.0, &row.1) {
        Ok(()) => Ok(()),
        Err(_) => Err(Stop::Memory),
    }
}

/// Puts the learned values into records that have none.
fn copy_all_learned(records: &mut PlainRecords, rows: &[(Place, Value)]) -> Result<(), Stop>
    ensures { OnOk result (AreRowsFrom 1 rows.now → records.old.learned ≡ [] → records.new ≡ record records.old { learned = rows.now }) }
{
    for row in rows {
        copy_learned(records, row)?;
    }
    Ok(())
}

/// Records in memory of these ballots and rows.
fn of_rows(
    alloc: Global,
    ballots: (Option<Ballot>, Option<Ballot>),
    votes: &[(u64, Cast)],
    learned: &[(Place, Value)],
) -> Result<PlainRecords, Stop>
    ensures { IfOk result (λ r. (c : Content) → IsSound c → number_of ballots.0 ≡ c.tried → number_of ballots.1 ≡ c.row → votes.now ≡ c.votes
        → learned.now ≡ c.learned → r ≡ c) }
{
    let mut records = of_ballots(alloc, ballots.0, ballots.1)?;
    copy_votes(alloc, &mut records, votes)?;
    copy_all_learned(&mut records, learned)?;
    Ok(records)
}

/// All learned values.
fn all_learned<S: Alter>(
    alloc: Global,
    conn: &mut Connection<S>,
) -> Result<Vec<(Place, Value)>, Stop>
    ensures value { HasCleanDisk (state S.Store conn.new) → IfOk result (λ rows. (c : Content) → Serves (state S.Store conn.old) c → rows.items ≡ c.learned) }
    ensures stays { HasCleanDisk (state S.Store conn.new) → StaysOpen result → StillServes (state S.Store conn.old) (state S.Store conn.new) }
    ensures survives { Survives (state S.Store conn.old) (state S.Store conn.new) (λ _. DoesNotServe (state S.Store conn.old)) }
{
    let Some(first) = Place::new(1) else {
        return Err(Stop::Down);
    };
    acceptor_store_parts::find(alloc, conn, first)
}

/// Records in memory with the content of the tables.
fn copy_of<S: Alter>(
    alloc: Global,
    conn: &mut Connection<S>,
    owner: Option<Owner>,
) -> Result<PlainRecords, Stop>
    ensures value { HasCleanDisk (state S.Store conn.new) → IfOk result (λ r. (c : Content) → ServesFor owner (state S.Store conn.old) c → r ≡ c) }
    ensures stays { HasCleanDisk (state S.Store conn.new) → StaysOpen result → StillServes (state S.Store conn.old) (state S.Store conn.new) }
    ensures survives { Survives (state S.Store conn.old) (state S.Store conn.new) (λ _. DoesNotServe (state S.Store conn.old)) }
{
    let (tried, row, votes) = ballots_in(alloc, conn, owner)?;
    let learned = all_learned(alloc, conn)?;
    of_rows(alloc, (tried, row), votes.rows(), learned.as_slice())
}

impl<S: OpensAnew> SqlRecords<S> {
    /// Makes these writes of a node in order, all in one transaction: after Ok all are committed. After Refused and
    /// OutOfMemory none is there, and after Broken none or all of them.
    ///
    /// Bytes that spell no write of this node are Refused, before anything is written. Where a ballot is below the
    /// promised one, the numbers are read once more behind the commit, and what fails there is Broken. No node makes
    /// such a batch.
    pub fn put_all(&mut self, id: NodeId, writes: &[WriteBytes]) -> Result<(), RecordsFault>
        ensures writes { IsHonest S.Store self.new
            → WritesAll result (MayFind S.Store self.old.owner self.old.held) (MayFind S.Store self.new.owner self.new.held) id writes.now }
        ensures strange { self.old.is_up ≡ true → HasStrange id writes.now → result ≡ Err RecordsFault.Refused }
        ensures trust { KeepsTrust (is_honest S.Store) (λ r. is_clean_in S.Store r.held) self.old self.new }
        ensures account { Accounts (λ r. r.failures) (λ r. not r.is_up) self.old result self.new }
    {
        let batch = Batch { id, writes };
        let alloc = self.alloc;
        if !self.is_up {
            return Err(end(&mut self.is_up, &mut self.failures, Stop::Down));
        }
        if !are_whole(writes, id) {
            return Err(end(&mut self.is_up, &mut self.failures, Stop::Refused));
        }
        let Some(conn) = &mut self.conn else {
            return Err(end(&mut self.is_up, &mut self.failures, Stop::Down));
        };
        match all_written(alloc, conn, self.owner, self.numbers, &batch) {
            Ok(known) => {
                self.numbers = known;
                Ok(())
            }
            Err(stop) => Err(end(&mut self.is_up, &mut self.failures, stop)),
        }
    }

    /// Records in memory with the content of the tables: the ballot tried, the promised row itself, all votes and all
    /// learned values. OutOfMemory is also answered where the copy finds no room.
    pub fn copied(&mut self) -> Result<PlainRecords, RecordsFault>
        ensures value { IsHonest S.Store self.new → IfOk result (λ r. (c : Content) → Holds (MayFind S.Store self.old.owner self.old.held) c → r ≡ c) }
        ensures sound { IsHonest S.Store self.new → OnOk result ((c : Content) → Holds (MayFind S.Store self.old.owner self.old.held) c → IsSound c) }
        ensures kept { IsHonest S.Store self.new → Keeps result (MayFind S.Store self.old.owner self.old.held) (MayFind S.Store self.new.owner self.new.held) }
        ensures trust { KeepsTrust (is_honest S.Store) (λ r. is_clean_in S.Store r.held) self.old self.new }
        ensures account { Accounts (λ r. r.failures) (λ r. not r.is_up) self.old result self.new }
    {
        let alloc = self.alloc;
        if !self.is_up {
            return Err(end(&mut self.is_up, &mut self.failures, Stop::Down));
        }
        let Some(conn) = &mut self.conn else {
            return Err(end(&mut self.is_up, &mut self.failures, Stop::Down));
        };
        match copy_of(alloc, conn, self.owner) {
            Ok(records) => Ok(records),
            Err(stop) => Err(end(&mut self.is_up, &mut self.failures, stop)),
        }
    }
}
