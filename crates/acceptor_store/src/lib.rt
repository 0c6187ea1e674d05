//! Records in SQL tables.
#![tactic(auto)]

mod anew;
mod batches;
mod known;
mod opening;
mod owned;

ghost use Rattle.std.specs.Prelude.{◌≡◌, ◌≤◌, ◌↔◌, ◌⊎◌, true, false, not, if◌then◌else◌, None, Some};
ghost use Rattle.std.specs.Prelude.{IfOk, IfErr, IfSome, IsErrAnd, IsSome, IsSomeAnd, IsTrue, OnOk};
ghost use Rattle.acceptor.specs.Calls.{Accounts, KeepsTrust, Writes};
ghost use Rattle.acceptor.specs.Faults.{BreaksByReopen, CountsFaults, HasRisen, IsHarmless, IsStoreFault};
ghost use Rattle.acceptor.specs.declared.records.RecordsFault.TheVariants.{OutOfMemory};
ghost use Rattle.acceptor.specs.Content.{Content, IsSound, promised};
ghost use Rattle.acceptor.specs.Found.{Holds, HoldsEither, AddsNothing, FindsSame, Keeps};
ghost use Rattle.sqlite.specs.Tree.{Trees};
ghost use Rattle.sqlite.specs.State.{HasCleanDisk, Survives};
ghost use Rattle.sqlite.specs.Held.{AreDatabases, state};
ghost use Rattle.sqlite_trees.specs.View.{IsClean};
ghost use Rattle.acceptor_store_parts.specs.Asked.{write_of};
ghost use Rattle.acceptor_store_parts.specs.Foreign.{IsForeignSchema};
ghost use Rattle.acceptor_store_parts.specs.Counts.{ShowsCount};
ghost use Rattle.acceptor_store_parts.specs.Owned.{IsCount, schema_for};
ghost use Rattle.acceptor_store_parts.specs.Serves.{DoesNotServe, ServesFor, StillServes};
ghost use Rattle.acceptor_store_parts.specs.Stops.{LeavesOpen, leaves_open};
ghost use Rattle.acceptor_store.specs.Stopped.{answer_of};
ghost use Rattle.acceptor_store.specs.Linked.{MayFind, IsHonest, is_clean_in, is_honest, CannotBeRead, IsServing};
ghost use Rattle.acceptor_store.specs.Linked.{AreNumbersOf, StaysKnown, Tells};
ghost use Rattle.acceptor_store.specs.Linked.{Had, HasFurther, IsLeftWhole, IsRefused, SeesForeign};

use crate::anew::{end_unopened, opened_anew};
use crate::known::{Numbers, numbers_of, written};
use acceptor::{Records, RecordsFault};
use acceptor_store_parts::{Answer, Owner, Put, Stop, version_of_owner};
use ballots::{Ballot, Cast, Place, Value, Votes};
pub use owned::OwnerFault;
use sqlite::{Alter, Connection, Row};
use std::alloc::Global;
use std::marker::Model;
use std::snapshot::Snapshot;
use store_anew::OpensAnew;
use thiserror::Error;

/// Records in tables, which this connection alone writes.
#[derive(Drop)]
pub struct SqlRecords<S: OpensAnew> {
    alloc: Global,
    /// None where a reopen couldn't open the store.
    conn: Option<Connection<S>>,
    /// What the connection was before the last reopen. It has no bytes: contracts alone read it.
    was: Snapshot<Option<Connection<S>>>,
    is_up: bool,
    /// While it is up, those of the tables.
    numbers: Numbers,
    failures: u64,
    owner: Option<Owner>,
}

impl<S: OpensAnew> Model for SqlRecords<S> {
    ghost use Rattle.std.specs.Prelude.{is_some};
    ghost use Rattle.acceptor_store.specs.Linked.{Linked, linked_code, held_of, IsLinked};

    ghost Value = { Linked S };

    ghost coded = { linked_code S.code };

    ghost view = { λ r. record {
      held = held_of r.conn r.was.value;
      is_up = r.is_up;
      is_linked = is_some r.conn;
      numbers = r.numbers;
      failures = r.failures;
      owner = r.owner;
    } };

    ghost invariant = { λ r. IsLinked S.Store r.owner r.conn r.was.value r.is_up r.numbers };
}

/// The count after one more failure. At the top it stays.
fn risen(failures: u64) -> u64
    ensures risen { HasRisen failures result }
    ensures counts { failures ≤ result }
{
    failures.saturating_add(1)
}

/// Notes how a call ended that failed.
fn end(is_up: &mut bool, failures: &mut u64, stop: Stop) -> RecordsFault
    ensures value { result ≡ answer_of stop }
    ensures up { is_up.new ≡ (if leaves_open stop then is_up.old else false) }
    ensures harmless { IsHarmless result → LeavesOpen stop }
    ensures open { LeavesOpen stop → IsHarmless result }
    ensures count { (failures.old ≤ failures.new) × (IsStoreFault result → HasRisen failures.old failures.new) × (result ≡ OutOfMemory
        → failures.new ≡ failures.old) }
{
    match stop {
        Stop::Memory => RecordsFault::OutOfMemory,
        Stop::Refused => {
            *failures = risen(*failures);
            RecordsFault::Refused
        }
        Stop::Down => {
            *failures = risen(*failures);
            *is_up = false;
            RecordsFault::Broken
        }
    }
}

/// The count beside this owner, where the rows of facts show it.
fn count_beside(rows: &[Row], owner: Owner) -> Option<Option<u64>>
    ensures { IfSome result (λ count. IsSomeAnd count (λ n. IsCount n × ShowsCount rows.now owner n)) }
{
    match acceptor_store_parts::read_facts(rows) {
        Some((found, count)) if found == owner => Some(Some(count)),
        _ => None,
    }
}

/// The count where the table of facts names this owner.
fn owner_count<S: Alter>(conn: &mut Connection<S>, owner: Owner) -> Option<Option<u64>>
    ensures serves { HasCleanDisk (state S.Store conn.new) → (state S.Store conn.old).now.schema ≡ schema_for (Some owner)
        → IfSome result (λ count. StaysKnown (Some owner) count (state S.Store conn.old) (state S.Store conn.new)) }
    ensures survives { Survives (state S.Store conn.old) (state S.Store conn.new)
        (λ _. (state S.Store conn.old).now.schema ≡ schema_for (Some owner) → ⊥) }
{
    match acceptor_store_parts::query_facts(conn) {
        Ok(rows) => count_beside(rows.as_slice(), owner),
        Err(_) => None,
    }
}

/// The count where the table of facts names this owner, and no count without one. None where it names another.
fn count_for<S: Alter>(conn: &mut Connection<S>, owner: Option<Owner>) -> Option<Option<u64>>
    ensures serves { HasCleanDisk (state S.Store conn.new) → (state S.Store conn.old).now.schema ≡ schema_for owner
        → IfSome result (λ count. StaysKnown owner count (state S.Store conn.old) (state S.Store conn.new)) }
    ensures survives { Survives (state S.Store conn.old) (state S.Store conn.new) (λ _. (state S.Store conn.old).now.schema ≡ schema_for owner → ⊥) }
{
    match owner {
        None => Some(None),
        Some(owner) => owner_count(conn, owner),
    }
}

/// The numbers with this count, where they can be read.
fn numbers_at<S: Alter>(
    alloc: Global,
    conn: &mut Connection<S>,
    owner: Option<Owner>,
    count: Option<u64>,
) -> Option<Numbers>
    ensures value { HasCleanDisk (state S.Store conn.new) → IfSome result (λ n. (c : Content)
        → ServesFor owner (state S.Store conn.old) c → AreNumbersOf n c) }
    ensures count { IfSome result (λ n. n.count ≡ count) }
    ensures stays { HasCleanDisk (state S.Store conn.new) → IfSome result (λ _. StillServes (state S.Store conn.old) (state S.Store conn.new)) }
    ensures survives { Survives (state S.Store conn.old) (state S.Store conn.new) (λ _. DoesNotServe (state S.Store conn.old)) }
{
    match numbers_of(alloc, conn, owner, count) {
        Ok(numbers) => Some(numbers),
        Err(_) => None,
    }
}

/// Tests the tables of a connection that was opened, and gives their numbers. None where they
/// are none of this owner's records, or can't be read.
fn tested<S: Alter>(
    alloc: Global,
    conn: &mut Connection<S>,
    owner: &Option<Owner>,
) -> Option<Numbers>
    ensures tells { HasCleanDisk (state S.Store conn.new) → IfSome result (Tells S.Store owner.now conn.old conn.new) }
    ensures survives { Survives (state S.Store conn.old) (state S.Store conn.new) (λ _. CannotBeRead owner.now (state S.Store conn.old)) }
{
    match opening::is_of(alloc, conn.schema(), version_of_owner(*owner)) {
        Ok(true) => {}
        _ => return None,
    }
    match count_for(conn, *owner) {
        Some(count) => numbers_at(alloc, conn, *owner, count),
        None => None,
    }
}

/// Why records weren't opened.
#[derive(Clone, Copy, Debug, PartialEq, Eq, Error)]
pub enum OpenFault {
    /// The store failed, or the files hold no database, or one that is used or declared in another
    /// way.
    #[error("Refused")]
    Refused,
    /// The store is shut, or its files can't be used.
    #[error("Broken")]
    Broken,
    /// Memory was refused.
    #[error("OutOfMemory")]
    OutOfMemory,
    /// Some of the tables are there, and no node without an owner wrote them.
    #[error("Foreign")]
    Foreign,
}

impl<S: OpensAnew> SqlRecords<S> {
    /// Records over the connection, in tables of version 2. In a database without tables they are
    /// made, and those of version 1 are made into them with equal content and nothing learned, each
    /// in one transaction.
    ///
    /// A connection in a transaction is Refused, before anything else is looked at. Then a schema
    /// that no node made is Foreign, and any other than that of a version's tables is Refused:
    /// tables that were declared otherwise, and tables, indexes or views beside them or without
    /// them. Last, numbers, votes and learned values that no node wrote are Foreign, as is a
    /// mixture of the versions; nothing was changed then. Foreign comes only where no node wrote
    /// the database.
    ///
    /// Want of memory and faults of the store come where they are met. Where it fails the store
    /// comes back, and holds what it held, whole, in the older version or in version 2.
    pub fn open(alloc: Global, conn: Connection<S>) -> Result<SqlRecords<S>, (OpenFault, S)>
        ensures holds { IfOk result (λ r. IsHonest S.Store r → (c : Content) × Had S.Store conn c × Holds (MayFind S.Store r.owner r.held) c) }
        ensures owner { IfOk result (λ r. r.owner ≡ None) }
        ensures clean { IfOk result (λ r. IsHonest S.Store r → HasCleanDisk (state S.Store conn)) }
        ensures sure { IfOk result (λ r. IsTrue (is_clean_in S.Store r.held) → IsHonest S.Store r) }
        ensures own { IfOk result (λ r. IsHonest S.Store r → SeesForeign S.Store conn → ⊥) }
        ensures whole { IfErr result (λ e. IsClean (S.Store.view e.1) → (db : Trees) → S.Store.recovers e.1 db → IsLeftWhole S.Store conn db) }
        ensures foreign { IfErr result (λ e. e.0 ≡ OpenFault.Foreign → IsClean (S.Store.view e.1) → SeesForeign S.Store conn) }
        ensures refused { IfErr result (λ e. e.0 ≡ OpenFault.Refused → IsClean (S.Store.view e.1) → IsRefused S.Store conn e.1) }
        ensures used { IsTrue (state S.Store conn).in_transaction → IsErrAnd result (λ e. e.0 ≡ OpenFault.Refused) }
        ensures unowned { (state S.Store conn).in_transaction ≡ false → IsForeignSchema (state S.Store conn).now.schema
            → IsErrAnd result (λ e. e.0 ≡ OpenFault.Foreign) }
        ensures further { (state S.Store conn).in_transaction ≡ false → HasFurther (state S.Store conn).now.schema
            → IsErrAnd result (λ e. (e.0 ≡ OpenFault.Refused) ⊎ (e.0 ≡ OpenFault.OutOfMemory)) }
    {
        let found = match opening::prepared(alloc, conn) {
            Ok(found) => found,
            Err(refused) => return Err(refused),
        };
        Ok(SqlRecords::over(alloc, found, None))
    }
}

impl<S: OpensAnew> SqlRecords<S> {
    /// The store of the records, and none after a reopen that failed. What isn't committed is
    /// rolled back, and a crash leaves nothing that it couldn't leave before.
    pub fn into_store(self) -> Option<S>
        ensures some { IsSome result ↔ IsTrue self.is_linked }
        ensures numbered { IfSome result (λ s. IsClean (S.Store.view s) → IsTrue (S.Store.view s).is_numbered) }
        ensures sound { IfSome result (λ s. IsClean (S.Store.view s) → AreDatabases (S.Store.recovers s)) }
        ensures left { IfSome result (λ s. (db : Trees) → S.Store.recovers s db → IsSomeAnd self.held (λ h. (state S.Store h).may_leave db)) }
    {
        let SqlRecords {
            alloc: _,
            conn,
            was: _,
            is_up: _,
            numbers: _,
            failures: _,
            owner: _,
        } = self;
        match conn {
            Some(conn) => Some(conn.into_store()),
            None => None,
        }
    }

    /// Records that are up, over a connection whose tables have these numbers.
    fn over(alloc: Global, found: (Connection<S>, Numbers), owner: Option<Owner>) -> SqlRecords<S>
        requires { IsServing S.Store owner found.0 true found.1 }
        ensures held { result.held ≡ Some found.0 }
        ensures owner { result.owner ≡ owner }
    {
        let conn = Some(found.0);
        SqlRecords {
            alloc,
            was: Snapshot::of(&conn),
            conn,
            is_up: true,
            numbers: found.1,
            failures: 0,
            owner,
        }
    }

    /// What the tables have there, or from there on.
    fn find<T: Answer>(&mut self, place: Place) -> Result<T, RecordsFault>
        ensures value { IsHonest S.Store self.new → IfOk result (λ x. (c : Content) → Holds (MayFind S.Store self.old.owner self.old.held) c
            → T.is_found x place c) }
        ensures sound { IsHonest S.Store self.new → OnOk result ((c : Content) → Holds (MayFind S.Store self.old.owner self.old.held) c → IsSound c) }
        ensures kept { IsHonest S.Store self.new → Keeps result (MayFind S.Store self.old.owner self.old.held) (MayFind S.Store self.new.owner self.new.held) }
        ensures trust { KeepsTrust (is_honest S.Store) (λ r. is_clean_in S.Store r.held) self.old self.new }
        ensures account { Accounts (λ r. r.failures) (λ r. not r.is_up) self.old result self.new }
    {
        let alloc = self.alloc;
        if !self.is_up {
            return Err(end(&mut self.is_up, &mut self.failures, Stop::Down));
        }
        let Some(conn) = &mut self.conn else {
            return Err(end(&mut self.is_up, &mut self.failures, Stop::Down));
        };
        match acceptor_store_parts::find(alloc, conn, place) {
            Ok(found) => Ok(found),
            Err(stop) => Err(end(&mut self.is_up, &mut self.failures, stop)),
        }
    }

    /// Writes a row.
    fn put(&mut self, put: &Put<'_>) -> Result<(), RecordsFault>
        ensures writes { IsHonest S.Store self.new
            → Writes result (MayFind S.Store self.old.owner self.old.held) (MayFind S.Store self.new.owner self.new.held) (write_of put.now) }
        ensures trust { KeepsTrust (is_honest S.Store) (λ r. is_clean_in S.Store r.held) self.old self.new }
        ensures account { Accounts (λ r. r.failures) (λ r. not r.is_up) self.old result self.new }
    {
        let alloc = self.alloc;
        if !self.is_up {
            return Err(end(&mut self.is_up, &mut self.failures, Stop::Down));
        }
        let Some(conn) = &mut self.conn else {
            return Err(end(&mut self.is_up, &mut self.failures, Stop::Down));
        };
        match written(alloc, conn, self.owner, self.numbers, put) {
            Ok(known) => {
                self.numbers = known;
                Ok(())
            }
            Err(stop) => Err(end(&mut self.is_up, &mut self.failures, stop)),
        }
    }
}

impl<S: OpensAnew> Records for SqlRecords<S> {
    ghost may_find = { λ r. MayFind S.Store r.owner r.held };

    ghost is_honest = { λ r. is_honest S.Store r };

    ghost is_clean = { λ r. is_clean_in S.Store r.held };

    ghost count_of = { λ r. r.failures };

    ghost is_broken = { λ r. not r.is_up };

    ghost finds_no_memory = { λ _ _. Unit {0} };

    // The ballots are known in memory.
    ghost finds_no_ballot = { λ _ _. ⊥ };

    ghost reopens = { λ old new. IsHonest S.Store new → AddsNothing (MayFind S.Store old.owner old.held) (MayFind S.Store new.owner new.held) };

    fn failures(&self) -> u64 {
        self.failures
    }

    fn tried(&mut self) -> Result<Option<Ballot>, RecordsFault> {
        if !self.is_up {
            return Err(end(&mut self.is_up, &mut self.failures, Stop::Down));
        }
        Ok(self.numbers.tried)
    }

    fn promised(&mut self) -> Result<Option<Ballot>, RecordsFault> {
        if !self.is_up {
            return Err(end(&mut self.is_up, &mut self.failures, Stop::Down));
        }
        Ok(self.numbers.promised)
    }

    fn vote(&mut self, place: Place) -> Result<Option<Cast>, RecordsFault> {
        self.find(place)
    }

    fn votes_from(&mut self, place: Place) -> Result<Votes, RecordsFault> {
        self.find(place)
    }

    fn learned_row(&mut self, place: Place) -> Result<Option<Value>, RecordsFault> {
        self.find(place)
    }

    fn learned_from(&mut self, place: Place) -> Result<Vec<(Place, Value)>, RecordsFault> {
        self.find(place)
    }

    fn put_tried(&mut self, ballot: Ballot) -> Result<(), RecordsFault> {
        self.put(&Put::Tried(ballot))
    }

    fn put_promised(&mut self, ballot: Ballot) -> Result<(), RecordsFault> {
        self.put(&Put::Promised(ballot))
    }

    fn put_vote(
        &mut self,
        place: Place,
        ballot: Ballot,
        value: &Value,
    ) -> Result<(), RecordsFault> {
        self.put(&Put::Vote(place, ballot, value))
    }

    fn put_learned(&mut self, place: Place, value: &Value) -> Result<(), RecordsFault> {
        self.put(&Put::Learned(place, value))
    }

    /// Where it couldn't open the store, there is no connection any more, and each later reopen is Broken: open the files
    /// anew by `open`, or by `open_as` for their owner. Where it opened the store and couldn't read the
    /// tables, the connection is kept for the next reopen.
    fn reopen(&mut self) -> Result<(), RecordsFault>
        ensures ok { IsHonest S.Store self.new → OnOk result ((a b : Content) → HoldsEither (MayFind S.Store self.old.owner self.old.held) a b
            → Holds (MayFind S.Store self.new.owner self.new.held) a ⊎ Holds (MayFind S.Store self.new.owner self.new.held) b) }
        ensures reopened { OnOk result (IsHonest S.Store self.new
            → AddsNothing (MayFind S.Store self.old.owner self.old.held) (MayFind S.Store self.new.owner self.new.held)) }
        ensures harmless { IsHonest S.Store self.new
            → IfErr result (λ e. IsHarmless e → FindsSame (MayFind S.Store self.old.owner self.old.held) (MayFind S.Store self.new.owner self.new.held)) }
        ensures kept { IsHonest S.Store self.new → AddsNothing (MayFind S.Store self.old.owner self.old.held) (MayFind S.Store self.new.owner self.new.held) }
        ensures honest { IsHonest S.Store self.new → IsHonest S.Store self.old }
        ensures trust { KeepsTrust (is_honest S.Store) (λ r. is_clean_in S.Store r.held) self.old self.new }
        ensures linked { OnOk result ((self.old.is_linked ≡ true) × (self.new.is_linked ≡ true)) }
        ensures count { CountsFaults result self.old.failures self.new.failures }
        ensures broken { BreaksByReopen result (not self.old.is_up) (not self.new.is_up) }
    {
        let conn = self.conn.take();
        let was = Snapshot::of(&conn);
        let Some(conn) = conn else {
            return Err(end(&mut self.is_up, &mut self.failures, Stop::Down));
        };
        self.was = was;
        let (fresh, numbers) = match opened_anew(self.alloc, conn, self.owner) {
            Ok(opened) => opened,
            Err(error) => return Err(end_unopened(&mut self.is_up, &mut self.failures, error)),
        };
        self.conn = Some(fresh);
        let Some(numbers) = numbers else {
            return Err(end(&mut self.is_up, &mut self.failures, Stop::Down));
        };
        self.is_up = true;
        self.numbers = numbers;
        Ok(())
    }
}
