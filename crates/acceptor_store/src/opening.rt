//! The tables of a connection, tested, made or brought to version 2 as records are opened.

ghost use Rattle.std.specs.Prelude.{◌≡◌, ◌≢◌, ◌≤◌, ◌⊎◌, Err, None, false, map, IfOk, IfErr, IsErrAnd, OnOk, IsTrue};
ghost use Rattle.std.specs.List.{AllByRecursion};
ghost use Rattle.ballots.specs.Ballots.{number_of};
ghost use Rattle.acceptor.specs.Content.{AreRowsFrom, Content};
ghost use Rattle.sqlite.specs.State.{HasCleanDisk, Survives};
ghost use Rattle.sqlite.specs.Tree.{Trees};
ghost use Rattle.sqlite.specs.Held.{state};
ghost use Rattle.sqlite_trees.specs.View.{IsClean, doubt};
ghost use Rattle.acceptor_store_parts.specs.Foreign.{HoldsNone, IsForeignSchema};
ghost use Rattle.acceptor_store_parts.specs.Rowids.{AreByRowid, IsReread};
ghost use Rattle.acceptor_store_parts.specs.Tables.{schema_of};
ghost use Rattle.acceptor_store_parts.specs.Stored.{HasLearned, KeepsLearned, IsCast, IsLearned, IsNumber, IsOfNode};
ghost use Rattle.acceptor_store_parts.specs.Stored.{learned_row, vote_row};
ghost use Rattle.acceptor_store_parts.specs.Serves.{ServesAs, IsOther};
ghost use Rattle.acceptor_store.specs.Stopped.{fault_of};
ghost use Rattle.acceptor_store.specs.Linked.{HasFurther, Examines, MakesReady, SeesForeign, HasNumbers, HasStopped};
ghost use Rattle.acceptor_store.specs.Linked.{IsUnownedVersion, StaysAs};
ghost use Rattle.acceptor_store.specs.Linked.{FailsAnew, FindsContent, IsLeftWhole, IsRefused, IsToMake};

use crate::OpenFault;
use crate::known::{Numbers, greatest_of};
use acceptor_store_parts::{Making, Stop, Version};
use ballots::{Ballot, Place, Value, Votes};
use sqlite::{Alter, Connection};
use sqlite_schema::schema::Schema;
use std::alloc::Global;

pub fn stopped(stop: Stop) -> OpenFault
    ensures value { result ≡ fault_of stop }
    ensures ours { result ≢ OpenFault.Foreign }
{
    match stop {
        Stop::Memory => OpenFault::OutOfMemory,
        Stop::Refused => OpenFault::Refused,
        Stop::Down => OpenFault::Broken,
    }
}

/// Refuses any schema but that of a version's tables alone.
fn judged(alloc: Global, schema: &Schema) -> Result<Version, OpenFault>
    ensures unowned { IsForeignSchema schema.now → IsErrAnd result (λ e. e ≡ OpenFault.Foreign) }
    ensures further { (IsForeignSchema schema.now → ⊥) → ((version : _) → schema.now ≢ schema_of version)
        → IsErrAnd result (λ e. (e ≡ OpenFault.Refused) ⊎ (e ≡ OpenFault.OutOfMemory)) }
    ensures own { IfOk result (λ version. schema.now ≡ schema_of version) }
    ensures ours { OnOk result (IsForeignSchema schema.now → ⊥) }
    ensures foreign { result ≡ Err OpenFault.Foreign → IsForeignSchema schema.now }
    ensures refused { result ≡ Err OpenFault.Refused → (version : _) → schema.now ≢ schema_of version }
{
    if acceptor_store_parts::is_foreign(schema) {
        return Err(OpenFault::Foreign);
    }
    match acceptor_store_parts::version_of(alloc, schema) {
        Ok(Some(version)) => Ok(version),
        Ok(None) => Err(OpenFault::Refused),
        Err(_) => Err(OpenFault::OutOfMemory),
    }
}

/// The ballot tried and the promised row, where the table of numbers has what a node writes in this
/// version.
fn numbers_in<S: Alter>(
    conn: &mut Connection<S>,
    version: Version,
) -> Result<(Option<Ballot>, Option<Ballot>), OpenFault>
    ensures held { HasCleanDisk (state S.Store conn.new) → IfOk result (λ n. AreByRowid version (state S.Store conn.old)
        → HasNumbers version (state S.Store conn.old).now.trees (number_of n.0) (number_of n.1)) }
    ensures fits { IfOk result (λ n. IsNumber (number_of n.0) × IsNumber (number_of n.1)) }
    ensures same { HasCleanDisk (state S.Store conn.new) → (state S.Store conn.old).now.schema ≡ schema_of version
        → OnOk result (StaysAs version (state S.Store conn.old) (state S.Store conn.new)) }
    ensures foreign { HasCleanDisk (state S.Store conn.new) → result ≡ Err OpenFault.Foreign → (c : Content) → ServesAs version (state S.Store conn.old) c
        → IsOfNode c → ⊥ }
    ensures refused { HasCleanDisk (state S.Store conn.new) → (state S.Store conn.old).now.schema ≡ schema_of version → result ≡ Err OpenFault.Refused
        → HasStopped (state S.Store conn.old) (state S.Store conn.new) }
    ensures survives { Survives (state S.Store conn.old) (state S.Store conn.new) (λ _. IsOther (state S.Store conn.old)) }
{
    let shown = match acceptor_store_parts::query_numbers(conn) {
        Ok(shown) => shown,
        Err(error) => return Err(stopped(acceptor_store_parts::stop_for(conn, error))),
    };
    match acceptor_store_parts::both_numbers(version, shown.as_slice()) {
        Some(numbers) => Ok(numbers),
        None => Err(OpenFault::Foreign),
    }
}

/// The votes, where the table of votes has what a node writes.
fn votes_in<S: Alter>(alloc: Global, conn: &mut Connection<S>) -> Result<Votes, OpenFault>
    ensures held { HasCleanDisk (state S.Store conn.new) → IfOk result (λ votes. (version : _) → AreByRowid version (state S.Store conn.old)
        → (state S.Store conn.old).now.trees 1 ≡ map vote_row votes) }
    ensures fits { IfOk result (λ votes. AllByRecursion IsCast votes × AreRowsFrom 1 votes) }
    ensures same { HasCleanDisk (state S.Store conn.new) → (version : _) → (state S.Store conn.old).now.schema ≡ schema_of version
        → OnOk result (StaysAs version (state S.Store conn.old) (state S.Store conn.new)) }
    ensures foreign { HasCleanDisk (state S.Store conn.new) → result ≡ Err OpenFault.Foreign → (version : _) (c : Content)
        → ServesAs version (state S.Store conn.old) c → IsOfNode c → ⊥ }
    ensures refused { HasCleanDisk (state S.Store conn.new) → (version : _) → (state S.Store conn.old).now.schema ≡ schema_of version
        → result ≡ Err OpenFault.Refused → HasStopped (state S.Store conn.old) (state S.Store conn.new) }
    ensures survives { Survives (state S.Store conn.old) (state S.Store conn.new) (λ _. IsOther (state S.Store conn.old)) }
{
    let rows = match acceptor_store_parts::query_all_votes(conn) {
        Ok(rows) => rows,
        Err(error) => return Err(stopped(acceptor_store_parts::stop_for(conn, error))),
    };
    let votes = match acceptor_store_parts::read_votes(alloc, rows.as_slice()) {
        Ok(votes) => votes,
        Err(Stop::Down) => return Err(OpenFault::Foreign),
        Err(stop) => return Err(stopped(stop)),
    };
    if !acceptor_store_parts::are_in_order(votes.rows()) {
        return Err(OpenFault::Foreign);
    }
    Ok(votes)
}

/// The learned values, where their table has what a node writes.
fn kept_learned<S: Alter>(
    alloc: Global,
    conn: &mut Connection<S>,
) -> Result<Vec<(Place, Value)>, OpenFault>
    ensures held { HasCleanDisk (state S.Store conn.new) → IfOk result (λ learned. (version : _) → KeepsLearned version
        → AreByRowid version (state S.Store conn.old)
        → (state S.Store conn.old).now.trees 2 ≡ map learned_row learned.items) }
    ensures fits { IfOk result (λ learned. AllByRecursion IsLearned learned.items × AreRowsFrom 1 learned.items) }
    ensures same { HasCleanDisk (state S.Store conn.new) → (version : _) → KeepsLearned version → (state S.Store conn.old).now.schema ≡ schema_of version
        → OnOk result (StaysAs version (state S.Store conn.old) (state S.Store conn.new)) }
    ensures foreign { HasCleanDisk (state S.Store conn.new) → result ≡ Err OpenFault.Foreign → (version : _) → KeepsLearned version
        → (c : Content) → ServesAs version (state S.Store conn.old) c → IsOfNode c → ⊥ }
    ensures refused { HasCleanDisk (state S.Store conn.new) → (version : _) → KeepsLearned version → (state S.Store conn.old).now.schema ≡ schema_of version
        → result ≡ Err OpenFault.Refused → HasStopped (state S.Store conn.old) (state S.Store conn.new) }
    ensures survives { Survives (state S.Store conn.old) (state S.Store conn.new)
        (λ _. (version : _) → KeepsLearned version → (state S.Store conn.old).now.schema ≡ schema_of version → ⊥) }
{
    let rows = match acceptor_store_parts::query_all_learned(conn) {
        Ok(rows) => rows,
        Err(error) => return Err(stopped(acceptor_store_parts::stop_for(conn, error))),
    };
    let learned = match acceptor_store_parts::read_learned(alloc, rows.as_slice()) {
        Ok(learned) => learned,
        Err(Stop::Down) => return Err(OpenFault::Foreign),
        Err(stop) => return Err(stopped(stop)),
    };
    if !acceptor_store_parts::are_rising(learned.as_slice()) {
        return Err(OpenFault::Foreign);
    }
    Ok(learned)
}

/// The learned values, of which version 1 has none.
fn learned_in<S: Alter>(
    alloc: Global,
    conn: &mut Connection<S>,
    version: Version,
) -> Result<Vec<(Place, Value)>, OpenFault>
    ensures held { HasCleanDisk (state S.Store conn.new) → IfOk result (λ learned. AreByRowid version (state S.Store conn.old) → (c : Content)
        → c.learned ≡ learned.items → HasLearned version (state S.Store conn.old).now.trees c) }
    ensures fits { IfOk result (λ learned. AllByRecursion IsLearned learned.items × AreRowsFrom 1 learned.items) }
    ensures same { HasCleanDisk (state S.Store conn.new) → (state S.Store conn.old).now.schema ≡ schema_of version
        → OnOk result (StaysAs version (state S.Store conn.old) (state S.Store conn.new)) }
    ensures foreign { HasCleanDisk (state S.Store conn.new) → result ≡ Err OpenFault.Foreign → (c : Content) → ServesAs version (state S.Store conn.old) c
        → IsOfNode c → ⊥ }
    ensures refused { HasCleanDisk (state S.Store conn.new) → (state S.Store conn.old).now.schema ≡ schema_of version → result ≡ Err OpenFault.Refused
        → HasStopped (state S.Store conn.old) (state S.Store conn.new) }
    ensures survives { Survives (state S.Store conn.old) (state S.Store conn.new) (λ _. (state S.Store conn.old).now.schema ≡ schema_of version → ⊥) }
{
    match version {
        Version::First => Ok(Vec::new(alloc)),
        _ => kept_learned(alloc, conn),
    }
}

/// Tests the rows of the version's tables, and gives their numbers.
pub fn examined<S: Alter>(
    alloc: Global,
    conn: &mut Connection<S>,
    version: Version,
) -> Result<Numbers, OpenFault>
    ensures tables { HasCleanDisk (state S.Store conn.new) → (state S.Store conn.old).now.schema ≡ schema_of version
        → IfOk result (Examines S.Store version conn.old conn.new) }
    ensures count { IfOk result (λ n. n.count ≡ None) }
    ensures same { HasCleanDisk (state S.Store conn.new) → (state S.Store conn.old).now.schema ≡ schema_of version
        → OnOk result (StaysAs version (state S.Store conn.old) (state S.Store conn.new)) }
    ensures foreign { HasCleanDisk (state S.Store conn.new) → (state S.Store conn.old).now.schema ≡ schema_of version → result ≡ Err OpenFault.Foreign
        → IsReread version (state S.Store conn.old) → HoldsNone version (state S.Store conn.old).now.trees }
    ensures refused { HasCleanDisk (state S.Store conn.new) → (state S.Store conn.old).now.schema ≡ schema_of version → result ≡ Err OpenFault.Refused
        → HasStopped (state S.Store conn.old) (state S.Store conn.new) }
    ensures survives { Survives (state S.Store conn.old) (state S.Store conn.new) (λ _. (state S.Store conn.old).now.schema ≡ schema_of version → ⊥) }
{
    let numbers = numbers_in(conn, version)?;
    let votes = votes_in(alloc, conn)?;
    learned_in(alloc, conn, version)?;
    let promised = greatest_of(numbers.1, votes.rows());
    Ok(Numbers {
        tried: numbers.0,
        promised,
        count: None,
    })
}

/// The version that a schema of this one is told as: those of versions 3 and 4 are the same.
fn told_version(version: Version) -> Version
    ensures same { schema_of result ≡ schema_of version }
    ensures told { result ≢ Version.Fourth }
{
    match version {
        Version::Fourth => Version::Third,
        other => other,
    }
}

/// Whether the schema is that of the tables of this version alone.
pub fn is_of(alloc: Global, schema: &Schema, version: Version) -> Result<bool, OpenFault>
    ensures ok { IfOk result (λ is. IsTrue is → schema.now ≡ schema_of version) }
    ensures all { IfOk result (λ is. schema.now ≡ schema_of version → IsTrue is) }
    ensures err { IfErr result (λ e. e ≡ OpenFault.OutOfMemory) }
{
    match acceptor_store_parts::version_of(alloc, schema) {
        Ok(Some(found)) => Ok(told_version(found) == told_version(version)),
        Ok(None) => Ok(false),
        Err(_) => Err(OpenFault::OutOfMemory),
    }
}

/// The connection over its own store, with the rows of the version's tables tested, and their
/// numbers.
fn reread<S: Alter + Drop>(
    alloc: Global,
    version: Version,
    conn: Connection<S>,
) -> Result<(Connection<S>, Numbers), (OpenFault, S)>
    ensures tables { IfOk result (λ r. HasCleanDisk (state S.Store r.0) → (state S.Store conn).now.schema ≡ schema_of version
        → FindsContent S.Store version conn r.0 r.1) }
    ensures count { IfOk result (λ r. r.1.count ≡ None) }
    ensures clean { IfOk result (λ r. doubt (state S.Store conn).is_clean ≤ doubt (state S.Store r.0).is_clean) }
    ensures leaves { IfOk result (λ r. HasCleanDisk (state S.Store r.0) → (db : Trees) → (state S.Store r.0).may_leave db → (state S.Store conn).may_leave db) }
    ensures left { IfErr result (λ e. IsClean (S.Store.view e.1) → (db : Trees) → S.Store.recovers e.1 db → (state S.Store conn).may_leave db) }
    ensures foreign { IfErr result (λ e. e.0 ≡ OpenFault.Foreign → IsClean (S.Store.view e.1) → HoldsNone version (state S.Store conn).committed.trees) }
    ensures refused { IfErr result (λ e. e.0 ≡ OpenFault.Refused → IsClean (S.Store.view e.1) → FailsAnew S.Store version conn e.1) }
{
    // Over the store the rows stand by rowid, which no other call tells.
    let mut again = match acceptor_store_parts::reread(alloc, version, conn) {
        Ok(again) => again,
        Err((stop, store)) => return Err((stopped(stop), store)),
    };
    match is_of(alloc, again.schema(), version) {
        Ok(true) => {}
        Ok(false) => return Err((OpenFault::Broken, again.into_store())),
        Err(fault) => return Err((fault, again.into_store())),
    }
    match examined(alloc, &mut again, version) {
        Ok(numbers) => Ok((again, numbers)),
        Err(fault) => Err((fault, again.into_store())),
    }
}

/// The connection over the tables of version 2, where it had those of this version, which has no
/// owner, and their numbers.
fn brought_up<S: Alter + Drop>(
    alloc: Global,
    version: Version,
    conn: Connection<S>,
) -> Result<(Connection<S>, Numbers), (OpenFault, S)>
    requires unowned { IsUnownedVersion version }
    ensures tables { IfOk result (λ r. HasCleanDisk (state S.Store r.0) → (state S.Store conn).now.schema ≡ schema_of version
        → MakesReady S.Store conn r.0 r.1) }
    ensures clean { IfOk result (λ r. doubt (state S.Store conn).is_clean ≤ doubt (state S.Store r.0).is_clean) }
    ensures whole { IfErr result (λ e. IsClean (S.Store.view e.1) → (state S.Store conn).now.schema ≡ schema_of version → (db : Trees)
        → S.Store.recovers e.1 db → IsLeftWhole S.Store conn db) }
    ensures foreign { IfErr result (λ e. e.0 ≡ OpenFault.Foreign → IsClean (S.Store.view e.1) → HoldsNone version (state S.Store conn).committed.trees) }
    ensures refused { IfErr result (λ e. e.0 ≡ OpenFault.Refused → IsClean (S.Store.view e.1) → (state S.Store conn).now.schema ≡ schema_of version
        → IsToMake S.Store conn ⊎ FailsAnew S.Store version conn e.1) }
{
    let found = match reread(alloc, version, conn) {
        Ok(found) => found,
        Err(refused) => return Err(refused),
    };
    match version {
        Version::Second => Ok(found),
        Version::First => match acceptor_store_parts::make(found.0, Making::Raised) {
            Ok(raised) => Ok((raised, found.1)),
            Err(refused) => Err((stopped(refused.0), refused.1)),
        },
        Version::Third | Version::Fourth => unreachable!(),
    }
}

/// The connection with its tables tested or made, and their numbers.
pub fn prepared<S: Alter + Drop>(
    alloc: Global,
    conn: Connection<S>,
) -> Result<(Connection<S>, Numbers), (OpenFault, S)>
    ensures tables { IfOk result (λ r. HasCleanDisk (state S.Store r.0) → MakesReady S.Store conn r.0 r.1) }
    ensures ours { OnOk result (IsForeignSchema (state S.Store conn).now.schema → ⊥) }
    ensures clean { IfOk result (λ r. doubt (state S.Store conn).is_clean ≤ doubt (state S.Store r.0).is_clean) }
    ensures whole { IfErr result (λ e. IsClean (S.Store.view e.1) → (db : Trees) → S.Store.recovers e.1 db → IsLeftWhole S.Store conn db) }
    ensures foreign { IfErr result (λ e. e.0 ≡ OpenFault.Foreign → IsClean (S.Store.view e.1) → SeesForeign S.Store conn) }
    ensures refused { IfErr result (λ e. e.0 ≡ OpenFault.Refused → IsClean (S.Store.view e.1) → IsRefused S.Store conn e.1) }
    ensures used { IsTrue (state S.Store conn).in_transaction → IsErrAnd result (λ e. e.0 ≡ OpenFault.Refused) }
    ensures unowned { (state S.Store conn).in_transaction ≡ false → IsForeignSchema (state S.Store conn).now.schema
        → IsErrAnd result (λ e. e.0 ≡ OpenFault.Foreign) }
    ensures further { (state S.Store conn).in_transaction ≡ false → HasFurther (state S.Store conn).now.schema
        → IsErrAnd result (λ e. (e.0 ≡ OpenFault.Refused) ⊎ (e.0 ≡ OpenFault.OutOfMemory)) }
{
    if !conn.is_autocommit() {
        return Err((OpenFault::Refused, conn.into_store()));
    }
    if acceptor_store_parts::is_blank(conn.schema()) {
        return match acceptor_store_parts::make(conn, Making::Tables) {
            Ok(made) => Ok((made, Numbers::none(None))),
            Err((stop, store)) => Err((stopped(stop), store)),
        };
    }
    match judged(alloc, conn.schema()) {
        Ok(version) => brought_up(alloc, version, conn),
        Err(fault) => Err((fault, conn.into_store())),
    }
}
