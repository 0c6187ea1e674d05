//! The writes of the tables, one row a call.

ghost use Rattle.std.specs.Prelude.{◌≡◌, IfErr, IsTrue, None, OnErr, OnOk, Some};
ghost use Rattle.sqlite.specs.State.{HasCleanDisk, KeepsCommit, Survives};
ghost use Rattle.sqlite.specs.Held.{state};
ghost use Rattle.acceptor_store_parts.specs.Asked.{write_of};
ghost use Rattle.acceptor_store_parts.specs.Batch.{LeadsInside, PutsInside, Wrote};
ghost use Rattle.acceptor_store_parts.specs.Serves.{StillServes, HasWritten, MayHaveWritten};
ghost use Rattle.acceptor_store_parts.specs.Stops.{LeavesOpen};

use crate::batch::run_inside;
use crate::counting::put_next;
use crate::{Stop, run, signed, signed_place, stop_for};
use ballots::{Ballot, Place, Value};
use sqlite::types::ValueRef;
use sqlite::{Alter, Connection, Error, ErrorCode, Transaction};

pub const PUT_TRIED: &str = "INSERT OR REPLACE INTO ballot (id, number) VALUES (0, ?1)";

pub const PUT_PROMISED: &str = "INSERT OR REPLACE INTO ballot (id, number) VALUES (1, ?1)";

pub const PUT_VOTE: &str = "INSERT OR REPLACE INTO vote (place, ballot, value) VALUES (?1, ?2, ?3)";

pub const PUT_LEARNED: &str = "INSERT OR REPLACE INTO learned (place, value) VALUES (?1, ?2)";

/// A row that a call writes.
#[derive(Clone, Copy)]
pub enum Put<'a> {
    /// The last ballot tried.
    Tried(Ballot),
    /// The promised row.
    Promised(Ballot),
    /// The vote at its place.
    Vote(Place, Ballot, &'a Value),
    /// The learned value of its place.
    Learned(Place, &'a Value),
}

/// Writes the row, by a statement alone.
fn put_alone<S: Alter>(conn: &mut Connection<S>, put: &Put<'_>) -> Result<(), Stop>
    ensures ok { HasCleanDisk (state S.Store conn.new) → OnOk result (HasWritten None (state S.Store conn.old) (state S.Store conn.new) (write_of put.now)) }
    ensures err { HasCleanDisk (state S.Store conn.new) → IfErr result (λ e. LeavesOpen e → StillServes (state S.Store conn.old) (state S.Store conn.new)) }
    ensures survives { Survives (state S.Store conn.old) (state S.Store conn.new) (MayHaveWritten None (state S.Store conn.old) (write_of put.now)) }
{
    match *put {
        Put::Tried(ballot) => run(conn, PUT_TRIED, &[ValueRef::Int(signed(ballot))]),
        Put::Promised(ballot) => run(conn, PUT_PROMISED, &[ValueRef::Int(signed(ballot))]),
        Put::Vote(place, ballot, value) => {
            let at = ValueRef::Int(signed_place(place));
            let number = ValueRef::Int(signed(ballot));
            run(
                conn,
                PUT_VOTE,
                &[at, number, ValueRef::Blob(value.as_slice())],
            )
        }
        Put::Learned(place, value) => {
            let at = ValueRef::Int(signed_place(place));
            run(conn, PUT_LEARNED, &[at, ValueRef::Blob(value.as_slice())])
        }
    }
}

/// Writes the row, inside a transaction.
fn put_inside<S: Alter>(tx: &mut Transaction<'_, S>, put: &Put<'_>) -> Result<(), Error>
    ensures same_reference { tx.new.conn.ghost_name ≡ tx.old.conn.ghost_name }
    ensures put { HasCleanDisk (state S.Store tx.new.conn.now) → IsTrue (state S.Store tx.old.conn.now).in_transaction
        → OnOk result (PutsInside (Some (write_of put.now)) (state S.Store tx.old.conn.now) (state S.Store tx.new.conn.now)) }
    ensures kept { HasCleanDisk (state S.Store tx.new.conn.now) → IsTrue (state S.Store tx.old.conn.now).in_transaction
        → KeepsCommit (state S.Store tx.old.conn.now) (state S.Store tx.new.conn.now) }
    ensures survives { Survives (state S.Store tx.old.conn.now) (state S.Store tx.new.conn.now) (λ _. ⊥) }
{
    match *put {
        Put::Tried(ballot) => run_inside(tx, PUT_TRIED, &[ValueRef::Int(signed(ballot))]),
        Put::Promised(ballot) => run_inside(tx, PUT_PROMISED, &[ValueRef::Int(signed(ballot))]),
        Put::Vote(place, ballot, value) => {
            let at = ValueRef::Int(signed_place(place));
            let number = ValueRef::Int(signed(ballot));
            let bytes = ValueRef::Blob(value.as_slice());
            run_inside(tx, PUT_VOTE, &[at, number, bytes])
        }
        Put::Learned(place, value) => {
            let at = ValueRef::Int(signed_place(place));
            run_inside(tx, PUT_LEARNED, &[at, ValueRef::Blob(value.as_slice())])
        }
    }
}

/// Writes the row and then the count, inside a transaction.
fn count_row_inside<S: Alter>(
    tx: &mut Transaction<'_, S>,
    put: &Put<'_>,
    next: Option<u64>,
) -> Result<(), Error>
    ensures same_reference { tx.new.conn.ghost_name ≡ tx.old.conn.ghost_name }
    ensures put { HasCleanDisk (state S.Store tx.new.conn.now) → IsTrue (state S.Store tx.old.conn.now).in_transaction
        → OnOk result (LeadsInside (Wrote (write_of put.now)) next (state S.Store tx.old.conn.now) (state S.Store tx.new.conn.now)) }
    ensures kept { HasCleanDisk (state S.Store tx.new.conn.now) → IsTrue (state S.Store tx.old.conn.now).in_transaction
        → KeepsCommit (state S.Store tx.old.conn.now) (state S.Store tx.new.conn.now) }
    ensures survives { Survives (state S.Store tx.old.conn.now) (state S.Store tx.new.conn.now) (λ _. ⊥) }
{
    put_inside(tx, put)?;
    put_next(tx, next)
}

fn run_counted<S: Alter>(
    conn: &mut Connection<S>,
    put: &Put<'_>,
    next: Option<u64>,
) -> Result<(), Error>
    ensures ok { HasCleanDisk (state S.Store conn.new) → OnOk result (HasWritten next (state S.Store conn.old) (state S.Store conn.new) (write_of put.now)) }
    ensures err { HasCleanDisk (state S.Store conn.new) → IsTrue (state S.Store conn.new).is_open
        → OnErr result (StillServes (state S.Store conn.old) (state S.Store conn.new)) }
    ensures survives { Survives (state S.Store conn.old) (state S.Store conn.new) (MayHaveWritten next (state S.Store conn.old) (write_of put.now)) }
{
    if !conn.is_autocommit() {
        return Err(Error::SqliteFailure(ErrorCode::TransactionState));
    }
    let mut tx = conn.transaction();
    match count_row_inside(&mut tx, put, next) {
        Ok(()) => tx.commit(),
        Err(error) => {
            tx.rollback();
            Err(error)
        }
    }
}

/// Writes the row, and the count with it, in one transaction.
fn put_counted<S: Alter>(
    conn: &mut Connection<S>,
    put: &Put<'_>,
    next: Option<u64>,
) -> Result<(), Stop>
    ensures ok { HasCleanDisk (state S.Store conn.new) → OnOk result (HasWritten next (state S.Store conn.old) (state S.Store conn.new) (write_of put.now)) }
    ensures err { HasCleanDisk (state S.Store conn.new) → IfErr result (λ e. LeavesOpen e → StillServes (state S.Store conn.old) (state S.Store conn.new)) }
    ensures survives { Survives (state S.Store conn.old) (state S.Store conn.new) (MayHaveWritten next (state S.Store conn.old) (write_of put.now)) }
{
    match run_counted(conn, put, next) {
        Ok(()) => Ok(()),
        Err(error) => Err(stop_for(conn, error)),
    }
}

/// Writes the row. For an owner it counts one more in the same transaction, which is the count to write; without one
/// there is none.
pub fn put_row<S: Alter>(
    conn: &mut Connection<S>,
    put: &Put<'_>,
    next: Option<u64>,
) -> Result<(), Stop>
    ensures ok { HasCleanDisk (state S.Store conn.new) → OnOk result (HasWritten next (state S.Store conn.old) (state S.Store conn.new) (write_of put.now)) }
    ensures err { HasCleanDisk (state S.Store conn.new) → IfErr result (λ e. LeavesOpen e → StillServes (state S.Store conn.old) (state S.Store conn.new)) }
    ensures survives { Survives (state S.Store conn.old) (state S.Store conn.new) (MayHaveWritten next (state S.Store conn.old) (write_of put.now)) }
{
    match next {
        None => put_alone(conn, put),
        Some(_) => put_counted(conn, put, next),
    }
}
