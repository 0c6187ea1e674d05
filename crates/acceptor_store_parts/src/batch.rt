//! Writes of a node, all of them in one transaction.

ghost use Rattle.std.specs.Prelude.{◌≡◌, ◌≤◌, ℕ, IfErr, IsTrue, Ok, OnErr, OnOk};
ghost use Rattle.ballots.specs.Limits.{IsValue, longest_value};
ghost use Rattle.node_writes.specs.Rows.{row_write};
ghost use Rattle.node_writes.specs.Writes.{HasStrange, LeadTo, value_in};
ghost use Rattle.sqlite.specs.State.{Executes, HasCleanDisk, KeepsCommit, Survives};
ghost use Rattle.sqlite.specs.Values.{bound};
ghost use Rattle.sqlite.specs.Held.{state};
ghost use Rattle.acceptor_store_parts.specs.Batch.{HasWrittenAll, LeadsInside, MayHaveWrittenAll, PutsAllInside};
ghost use Rattle.acceptor_store_parts.specs.Batch.{PutsInside};
ghost use Rattle.acceptor_store_parts.specs.Serves.{StillServes};
ghost use Rattle.acceptor_store_parts.specs.Stops.{LeavesOpen};

use crate::counting::put_next;
use crate::writing::{PUT_LEARNED, PUT_PROMISED, PUT_TRIED, PUT_VOTE};
use crate::{Stop, signed, signed_place, stop_for};
use ballots::NodeId;
use node_writes::{Row, WriteBytes, row_of};
use sqlite::types::ValueRef;
use sqlite::{Alter, Connection, Error, ErrorCode, Transaction};

/// Runs a statement that shows no rows, inside a transaction.
pub fn run_inside<S: Alter>(
    tx: &mut Transaction<'_, S>,
    sql: &str,
    params: &[ValueRef<'_>],
) -> Result<(), Error>
    ensures same_reference { tx.new.conn.ghost_name ≡ tx.old.conn.ghost_name }
    ensures ran { HasCleanDisk (state S.Store tx.new.conn.now) → IsTrue (state S.Store tx.old.conn.now).in_transaction
        → OnOk result ((count : ℕ) × Executes sql.now (bound params.now) (state S.Store tx.old.conn.now) (state S.Store tx.new.conn.now) (Ok count)) }
    ensures inside { HasCleanDisk (state S.Store tx.new.conn.now) → IsTrue (state S.Store tx.old.conn.now).in_transaction
        → OnOk result (IsTrue (state S.Store tx.new.conn.now).in_transaction) }
    ensures kept { HasCleanDisk (state S.Store tx.new.conn.now) → IsTrue (state S.Store tx.old.conn.now).in_transaction
        → KeepsCommit (state S.Store tx.old.conn.now) (state S.Store tx.new.conn.now) }
    ensures survives { Survives (state S.Store tx.old.conn.now) (state S.Store tx.new.conn.now) (λ _. ⊥) }
{
    tx.execute(sql, params)?;
    Ok(())
}

/// The value of a write.
fn value_of(bytes: &WriteBytes) -> &[u8]
    requires { bytes.now.value_len ≤ longest_value }
    ensures same { result.now ≡ value_in bytes.now }
    ensures fits { IsValue result.now }
{
    &bytes.value[..usize::from(bytes.value_len)]
}

/// Writes a row of a node, inside a transaction.
fn put_inside<S: Alter>(
    tx: &mut Transaction<'_, S>,
    bytes: &WriteBytes,
    row: Row,
) -> Result<(), Error>
    requires { bytes.now.value_len ≤ longest_value }
    ensures same_reference { tx.new.conn.ghost_name ≡ tx.old.conn.ghost_name }
    ensures put { HasCleanDisk (state S.Store tx.new.conn.now) → IsTrue (state S.Store tx.old.conn.now).in_transaction
        → OnOk result (PutsInside (row_write row (value_in bytes.now)) (state S.Store tx.old.conn.now) (state S.Store tx.new.conn.now)) }
    ensures kept { HasCleanDisk (state S.Store tx.new.conn.now) → IsTrue (state S.Store tx.old.conn.now).in_transaction
        → KeepsCommit (state S.Store tx.old.conn.now) (state S.Store tx.new.conn.now) }
    ensures survives { Survives (state S.Store tx.old.conn.now) (state S.Store tx.new.conn.now) (λ _. ⊥) }
{
    match row {
        Row::Nothing => Ok(()),
        Row::Tried(ballot) => run_inside(tx, PUT_TRIED, &[ValueRef::Int(signed(ballot))]),
        Row::Promised(ballot) => run_inside(tx, PUT_PROMISED, &[ValueRef::Int(signed(ballot))]),
        Row::Vote(place, ballot) => {
            let at = ValueRef::Int(signed_place(place));
            let number = ValueRef::Int(signed(ballot));
            run_inside(tx, PUT_VOTE, &[at, number, ValueRef::Blob(value_of(bytes))])
        }
        Row::Learned(place) => {
            let at = ValueRef::Int(signed_place(place));
            run_inside(tx, PUT_LEARNED, &[at, ValueRef::Blob(value_of(bytes))])
        }
    }
}

/// Writes the rows of a node in order, inside a transaction.
fn put_all_inside<S: Alter>(
    tx: &mut Transaction<'_, S>,
    id: NodeId,
    writes: &[WriteBytes],
) -> Result<(), Error>
    requires { ¬ HasStrange id writes.now }
    ensures same_reference { tx.new.conn.ghost_name ≡ tx.old.conn.ghost_name }
    ensures put { HasCleanDisk (state S.Store tx.new.conn.now) → IsTrue (state S.Store tx.old.conn.now).in_transaction
        → OnOk result (PutsAllInside id writes.now (state S.Store tx.old.conn.now) (state S.Store tx.new.conn.now)) }
    ensures kept { HasCleanDisk (state S.Store tx.new.conn.now) → IsTrue (state S.Store tx.old.conn.now).in_transaction
        → KeepsCommit (state S.Store tx.old.conn.now) (state S.Store tx.new.conn.now) }
    ensures survives { Survives (state S.Store tx.old.conn.now) (state S.Store tx.new.conn.now) (λ _. ⊥) }
{
    for bytes in writes {
        let Some(row) = row_of(bytes, id) else {
            unreachable!();
        };
        put_inside(tx, bytes, row)?;
    }
    Ok(())
}

/// Writes the rows of a node in order and then the count, inside a transaction.
fn count_all_inside<S: Alter>(
    tx: &mut Transaction<'_, S>,
    id: NodeId,
    writes: &[WriteBytes],
    next: Option<u64>,
) -> Result<(), Error>
    requires { ¬ HasStrange id writes.now }
    ensures same_reference { tx.new.conn.ghost_name ≡ tx.old.conn.ghost_name }
    ensures put { HasCleanDisk (state S.Store tx.new.conn.now) → IsTrue (state S.Store tx.old.conn.now).in_transaction
        → OnOk result (LeadsInside (LeadTo id writes.now) next (state S.Store tx.old.conn.now) (state S.Store tx.new.conn.now)) }
    ensures kept { HasCleanDisk (state S.Store tx.new.conn.now) → IsTrue (state S.Store tx.old.conn.now).in_transaction
        → KeepsCommit (state S.Store tx.old.conn.now) (state S.Store tx.new.conn.now) }
    ensures survives { Survives (state S.Store tx.old.conn.now) (state S.Store tx.new.conn.now) (λ _. ⊥) }
{
    put_all_inside(tx, id, writes)?;
    put_next(tx, next)
}

fn run_all<S: Alter>(
    conn: &mut Connection<S>,
    id: NodeId,
    writes: &[WriteBytes],
    next: Option<u64>,
) -> Result<(), Error>
    requires { ¬ HasStrange id writes.now }
    ensures ok { HasCleanDisk (state S.Store conn.new) → OnOk result (HasWrittenAll id writes.now next (state S.Store conn.old) (state S.Store conn.new)) }
    ensures err { HasCleanDisk (state S.Store conn.new) → IsTrue (state S.Store conn.new).is_open
        → OnErr result (StillServes (state S.Store conn.old) (state S.Store conn.new)) }
    ensures survives { Survives (state S.Store conn.old) (state S.Store conn.new) (MayHaveWrittenAll id writes.now next (state S.Store conn.old)) }
{
    if !conn.is_autocommit() {
        return Err(Error::SqliteFailure(ErrorCode::TransactionState));
    }
    let mut tx = conn.transaction();
    match count_all_inside(&mut tx, id, writes, next) {
        Ok(()) => tx.commit(),
        Err(error) => {
            tx.rollback();
            Err(error)
        }
    }
}

/// Makes the writes of a node in order, in one transaction: after Ok all are committed, and a crash
/// leaves all of them or none. For an owner it counts one more, which is the count to write.
pub fn put_rows<S: Alter>(
    conn: &mut Connection<S>,
    id: NodeId,
    writes: &[WriteBytes],
    next: Option<u64>,
) -> Result<(), Stop>
    requires { ¬ HasStrange id writes.now }
    ensures ok { HasCleanDisk (state S.Store conn.new) → OnOk result (HasWrittenAll id writes.now next (state S.Store conn.old) (state S.Store conn.new)) }
    ensures err { HasCleanDisk (state S.Store conn.new) → IfErr result (λ e. LeavesOpen e → StillServes (state S.Store conn.old) (state S.Store conn.new)) }
    ensures survives { Survives (state S.Store conn.old) (state S.Store conn.new) (MayHaveWrittenAll id writes.now next (state S.Store conn.old)) }
{
    match run_all(conn, id, writes, next) {
        Ok(()) => Ok(()),
        Err(error) => Err(stop_for(conn, error)),
    }
}
