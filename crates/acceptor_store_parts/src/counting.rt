//! The count of transactions, which each of an owner's that writes raises within itself.

ghost use Rattle.std.specs.Prelude.{◌≡◌, ◌↔◌, ℕ, IfNone, IfOk, IfSome, IsSomeAnd, IsTrue, OnOk};
ghost use Rattle.sqlite.specs.State.{HasCleanDisk, KeepsCommit, Survives};
ghost use Rattle.sqlite.specs.Held.{state};
ghost use Rattle.acceptor_store_parts.specs.Batch.{CountsInside};
ghost use Rattle.acceptor_store_parts.specs.Counts.{IsCountOf, ShowsCount};
ghost use Rattle.acceptor_store_parts.specs.Making.{PutsCount};
ghost use Rattle.acceptor_store_parts.specs.Owned.{IsCount, IsOwner, count_bytes};
ghost use Rattle.acceptor_store_parts.specs.Rowids.{HasFactTable};
ghost use Rattle.acceptor_store_parts.specs.Stored.{fact_shown};

use crate::batch::run_inside;
use crate::facts::shown_owner;
use crate::reads::int_at;
use crate::{Owner, Stop, Version, query_facts, stop_for, version_of};
use sqlite::types::ValueRef;
use sqlite::{Alter, Connection, Error, Row, Transaction};
use std::alloc::Global;

pub const PUT_FACT: &str = "INSERT OR REPLACE INTO fact (id, bytes) VALUES (?1, ?2)";

/// The count of tables that were just made.
pub const FIRST_COUNT: u64 = 1;

/// The bytes that stand for the count, the highest first.
pub fn bytes_of_count(count: u64) -> [u8; 8]
    ensures { result ≡ count_bytes count }
{
    count.to_be_bytes()
}

/// The count that these bytes stand for, if they are those of one.
pub fn count_of(bytes: &[u8]) -> Option<u64>
    ensures some { IfSome result (λ n. bytes.now ≡ count_bytes n) }
    ensures none { IfNone result ((n : ℕ) → bytes.now ≡ count_bytes n → ⊥) }
{
    if bytes.len() != 8 {
        return None;
    }
    let eight = [
        bytes[0], bytes[1], bytes[2], bytes[3], bytes[4], bytes[5], bytes[6], bytes[7],
    ];
    Some(u64::from_be_bytes(eight))
}

/// Writes the count, inside a transaction.
pub fn put_count<S: Alter>(tx: &mut Transaction<'_, S>, count: u64) -> Result<(), Error>
    ensures same_reference { tx.new.conn.ghost_name ≡ tx.old.conn.ghost_name }
    ensures put { HasCleanDisk (state S.Store tx.new.conn.now) → IsTrue (state S.Store tx.old.conn.now).in_transaction
        → OnOk result (PutsCount count (state S.Store tx.old.conn.now) (state S.Store tx.new.conn.now)) }
    ensures kept { HasCleanDisk (state S.Store tx.new.conn.now) → IsTrue (state S.Store tx.old.conn.now).in_transaction
        → KeepsCommit (state S.Store tx.old.conn.now) (state S.Store tx.new.conn.now) }
    ensures survives { Survives (state S.Store tx.old.conn.now) (state S.Store tx.new.conn.now) (λ _. ⊥) }
{
    let bytes = bytes_of_count(count);
    run_inside(tx, PUT_FACT, &[ValueRef::Int(1), ValueRef::Blob(&bytes)])
}

/// Writes the next count, where there is one, inside a transaction.
pub fn put_next<S: Alter>(tx: &mut Transaction<'_, S>, next: Option<u64>) -> Result<(), Error>
    ensures same_reference { tx.new.conn.ghost_name ≡ tx.old.conn.ghost_name }
    ensures put { HasCleanDisk (state S.Store tx.new.conn.now) → IsTrue (state S.Store tx.old.conn.now).in_transaction
        → OnOk result (CountsInside next (state S.Store tx.old.conn.now) (state S.Store tx.new.conn.now)) }
    ensures kept { HasCleanDisk (state S.Store tx.new.conn.now) → IsTrue (state S.Store tx.old.conn.now).in_transaction
        → KeepsCommit (state S.Store tx.old.conn.now) (state S.Store tx.new.conn.now) }
    ensures survives { Survives (state S.Store tx.old.conn.now) (state S.Store tx.new.conn.now) (λ _. ⊥) }
{
    match next {
        None => Ok(()),
        Some(count) => put_count(tx, count),
    }
}

/// The count that the row shows, if it is one.
fn shown_count(row: &Row) -> Option<u64>
    ensures some { IfSome result (λ n. row.now ≡ fact_shown (1, count_bytes n)) }
    ensures none { IfNone result ((n : ℕ) → row.now ≡ fact_shown (1, count_bytes n) → ⊥) }
{
    if row.column_count() != 2 || int_at(row, 0) != Some(1) {
        return None;
    }
    match row.get_ref(1) {
        Ok(ValueRef::Blob(bytes)) => count_of(bytes),
        _ => None,
    }
}

/// The owner and the count, where the rows show these and nothing else, as in version 4.
pub fn read_facts(rows: &[Row]) -> Option<(Owner, u64)>
    ensures some { IfSome result (λ r. ShowsCount rows.now r.0 r.1) }
    ensures fits { IfSome result (λ r. IsOwner r.0 × IsCount r.1) }
    ensures none { IfNone result ((owner : Owner) (n : ℕ) → IsOwner owner → ShowsCount rows.now owner n → ⊥) }
{
    if rows.len() != 2 {
        return None;
    }
    let owner = shown_owner(&rows[0])?;
    let count = shown_count(&rows[1])?;
    Some((owner, count))
}

/// The count that the rows show beside an owner.
fn count_in(rows: &[Row]) -> Option<u64>
    ensures some { IfSome result (λ n. (owner : Owner) × IsOwner owner × IsCount n × ShowsCount rows.now owner n) }
    ensures none { IfNone result ((owner : Owner) (n : ℕ) → IsOwner owner → ShowsCount rows.now owner n → ⊥) }
{
    let (_owner, count) = read_facts(rows)?;
    Some(count)
}

/// Whether tables of this version have one of facts.
fn has_fact_table(found: Option<Version>) -> bool
    ensures { IsTrue result ↔ IsSomeAnd found HasFactTable }
{
    matches!(found, Some(Version::Third | Version::Fourth))
}

/// The count of the database that the connection sees, and none where its tables aren't those of an owner in version 4.
pub fn read_count<S: Alter>(alloc: Global, conn: &mut Connection<S>) -> Result<Option<u64>, Stop>
    ensures count { HasCleanDisk (state S.Store conn.new) → IfOk result (IsCountOf (state S.Store conn.old)) }
    ensures same { HasCleanDisk (state S.Store conn.new) → OnOk result ((state S.Store conn.new).now ≡ (state S.Store conn.old).now) }
    ensures survives { Survives (state S.Store conn.old) (state S.Store conn.new) (λ _. ⊥) }
{
    let found = match version_of(alloc, conn.schema()) {
        Ok(found) => found,
        Err(_) => return Err(Stop::Memory),
    };
    if !has_fact_table(found) {
        return Ok(None);
    }
    match query_facts(conn) {
        Ok(rows) => Ok(count_in(rows.as_slice())),
        Err(error) => Err(stop_for(conn, error)),
    }
}
