//! The table of facts, which tells whose a database is, and how many transactions it has counted.

ghost use Rattle.std.specs.Prelude.{◌≡◌, ℕ, [], ◌∷◌, map, IfErr, IfNone, IfOk, IfSome, OnOk, Some};
ghost use Rattle.sqlite.specs.State.{HasCleanDisk, Survives, IsUnchanged};
ghost use Rattle.sqlite.specs.Held.{state};
ghost use Rattle.acceptor_store_parts.specs.Owned.{IsOwner, OwnedAt, OwnedBefore, facts_of, owner_bytes};
ghost use Rattle.acceptor_store_parts.specs.Rowids.{ShowsFacts};
ghost use Rattle.acceptor_store_parts.specs.Stored.{fact_shown};
ghost use Rattle.acceptor_store_parts.specs.Tables.{schema_of};
ghost use Rattle.acceptor_store_parts.specs.Tests.{IsFault};

use crate::reads::int_at;
use crate::{Owner, Version, owner_of};
use sqlite::types::ValueRef;
use sqlite::{Alter, Connection, Error, Row};

/// All rows of the table of facts, whatever they are.
pub fn query_facts<S: Alter>(conn: &mut Connection<S>) -> Result<Vec<Row>, Error>
    ensures held { HasCleanDisk (state S.Store conn.new) → IfOk result (λ rows. ShowsFacts (state S.Store conn.old) rows.items) }
    ensures value { HasCleanDisk (state S.Store conn.new) → IfOk result (λ rows. (owner : Owner) (n : ℕ)
        → (state S.Store conn.old).now.schema ≡ schema_of Version.Fourth → OwnedAt owner n (state S.Store conn.old).now.trees
        → rows.items ≡ map fact_shown (facts_of owner n)) }
    ensures before { HasCleanDisk (state S.Store conn.new) → IfOk result (λ rows. (owner : Owner)
        → (state S.Store conn.old).now.schema ≡ schema_of Version.Third
        → OwnedBefore owner (state S.Store conn.old).now.trees → rows.items ≡ fact_shown (0, owner_bytes owner) ∷ []) }
    ensures same { HasCleanDisk (state S.Store conn.new) → (state S.Store conn.old).now.schema ≡ schema_of Version.Third
        → OnOk result (IsUnchanged (state S.Store conn.old) (state S.Store conn.new)) }
    ensures fails { HasCleanDisk (state S.Store conn.new) → (state S.Store conn.old).now.schema ≡ schema_of Version.Third
        → IfErr result (IsFault (state S.Store conn.old) (state S.Store conn.new)) }
    ensures survives { Survives (state S.Store conn.old) (state S.Store conn.new)
        (λ _. (state S.Store conn.old).now.schema ≡ schema_of Version.Third → ⊥) }
{
    conn.query_all("SELECT id, bytes FROM fact ORDER BY id", &[])
}

/// The owner that the row shows, if it is any's.
pub fn shown_owner(row: &Row) -> Option<Owner>
    ensures some { IfSome result (λ owner. row.now ≡ fact_shown (0, owner_bytes owner)) }
    ensures fits { IfSome result IsOwner }
    ensures none { IfNone result ((owner : Owner) → IsOwner owner → row.now ≡ fact_shown (0, owner_bytes owner) → ⊥) }
{
    if row.column_count() != 2 || int_at(row, 0) != Some(0) {
        return None;
    }
    match row.get_ref(1) {
        Ok(ValueRef::Blob(bytes)) => owner_of(bytes),
        _ => None,
    }
}

/// The owner, where the rows show it and nothing else, as in version 3.
pub fn read_owner(rows: &[Row]) -> Option<Owner>
    ensures some { IfSome result (λ owner. rows.now ≡ fact_shown (0, owner_bytes owner) ∷ []) }
    ensures fits { IfSome result IsOwner }
    ensures none { IfNone result ((owner : Owner) → IsOwner owner → rows.now ≡ fact_shown (0, owner_bytes owner) ∷ [] → ⊥) }
{
    if rows.len() != 1 {
        return None;
    }
    shown_owner(&rows[0])
}
