//! The learned values, read and written.

ghost use Rattle.std.specs.Prelude.{◌≡◌, ◌≢◌, ℕ, List, false, map, IfErr, IfOk, OnOk, IsTrue};
ghost use Rattle.std.specs.List.{AllByRecursion};
ghost use Rattle.ballots.specs.Rows.{at, rows_from};
ghost use Rattle.acceptor.specs.Content.{AreRowsFrom};
ghost use Rattle.sqlite.specs.State.{HasCleanDisk, Survives, IsUnchanged};
ghost use Rattle.sqlite.specs.Held.{state};
ghost use Rattle.acceptor_store_parts.specs.Stored.{IsLearned, KeepsLearned, first_of, learned_row, learned_shown};
ghost use Rattle.acceptor_store_parts.specs.Tables.{schema_of};
ghost use Rattle.acceptor_store_parts.specs.Tests.{IsFault};
ghost use Rattle.acceptor_store_parts.specs.Rowids.{ShowsLearned};

use crate::Stop;
use crate::reads::{Answer, Asked, bytes_at, place_at};
use ballots::{MOST_PLACES, Place, Value};
use sqlite::{Alter, Connection, Error, Row};
use std::alloc::Global;

/// The learned value that the row shows.
fn read_one_learned(alloc: Global, row: &Row) -> Result<(Place, Value), Stop>
    ensures ok { IfOk result (λ v. row.now ≡ learned_shown v) }
    ensures fits { IfOk result (λ v. IsLearned v) }
    ensures told { IfErr result (λ e. e ≢ Stop.Refused) }
    ensures wrong { IfErr result (λ e. e ≡ Stop.Down → (v : ℕ × List ℕ) → IsLearned v → row.now ≡ learned_shown v → ⊥) }
{
    if row.column_count() != 2 {
        return Err(Stop::Down);
    }
    let Some(place) = place_at(row, 0) else {
        return Err(Stop::Down);
    };
    match Value::new(bytes_at(alloc, row, 1)?) {
        Some(value) => Ok((place, value)),
        None => Err(Stop::Down),
    }
}

/// The learned values that the rows show.
pub fn read_learned(alloc: Global, rows: &[Row]) -> Result<Vec<(Place, Value)>, Stop>
    ensures ok { IfOk result (λ learned. rows.now ≡ map learned_shown learned.items) }
    ensures fits { IfOk result (λ learned. AllByRecursion IsLearned learned.items) }
    ensures told { IfErr result (λ e. e ≢ Stop.Refused) }
    ensures wrong { IfErr result (λ e. e ≡ Stop.Down → (learned : List (ℕ × List ℕ)) → AllByRecursion IsLearned learned
        → rows.now ≡ map learned_shown learned → ⊥) }
{
    let mut learned = Vec::new(alloc);
    for row in rows {
        match read_one_learned(alloc, row) {
            Ok(value) => learned.push(value)?,
            Err(fault) => return Err(fault),
        }
    }
    Ok(learned)
}

/// The learned values stand by ascending place.
pub fn are_rising(learned: &[(Place, Value)]) -> bool
    ensures yes { IsTrue result → AreRowsFrom 1 learned.now }
    ensures no { result ≡ false → AreRowsFrom 1 learned.now → ⊥ }
{
    let mut from = 1u64;
    for row in learned {
        let place = row.0.number();
        if place < from {
            return false;
        }
        if MOST_PLACES < place {
            return false;
        }
        from = place + 1;
    }
    true
}

/// All rows of the table of learned values, whatever they are.
pub fn query_all_learned<S: Alter>(conn: &mut Connection<S>) -> Result<Vec<Row>, Error>
    ensures held { HasCleanDisk (state S.Store conn.new) → IfOk result (λ rows. ShowsLearned (state S.Store conn.old) rows.items) }
    ensures value { HasCleanDisk (state S.Store conn.new) → IfOk result (λ rows. (version : _) (learned : List (ℕ × List ℕ)) → KeepsLearned version
        → (state S.Store conn.old).now.schema ≡ schema_of version → AreRowsFrom 1 learned
        → (state S.Store conn.old).now.trees 2 ≡ map learned_row learned → rows.items ≡ map learned_shown learned) }
    ensures same { HasCleanDisk (state S.Store conn.new) → (version : _) → KeepsLearned version → (state S.Store conn.old).now.schema ≡ schema_of version
        → OnOk result (IsUnchanged (state S.Store conn.old) (state S.Store conn.new)) }
    ensures fails { HasCleanDisk (state S.Store conn.new) → (version : _) → KeepsLearned version → (state S.Store conn.old).now.schema ≡ schema_of version
        → IfErr result (IsFault (state S.Store conn.old) (state S.Store conn.new)) }
    ensures survives { Survives (state S.Store conn.old) (state S.Store conn.new)
        (λ _. (version : _) → KeepsLearned version → (state S.Store conn.old).now.schema ≡ schema_of version → ⊥) }
{
    conn.query_all("SELECT place, value FROM learned ORDER BY place", &[])
}

/// The learned values from the place on.
impl Answer for Vec<(Place, Value)> {
    ghost use Rattle.acceptor_store_parts.specs.declared.reads.Asked.TheVariants.{LearnedFrom};

    const ASKED: Asked = Asked::LearnedFrom;

    ghost ASKED = { LearnedFrom };

    ghost is_found = { λ learned place c. learned.items ≡ rows_from c.learned place };

    fn read(alloc: Global, rows: &[Row]) -> Result<Vec<(Place, Value)>, Stop> {
        read_learned(alloc, rows)
    }
}

fn first_learned(alloc: Global, rows: &[Row]) -> Result<Option<Value>, Stop>
    ensures { IfOk result (λ value. (learned : _) → rows.now ≡ map learned_shown learned → value ≡ first_of learned) }
{
    match rows.first() {
        Some(row) => Ok(Some(read_one_learned(alloc, row)?.1)),
        None => Ok(None),
    }
}

/// The learned value of the place.
impl Answer for Option<Value> {
    ghost use Rattle.acceptor_store_parts.specs.declared.reads.Asked.TheVariants.{LearnedAt};

    const ASKED: Asked = Asked::LearnedAt;

    ghost ASKED = { LearnedAt };

    ghost is_found = { λ value place c. value ≡ at c.learned place };

    fn read(alloc: Global, rows: &[Row]) -> Result<Option<Value>, Stop> {
        first_learned(alloc, rows)
    }
}
