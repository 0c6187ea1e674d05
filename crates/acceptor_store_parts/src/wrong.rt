//! What is wrong of a schema that no node made.

ghost use Rattle.std.specs.Prelude.{◌≡◌, ◌↔◌, IfNone, IfOk, IfSome, IsTrue, MatchOption, OnOk, false};
ghost use Rattle.sqlite.specs.Effect.{IsDatabase};
ghost use Rattle.sqlite.specs.Held.{state};
ghost use Rattle.sqlite.specs.State.{HasCleanDisk, IsUnchanged};
ghost use Rattle.acceptor_store_parts.specs.Wrong.{AreRightBefore, HasAs, HasNowhere, HasRightLearned, HasRightVotes};
ghost use Rattle.acceptor_store_parts.specs.Wrong.{HasWrongLearned, HasWrongVotes, IsNeeded, IsNoVersions, IsRight};
ghost use Rattle.acceptor_store_parts.specs.Wrong.{IsVersions, IsWrong, made_table, name_of};

use crate::foreign::{find_table, has_facts};
use crate::learned::{are_rising, query_all_learned, read_learned};
use crate::opening::{has_pair, has_three, is_fact_table, is_learned_table, is_plain, version_of};
use crate::reads::{query_all_votes, read_votes};
use crate::rereading::are_in_order;
use crate::{Stop, stop_for};
use sqlite::{Alter, Connection};
use sqlite_schema::schema::{Kind, Schema, Table};
use std::alloc::{AllocError, Global};

/// A table of a node's records.
#[derive(Clone, Copy, Debug, PartialEq, Eq)]
pub enum NodeTable {
    Ballot,
    Vote,
    Learned,
    Fact,
}

/// What is wrong of a schema.
#[derive(Clone, Copy, Debug, PartialEq, Eq)]
pub enum WrongPart {
    /// There is no such table.
    Missing(NodeTable),
    /// There is one, and it is another than a node makes, or made in another order.
    Changed(NodeTable),
    /// There is more than the tables: another table, an index or a view.
    Further,
}

/// The name of a table.
fn name_of(which: NodeTable) -> &'static [u8]
    ensures { result.now ≡ name_of which }
{
    match which {
        NodeTable::Ballot => b"ballot",
        NodeTable::Vote => b"vote",
        NodeTable::Learned => b"learned",
        NodeTable::Fact => b"fact",
    }
}

fn is_ballot_table(alloc: Global, table: &Table) -> Result<bool, AllocError>
    ensures { IfOk result (λ is. IsTrue is ↔ (table.now ≡ made_table NodeTable.Ballot)) }
{
    if !has_pair(table.columns.as_slice(), b"id", b"number", Kind::Integer) {
        return Ok(false);
    }
    is_plain(alloc, table, b"ballot", 0)
}

fn is_vote_table(alloc: Global, table: &Table) -> Result<bool, AllocError>
    ensures { IfOk result (λ is. IsTrue is ↔ (table.now ≡ made_table NodeTable.Vote)) }
{
    if !has_three(table.columns.as_slice()) {
        return Ok(false);
    }
    is_plain(alloc, table, b"vote", 1)
}

/// Whether this is the table as a node makes it.
fn is_made(alloc: Global, table: &Table, which: NodeTable) -> Result<bool, AllocError>
    ensures { IfOk result (λ is. IsTrue is ↔ (table.now ≡ made_table which)) }
{
    match which {
        NodeTable::Ballot => is_ballot_table(alloc, table),
        NodeTable::Vote => is_vote_table(alloc, table),
        NodeTable::Learned => is_learned_table(alloc, table),
        NodeTable::Fact => is_fact_table(alloc, table),
    }
}

fn is_needed(schema: &Schema, which: NodeTable) -> bool
    ensures { IsTrue result ↔ IsNeeded schema.now which }
{
    match which {
        NodeTable::Ballot | NodeTable::Vote => true,
        NodeTable::Learned => has_facts(schema),
        NodeTable::Fact => false,
    }
}

/// The table of this name.
fn table_of<'a>(schema: &'a Schema, which: NodeTable) -> Option<&'a Table>
    ensures some { IfSome result (λ t. HasAs schema.now which t.now) }
    ensures none { IfNone result (HasNowhere schema.now which) }
{
    find_table(schema, name_of(which))
}

/// What is wrong where there is no such table.
fn without(schema: &Schema, which: NodeTable) -> Option<WrongPart>
    requires nowhere { HasNowhere schema.now which }
    requires before { AreRightBefore schema.now which }
    ensures { MatchOption result (IsRight schema.now which) (IsWrong schema.now) }
{
    if is_needed(schema, which) {
        Some(WrongPart::Missing(which))
    } else {
        None
    }
}

/// What is wrong of this table, where those before it are right.
fn wrong_table(
    alloc: Global,
    schema: &Schema,
    which: NodeTable,
) -> Result<Option<WrongPart>, AllocError>
    requires { AreRightBefore schema.now which }
    ensures { IfOk result (λ found. MatchOption found (IsRight schema.now which) (IsWrong schema.now)) }
{
    let Some(table) = table_of(schema, which) else {
        return Ok(without(schema, which));
    };
    if is_made(alloc, table, which)? {
        Ok(None)
    } else {
        Ok(Some(WrongPart::Changed(which)))
    }
}

/// What is wrong of the first table that isn't right.
fn first_wrong(alloc: Global, schema: &Schema) -> Result<Option<WrongPart>, AllocError>
    ensures { IfOk result (λ found. MatchOption found (IsWrong schema.now WrongPart.Further) (IsWrong schema.now)) }
{
    if let Some(part) = wrong_table(alloc, schema, NodeTable::Ballot)? {
        return Ok(Some(part));
    }
    if let Some(part) = wrong_table(alloc, schema, NodeTable::Vote)? {
        return Ok(Some(part));
    }
    if let Some(part) = wrong_table(alloc, schema, NodeTable::Learned)? {
        return Ok(Some(part));
    }
    wrong_table(alloc, schema, NodeTable::Fact)
}

/// The first part of a schema that no node made: none where it is that of a version's tables alone.
pub fn wrong_part(alloc: Global, schema: &Schema) -> Result<Option<WrongPart>, AllocError>
    ensures { IfOk result (λ found. MatchOption found (IsVersions schema.now) (λ part. IsNoVersions schema.now × IsWrong schema.now part)) }
{
    if version_of(alloc, schema)?.is_some() {
        return Ok(None);
    }
    match first_wrong(alloc, schema)? {
        Some(part) => Ok(Some(part)),
        None => Ok(Some(WrongPart::Further)),
    }
}

/// Whether the rows of the table of votes are none that a node writes.
pub fn has_wrong_votes<S: Alter>(alloc: Global, conn: &mut Connection<S>) -> Result<bool, Stop>
    ensures wrong { HasCleanDisk (state S.Store conn.new) → IfOk result (λ wrong. IsTrue wrong → HasWrongVotes (state S.Store conn.old).now) }
    ensures right { HasCleanDisk (state S.Store conn.new) → IfOk result (λ wrong. wrong ≡ false → IsDatabase (state S.Store conn.old).now
        → HasRightVotes (state S.Store conn.old).now) }
    ensures same { HasCleanDisk (state S.Store conn.new) → IsVersions (state S.Store conn.old).now.schema
        → OnOk result (IsUnchanged (state S.Store conn.old) (state S.Store conn.new)) }
{
    let rows = match query_all_votes(conn) {
        Ok(rows) => rows,
        Err(error) => return Err(stop_for(conn, error)),
    };
    match read_votes(alloc, rows.as_slice()) {
        Ok(votes) => Ok(!are_in_order(votes.rows())),
        Err(Stop::Down) => Ok(true),
        Err(stop) => Err(stop),
    }
}

/// The same of the table of learned values, where it is there.
pub fn has_wrong_learned<S: Alter>(alloc: Global, conn: &mut Connection<S>) -> Result<bool, Stop>
    ensures wrong { HasCleanDisk (state S.Store conn.new) → IfOk result (λ wrong. IsTrue wrong → HasWrongLearned (state S.Store conn.old).now) }
    ensures right { HasCleanDisk (state S.Store conn.new) → IfOk result (λ wrong. wrong ≡ false → IsDatabase (state S.Store conn.old).now
        → HasRightLearned (state S.Store conn.old).now) }
{
    if conn.schema().table_named(b"learned").is_none() {
        return Ok(false);
    }
    let rows = match query_all_learned(conn) {
        Ok(rows) => rows,
        Err(error) => return Err(stop_for(conn, error)),
    };
    match read_learned(alloc, rows.as_slice()) {
        Ok(learned) => Ok(!are_rising(learned.as_slice())),
        Err(Stop::Down) => Ok(true),
        Err(stop) => Err(stop),
    }
}
