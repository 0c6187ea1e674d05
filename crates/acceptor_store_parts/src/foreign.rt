//! Whether a schema is one that no node made.

ghost use Rattle.std.specs.Prelude.{◌≡◌, ◌↔◌, ℕ, slice_get, IfNone, IfSome, IsTrue, Some};
ghost use Rattle.sqlite_schema.specs.Names.{table_named};
ghost use Rattle.acceptor_store_parts.specs.Foreign.{HasFacts, IsBroken, IsForeignSchema, IsPart, IsUnowned};
ghost use Rattle.acceptor_store_parts.specs.Foreign.{LacksNumbers, LacksVotes, LacksLearned};

use sqlite_schema::schema::{Schema, Table};

fn lacks_numbers(table: &Table) -> bool
    ensures { IsTrue result ↔ LacksNumbers table.now }
{
    table.column_named(b"id").is_none() || table.column_named(b"number").is_none()
}

fn lacks_votes(table: &Table) -> bool
    ensures { IsTrue result ↔ LacksVotes table.now }
{
    table.column_named(b"place").is_none()
        || table.column_named(b"ballot").is_none()
        || table.column_named(b"value").is_none()
}

fn lacks_learned(table: &Table) -> bool
    ensures { IsTrue result ↔ LacksLearned table.now }
{
    table.column_named(b"place").is_none() || table.column_named(b"value").is_none()
}

/// Whether only one of the tables of ballots and votes is there, or that of learned values without
/// them.
fn is_part(schema: &Schema) -> bool
    ensures { IsTrue result ↔ IsPart schema.now }
{
    match (schema.table_named(b"ballot"), schema.table_named(b"vote")) {
        (None, None) => schema.table_named(b"learned").is_some(),
        (Some(_), Some(_)) => false,
        _ => true,
    }
}

/// The table of this name, where there is one.
pub(crate) fn find_table<'a>(schema: &'a Schema, name: &[u8]) -> Option<&'a Table>
    ensures some { IfSome result (λ t. (at : ℕ) × (table_named schema.now name.now ≡ Some at) × (slice_get schema.now.tables at ≡ Some t.now)) }
    ensures none { IfNone result ((at : ℕ) (t : _) → table_named schema.now name.now ≡ Some at → slice_get schema.now.tables at ≡ Some t → ⊥) }
{
    let at = schema.table_named(name)?;
    schema.tables.as_slice().get(at)
}

/// Whether only a part of the tables is there, or one of them lacks a column.
pub fn is_broken(schema: &Schema) -> bool
    ensures yes { IsTrue result → IsBroken schema.now }
    ensures all { IsBroken schema.now → IsTrue result }
{
    is_part(schema)
        || find_table(schema, b"ballot").is_some_and(lacks_numbers)
        || find_table(schema, b"vote").is_some_and(lacks_votes)
        || find_table(schema, b"learned").is_some_and(lacks_learned)
}

/// Whether there is a table of facts, as where the database has an owner.
pub fn has_facts(schema: &Schema) -> bool
    ensures yes { IsTrue result → HasFacts schema.now }
    ensures all { HasFacts schema.now → IsTrue result }
{
    schema.table_named(b"fact").is_some()
}

/// Whether no node without an owner made the schema.
pub fn is_foreign(schema: &Schema) -> bool
    ensures yes { IsTrue result → IsForeignSchema schema.now }
    ensures all { IsForeignSchema schema.now → IsTrue result }
{
    has_facts(schema) || is_broken(schema)
}

/// Whether a node without an owner may have made the schema.
pub fn is_unowned(schema: &Schema) -> bool
    ensures yes { IsTrue result → IsUnowned schema.now }
    ensures all { IsUnowned schema.now → IsTrue result }
{
    !has_facts(schema) && !is_broken(schema) && schema.table_named(b"ballot").is_some()
}
