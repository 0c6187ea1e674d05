//! An event of a script as a table of TOML: a step, or deliveries of all letters that wait.

ghost use Rattle.std.specs.Prelude.{◌≡◌, ℕ, List, Some, None, IfSome, IfOk, codes, map};
ghost use Rattle.std.specs.List.{AllZip};
ghost use Rattle.toml.specs.Data.{get};
ghost use Rattle.toml.specs.View.{view};
ghost use Rattle.script_steps.specs.Sweep.{Sweep};
ghost use Rattle.script_steps.specs.declared.entry.Entry.{Entry};
ghost use Rattle.script_steps.specs.declared.name.Name.{Name};
ghost use Rattle.script_text.specs.EntryTable.{HasRounds, HoldsNames, IsAll, IsExcept, IsListed, IsRounds};
ghost use Rattle.script_text.specs.EntryTable.{MeansEntry};
ghost use Rattle.script_text.specs.Fields.{HasText};

use crate::fields::usize_at;
use crate::step_table::{except_of, step_of};
use script_steps::{DeliverAll, Entry};
use std::alloc::{AllocError, Global};
use toml::Value;

/// Deliveries in so many rounds, with what the tables of an array except.
fn all_but(alloc: Global, rounds: usize, items: &[Value]) -> Result<Option<DeliverAll>, AllocError>
    ensures found { IfOk result (λ found. IfSome found (λ all. AllZip IsExcept (map view items.now) all.except × (all.rounds ≡ rounds))) }
    ensures none { IfOk result (λ found. found ≡ None → (names : List Name) → ¬ AllZip IsExcept (map view items.now) names) }
{
    let mut all = DeliverAll::new(alloc, rounds);
    for item in items {
        match except_of(item) {
            Some(name) => all.leave(&name)?,
            None => return Ok(None),
        }
    }
    Ok(Some(all))
}

/// The same of the array that a key holds, which has one table at least.
fn all_but_listed(
    alloc: Global,
    rounds: usize,
    value: &Value,
) -> Result<Option<DeliverAll>, AllocError>
    ensures found { IfOk result (λ found. IfSome found (λ all. IsListed (view value.now) all.except × (all.rounds ≡ rounds))) }
    ensures none { IfOk result (λ found. found ≡ None → (names : List Name) → ¬ IsListed (view value.now) names) }
{
    let Some(items) = value.as_array() else {
        return Ok(None);
    };
    if items.is_empty() {
        return Ok(None);
    }
    match all_but(alloc, rounds, items.as_slice())? {
        Some(all) => Ok(Some(all)),
        None => Ok(None),
    }
}

/// The same of a table, which excepts none without the key.
fn all_but_held(
    alloc: Global,
    rounds: usize,
    table: &Value,
) -> Result<Option<DeliverAll>, AllocError>
    ensures found { IfOk result (λ found. IfSome found (λ all. HoldsNames (get (codes "except") (view table.now)) all.except × (all.rounds ≡ rounds))) }
    ensures none { IfOk result (λ found. found ≡ None → (names : List Name) → ¬ HoldsNames (get (codes "except") (view table.now)) names) }
{
    match table.get("except") {
        Some(value) => all_but_listed(alloc, rounds, value),
        None => Ok(Some(DeliverAll::new(alloc, rounds))),
    }
}

fn rounds_at(table: &Value) -> Option<usize>
    ensures found { IfSome result (IsRounds (view table.now)) }
    ensures only { (rounds : ℕ) → IsRounds (view table.now) rounds → result ≡ Some rounds }
{
    let rounds = usize_at(table, "rounds")?;
    if rounds == 0 || rounds > 4 {
        return None;
    }
    Some(rounds)
}

/// How many rounds there are, one without the key.
fn rounds_of(table: &Value) -> Option<usize>
    ensures found { IfSome result (HasRounds (view table.now)) }
    ensures only { (rounds : ℕ) → HasRounds (view table.now) rounds → result ≡ Some rounds }
{
    match table.get("rounds") {
        Some(_) => rounds_at(table),
        None => Some(1),
    }
}

/// The deliveries of a table of this kind.
fn all_of(alloc: Global, table: &Value) -> Result<Option<DeliverAll>, AllocError>
    requires { HasText (view table.now) (codes "kind") (codes "deliver_all") }
    ensures found { IfOk result (λ found. IfSome found (IsAll (view table.now))) }
    ensures none { IfOk result (λ found. found ≡ None → (all : Sweep) → ¬ IsAll (view table.now) all) }
{
    let Some(rounds) = rounds_of(table) else {
        return Ok(None);
    };
    match all_but_held(alloc, rounds, table)? {
        Some(all) => Ok(Some(all)),
        None => Ok(None),
    }
}

fn all_entry_of(alloc: Global, table: &Value) -> Result<Option<Entry>, AllocError>
    requires { HasText (view table.now) (codes "kind") (codes "deliver_all") }
    ensures found { IfOk result (λ found. IfSome found (MeansEntry (view table.now))) }
    ensures none { IfOk result (λ found. found ≡ None → (entry : Entry) → ¬ MeansEntry (view table.now) entry) }
{
    match all_of(alloc, table)? {
        Some(all) => Ok(Some(Entry::All(all))),
        None => Ok(None),
    }
}

fn one_entry_of(alloc: Global, table: &Value) -> Result<Option<Entry>, AllocError>
    requires { ¬ HasText (view table.now) (codes "kind") (codes "deliver_all") }
    ensures found { IfOk result (λ found. IfSome found (MeansEntry (view table.now))) }
    ensures none { IfOk result (λ found. found ≡ None → (entry : Entry) → ¬ MeansEntry (view table.now) entry) }
{
    match step_of(alloc, table)? {
        Some(step) => Ok(Some(Entry::One(step))),
        None => Ok(None),
    }
}

/// The entry that a table means. None where a key is missing, holds something else than its field asks for, or doesn't
/// fit it. Further keys are ignored.
pub fn entry_of(alloc: Global, table: &Value) -> Result<Option<Entry>, AllocError>
    ensures found { IfOk result (λ found. IfSome found (MeansEntry (view table.now))) }
    ensures none { IfOk result (λ found. found ≡ None → (entry : Entry) → ¬ MeansEntry (view table.now) entry) }
{
    let Some(kind) = table.get("kind") else {
        return one_entry_of(alloc, table);
    };
    match kind.as_str() {
        Some("deliver_all") => all_entry_of(alloc, table),
        _ => one_entry_of(alloc, table),
    }
}
