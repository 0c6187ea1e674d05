//! The keys of a text that nothing reads.

ghost use Rattle.std.specs.Prelude.{◌≡◌, ◌++◌, ◌∷◌, [], IfOk, OnOk, codes, map, string_bytes};
ghost use Rattle.toml.specs.Data.{get, table};
ghost use Rattle.toml.specs.View.{view, table_view};
ghost use Rattle.text_faults.specs.declared.kind.Kind.TheVariants as kinds;
ghost use Rattle.text_faults.specs.declared.fault.Place.TheVariants as places;
ghost use Rattle.text_faults.specs.Faults.{chosen, numbered};
ghost use Rattle.text_faults.specs.Rows.{choice_of};
ghost use Rattle.text_faults.specs.Unread.{key_there, has_row, is_offered, has_key, is_read, unread_keys};
ghost use Rattle.text_faults.specs.Unread.{unread_of_kind, unread_of_kinds, unread_in, offered_unread, command_unread};
ghost use Rattle.text_faults.specs.Unread.{event_unread, except_unread, own_unread, plan_unread};
ghost use Rattle.text_faults.specs.Unread.{script_unread, is_bare, name_text, unread_text};

use crate::fault::Place;
use crate::kind::Kind;
use crate::search::{chosen, is_offer, items_at, may_except};
use crate::texts::head_text;
use std::alloc::{AllocError, Global};
use toml::{Table, Value};

/// A key of a table that nothing reads.
#[derive(Drop)]
pub struct Unread {
    pub place: Place,
    /// The kind of table that has the key.
    pub kind: Kind,
    pub key: String,
}

/// Whether a table of this kind has a row of this name.
fn has_row(name: &str, kind: Kind) -> bool
    ensures { result ≡ has_row name.now kind }
{
    kind.rows().iter().any(|row| row.0.name() == name)
}

/// Whether a table offers something by this name.
fn is_offered(name: &str) -> bool
    ensures { result ≡ is_offered name.now }
{
    name == "command" || name == "value"
}

/// Whether a table of this kind has a row of this name, or offers something by it.
fn has_key(name: &str, kind: Kind) -> bool
    ensures { result ≡ has_key name.now kind }
{
    has_row(name, kind) || (kind.offers() && is_offered(name))
}

/// Whether a table of these kinds reads the key.
fn is_read(kinds: &[Kind], name: &str) -> bool
    ensures { result ≡ is_read kinds.now name.now }
{
    kinds.iter().any(|kind| has_key(name, *kind))
}

/// A table, as it is told: its place and its kind.
#[derive(Clone, Copy)]
struct Told {
    place: Place,
    kind: Kind,
}

/// Notes the keys of a table that none of these kinds reads.
fn note_members(
    alloc: Global,
    unread: &mut Vec<Unread>,
    told: Told,
    kinds: &[Kind],
    members: &Table,
) -> Result<(), AllocError>
    ensures { OnOk result (map key_there unread.new.items
        ≡ map key_there unread.old.items ++ unread_keys told.place told.kind kinds.now (table (table_view members.now))) }
{
    for (key, _) in members {
        if !is_read(kinds, key.as_str()) {
            let key = String::from_str(alloc, key.as_str())?;
            unread.push(Unread {
                place: told.place,
                kind: told.kind,
                key,
            })?;
        }
    }
    Ok(())
}

fn note_keys(
    alloc: Global,
    unread: &mut Vec<Unread>,
    told: Told,
    kinds: &[Kind],
    table: &Value,
) -> Result<(), AllocError>
    ensures { OnOk result (map key_there unread.new.items
        ≡ map key_there unread.old.items ++ unread_keys told.place told.kind kinds.now (view table.now)) }
{
    match table {
        Value::Table(members) => note_members(alloc, unread, told, kinds, members),
        _ => Ok(()),
    }
}

/// Notes those of a table that is of two kinds, and of a third if the second has a choice. The second is told.
fn note_kinds(
    alloc: Global,
    unread: &mut Vec<Unread>,
    told: Told,
    first: Kind,
    table: &Value,
) -> Result<(), AllocError>
    ensures { OnOk result (map key_there unread.new.items ≡ map key_there unread.old.items
        ++ unread_of_kinds told.place first told.kind (choice_of told.kind) (chosen told.kind (view table.now)) (view table.now)) }
{
    let kind = told.kind;
    match (kind.choice(), chosen(kind, table)) {
        (_, Some(service)) => note_keys(alloc, unread, told, &[first, kind, service], table),
        (None, None) => note_keys(alloc, unread, told, &[first, kind], table),
        (Some(_), None) => Ok(()),
    }
}

/// Notes those of a table of this kind, none where the kind that it names isn't known.
fn note_table(
    alloc: Global,
    unread: &mut Vec<Unread>,
    place: Place,
    first: Kind,
    table: &Value,
) -> Result<(), AllocError>
    ensures { OnOk result (map key_there unread.new.items ≡ map key_there unread.old.items ++ unread_in place first (view table.now)) }
{
    match chosen(first, table) {
        Some(kind) => note_kinds(alloc, unread, Told { place, kind }, first, table),
        None => Ok(()),
    }
}

/// Notes those of the command that an event offers.
fn note_offered(
    alloc: Global,
    unread: &mut Vec<Unread>,
    event: usize,
    table: &Value,
) -> Result<(), AllocError>
    ensures { OnOk result (map key_there unread.new.items ≡ map key_there unread.old.items
        ++ offered_unread event (get (codes "command") (view table.now)) (get (codes "value") (view table.now))) }
{
    match (table.get("command"), table.get("value")) {
        (Some(command), None) => note_table(
            alloc,
            unread,
            Place::Offered(event),
            Kind::Command,
            command,
        ),
        _ => Ok(()),
    }
}

/// Notes those of the tables by which an event excepts letters.
fn note_excepts(
    alloc: Global,
    unread: &mut Vec<Unread>,
    event: usize,
    items: &[Value],
) -> Result<(), AllocError>
    ensures { OnOk result (map key_there unread.new.items
        ≡ map key_there unread.old.items ++ numbered (except_unread event) 0 (map view items.now)) }
{
    for (i, item) in items.iter().enumerate() {
        let told = Told {
            place: Place::Excepted(event, i),
            kind: Kind::Excepted,
        };
        note_keys(alloc, unread, told, &[Kind::Excepted], item)?;
    }
    Ok(())
}

/// Notes those of an event but for those of what it excepts.
fn note_own(
    alloc: Global,
    unread: &mut Vec<Unread>,
    event: usize,
    table: &Value,
) -> Result<(), AllocError>
    ensures { OnOk result (map key_there unread.new.items ≡ map key_there unread.old.items ++ own_unread event (view table.now)) }
{
    note_table(alloc, unread, Place::Event(event), Kind::Event, table)?;
    if is_offer(table) {
        return note_offered(alloc, unread, event, table);
    }
    Ok(())
}

fn note_event(
    alloc: Global,
    unread: &mut Vec<Unread>,
    event: usize,
    table: &Value,
) -> Result<(), AllocError>
    ensures { OnOk result (map key_there unread.new.items ≡ map key_there unread.old.items ++ event_unread event (view table.now)) }
{
    note_own(alloc, unread, event, table)?;
    if may_except(table) {
        return note_excepts(alloc, unread, event, items_at(table, "except"));
    }
    Ok(())
}

fn note_commands(alloc: Global, unread: &mut Vec<Unread>, items: &[Value]) -> Result<(), AllocError>
    ensures { OnOk result (map key_there unread.new.items
        ≡ map key_there unread.old.items ++ numbered command_unread 1 (map view items.now)) }
{
    for (i, item) in items.iter().enumerate() {
        note_table(alloc, unread, Place::Command(i + 1), Kind::Command, item)?;
    }
    Ok(())
}

fn note_events(alloc: Global, unread: &mut Vec<Unread>, items: &[Value]) -> Result<(), AllocError>
    ensures { OnOk result (map key_there unread.new.items
        ≡ map key_there unread.old.items ++ numbered event_unread 0 (map view items.now)) }
{
    for (i, item) in items.iter().enumerate() {
        note_event(alloc, unread, i, item)?;
    }
    Ok(())
}

/// The keys of a plan, and of its commands, that nothing reads. A table of an unknown kind has none.
pub fn plan_unread(alloc: Global, plan: &Value) -> Result<Vec<Unread>, AllocError>
    ensures { IfOk result (λ unread. map key_there unread.items ≡ plan_unread (view plan.now)) }
{
    let mut unread = Vec::new(alloc);
    let told = Told {
        place: Place::Whole,
        kind: Kind::Plan,
    };
    note_keys(alloc, &mut unread, told, &[Kind::Plan], plan)?;
    note_commands(alloc, &mut unread, items_at(plan, "command"))?;
    Ok(unread)
}

/// The same of a script, of its events, and of the commands that they offer.
pub fn script_unread(alloc: Global, script: &Value) -> Result<Vec<Unread>, AllocError>
    ensures { IfOk result (λ unread. map key_there unread.items ≡ script_unread (view script.now)) }
{
    let mut unread = Vec::new(alloc);
    let told = Told {
        place: Place::Whole,
        kind: Kind::Script,
    };
    note_keys(alloc, &mut unread, told, &[Kind::Script], script)?;
    note_events(alloc, &mut unread, items_at(script, "event"))?;
    Ok(unread)
}

/// Whether a key is of letters, digits, underlines and dashes alone.
fn is_bare(name: &str) -> bool
    ensures { result ≡ is_bare name.now }
{
    name.as_bytes().iter().all(|byte| byte.is_ascii_alphanumeric()
        || *byte == b'_'
        || *byte == b'-')
}

fn name_text(alloc: Global, name: &str) -> Result<String, AllocError>
    ensures { IfOk result (λ text. string_bytes text ≡ name_text name.now) }
{
    if is_bare(name) {
        return format!(in alloc; "\"{name}\"");
    }
    String::from_str(alloc, "a key that isn't a bare one")
}

/// A key that nothing reads, without its line's end: the table, and the key.
pub fn unread_text(alloc: Global, unread: &Unread) -> Result<String, AllocError>
    ensures { IfOk result (λ text. string_bytes text ≡ unread_text (key_there unread.now)) }
{
    let head = head_text(alloc, unread.place, unread.kind)?;
    let name = name_text(alloc, unread.key.as_str())?;
    format!(in alloc; "{head}: nothing reads {name}")
}
