//! The search for faults, table by table.

ghost use Rattle.std.specs.Prelude.{◌≡◌, ◌++◌, IfOk, OnOk, codes, map};
ghost use Rattle.std.specs.List.{AllByRecursion};
ghost use Rattle.toml.specs.Data.{get};
ghost use Rattle.toml.specs.View.{view};
ghost use Rattle.text_faults.specs.Rows.{key_name};
ghost use Rattle.text_faults.specs.Items.{items_at};
ghost use Rattle.text_faults.specs.declared.kind.Kind.TheVariants as kinds;
ghost use Rattle.text_faults.specs.Unfit.{IsUnfit};
ghost use Rattle.text_faults.specs.Faults.{fault_at, key_faults, chosen, kind_faults, table_faults, is_hex, is_offer};
ghost use Rattle.text_faults.specs.Faults.{letter_kind, named_in, says_whose};
ghost use Rattle.text_faults.specs.Faults.{value_fault, offered_faults, command_faults, event_faults, id_faults};
ghost use Rattle.text_faults.specs.Faults.{except_faults, except_kind, may_except, own_faults, says_any};
ghost use Rattle.text_faults.specs.Faults.{numbered, plan_faults, script_faults, IsPlanTable, IsScript, TellsWhether};

use crate::fault::{Fault, Found, Place, found_in};
use crate::kind::{Group, Kind};
use crate::row::{Choice, Key, WORD, Wants};
use hex::FromHexError;
use std::alloc::{AllocError, Global};
use toml::Value;

fn fault_at(place: Place, kind: Kind, table: &Value, row: (Key, Wants)) -> Option<Fault>
    ensures { result ≡ fault_at place kind (view table.now) row }
{
    let (key, wants) = row;
    let found = match table.get(key.name()) {
        Some(value) if wants.holds(value) => return None,
        Some(value) => found_in(value),
        None if wants.may_lack() => return None,
        None => Found::Nothing,
    };
    Some(Fault {
        place,
        kind,
        key,
        wants,
        found,
    })
}

/// Notes the faults of the keys that a kind has, told of another kind or the same.
fn note_keys(
    faults: &mut Vec<Fault>,
    place: Place,
    told: Kind,
    kind: Kind,
    table: &Value,
) -> Result<(), AllocError>
    ensures { OnOk result (faults.new.items ≡ faults.old.items ++ key_faults place told kind (view table.now)) }
{
    for row in kind.rows() {
        if let Some(fault) = fault_at(place, told, table, *row) {
            faults.push(fault)?;
        }
    }
    Ok(())
}

/// Whether one of the keys is there that say from whom, to whom, or of what kind a letter is.
fn says_whose(table: &Value) -> bool
    ensures { result ≡ says_whose (view table.now) }
{
    table.get("from").is_some() || table.get("to").is_some() || table.get("note").is_some()
}

/// How a table asks for a letter.
fn letter_kind(table: &Value) -> Kind
    ensures { result ≡ letter_kind (get (codes "letter") (view table.now)) (says_whose (view table.now)) }
{
    if table.get("letter").is_some() {
        return Kind::Numbered;
    }
    if says_whose(table) {
        Kind::Named
    } else {
        Kind::Unnamed
    }
}

/// The kind of the group that a key of a table names.
fn named_at(table: &Value, key: Key, group: Group) -> Option<Kind>
    ensures { result ≡ named_in group (get (key_name key) (view table.now)) }
{
    let name = table.get(key.name())?.as_str()?;
    group.named(name)
}

/// The further kind of which a table of a kind is.
pub(crate) fn chosen(kind: Kind, table: &Value) -> Option<Kind>
    ensures { result ≡ chosen kind (view table.now) }
{
    match kind.choice()? {
        Choice::Naming(key, group) => named_at(table, key, group),
        Choice::OfLetter => Some(letter_kind(table)),
    }
}

fn note_kind(
    faults: &mut Vec<Fault>,
    place: Place,
    kind: Option<Kind>,
    table: &Value,
) -> Result<(), AllocError>
    ensures { OnOk result (faults.new.items ≡ faults.old.items ++ kind_faults place kind (view table.now)) }
{
    let Some(kind) = kind else {
        return Ok(());
    };
    note_keys(faults, place, kind, kind, table)?;
    match chosen(kind, table) {
        Some(service) => note_keys(faults, place, kind, service, table),
        None => Ok(()),
    }
}

/// Notes the faults of a table of this kind, and of the kind that it names.
fn note_table(
    faults: &mut Vec<Fault>,
    place: Place,
    kind: Kind,
    table: &Value,
) -> Result<(), AllocError>
    ensures { OnOk result (faults.new.items ≡ faults.old.items ++ table_faults place kind (view table.now)) }
{
    note_keys(faults, place, kind, kind, table)?;
    note_kind(faults, place, chosen(kind, table), table)
}

/// Whether the value is a text of two hexadecimal digits a byte.
fn is_hex(alloc: Global, value: &Value) -> Result<bool, AllocError>
    ensures { IfOk result (λ answer. answer ≡ is_hex (view value.now)) }
{
    let Some(digits) = value.as_str() else {
        return Ok(false);
    };
    match hex::decode(alloc, digits) {
        Ok(_) => Ok(true),
        Err(FromHexError::OutOfMemory) => Err(AllocError),
        Err(_) => Ok(false),
    }
}

fn value_fault(event: usize, wants: Wants, found: Found) -> Fault
    ensures { result ≡ value_fault event wants found }
{
    Fault {
        place: Place::Event(event),
        kind: Kind::Offer,
        key: Key::Value,
        wants,
        found,
    }
}

/// Notes the faults of the command or the bytes that an event offers.
fn note_offered(
    alloc: Global,
    faults: &mut Vec<Fault>,
    event: usize,
    table: &Value,
) -> Result<(), AllocError>
    ensures { OnOk result (faults.new.items ≡ faults.old.items
        ++ offered_faults event (get (codes "command") (view table.now)) (get (codes "value") (view table.now))) }
{
    let fault = match (table.get("command"), table.get("value")) {
        (Some(command), None) => {
            return note_table(faults, Place::Offered(event), Kind::Command, command);
        }
        (Some(_), Some(digits)) => value_fault(event, Wants::Nothing, found_in(digits)),
        (None, Some(digits)) if is_hex(alloc, digits)? => return Ok(()),
        (None, Some(digits)) => value_fault(event, Wants::Hex, found_in(digits)),
        (None, None) => value_fault(event, Wants::Hex, Found::Nothing),
    };
    faults.push(fault)?;
    Ok(())
}

/// Whether the table is of a kind that offers something.
pub(crate) fn is_offer(table: &Value) -> bool
    ensures { result ≡ is_offer (chosen kinds.Event (view table.now)) }
{
    match chosen(Kind::Event, table) {
        Some(kind) => kind.offers(),
        None => false,
    }
}

/// Whether one of the keys is there that say something of a letter.
fn says_any(table: &Value) -> bool
    ensures { result ≡ says_any (view table.now) }
{
    says_whose(table) || table.get("ballot").is_some() || table.get("place").is_some()
}

/// Of which kind a table is that excepts letters.
pub(crate) fn except_kind(table: &Value) -> Kind
    ensures { result ≡ except_kind (view table.now) }
{
    if says_any(table) {
        Kind::Excepted
    } else {
        Kind::Boundless
    }
}

/// Notes the faults of the tables by which an event excepts letters.
fn note_excepts(faults: &mut Vec<Fault>, event: usize, items: &[Value]) -> Result<(), AllocError>
    ensures { OnOk result (faults.new.items ≡ faults.old.items ++ numbered (except_faults event) 0 (map view items.now)) }
{
    for (i, item) in items.iter().enumerate() {
        let place = Place::Excepted(event, i);
        note_keys(faults, place, Kind::Excepted, except_kind(item), item)?;
    }
    Ok(())
}

/// Whether the table is of a kind that may except letters.
pub(crate) fn may_except(table: &Value) -> bool
    ensures { result ≡ may_except (chosen kinds.Event (view table.now)) }
{
    match chosen(Kind::Event, table) {
        Some(kind) => kind.excepts(),
        None => false,
    }
}

/// Notes the faults of an event but for those of what it excepts.
fn note_own(
    alloc: Global,
    faults: &mut Vec<Fault>,
    event: usize,
    table: &Value,
) -> Result<(), AllocError>
    ensures { OnOk result (faults.new.items ≡ faults.old.items ++ own_faults event (view table.now)) }
{
    note_table(faults, Place::Event(event), Kind::Event, table)?;
    if is_offer(table) {
        return note_offered(alloc, faults, event, table);
    }
    Ok(())
}

fn note_event(
    alloc: Global,
    faults: &mut Vec<Fault>,
    event: usize,
    table: &Value,
) -> Result<(), AllocError>
    ensures { OnOk result (faults.new.items ≡ faults.old.items ++ event_faults event (view table.now)) }
{
    note_own(alloc, faults, event, table)?;
    if may_except(table) {
        return note_excepts(faults, event, items_at(table, "except"));
    }
    Ok(())
}

fn note_id(faults: &mut Vec<Fault>, index: usize, item: &Value) -> Result<(), AllocError>
    ensures { OnOk result (faults.new.items ≡ faults.old.items ++ id_faults index (view item.now)) }
{
    if WORD.holds(item) {
        return Ok(());
    }
    faults.push(Fault {
        place: Place::Modem(index),
        kind: Kind::Modem,
        key: Key::Id,
        wants: WORD,
        found: found_in(item),
    })?;
    Ok(())
}

/// The items of the array under a key, none where there is no array.
pub(crate) fn items_at<'a>(table: &'a Value, key: &str) -> &'a [Value]
    ensures { map view result.now ≡ items_at (view table.now) key.now }
{
    match table.get(key) {
        Some(value) => match value.as_array() {
            Some(items) => items.as_slice(),
            None => &[],
        },
        None => &[],
    }
}

fn note_commands(faults: &mut Vec<Fault>, items: &[Value]) -> Result<(), AllocError>
    ensures { OnOk result (faults.new.items ≡ faults.old.items ++ numbered command_faults 1 (map view items.now)) }
{
    for (i, item) in items.iter().enumerate() {
        note_table(faults, Place::Command(i + 1), Kind::Command, item)?;
    }
    Ok(())
}

fn note_ids(faults: &mut Vec<Fault>, items: &[Value]) -> Result<(), AllocError>
    ensures { OnOk result (faults.new.items ≡ faults.old.items ++ numbered id_faults 0 (map view items.now)) }
{
    for (i, item) in items.iter().enumerate() {
        note_id(faults, i, item)?;
    }
    Ok(())
}

fn note_events(alloc: Global, faults: &mut Vec<Fault>, items: &[Value]) -> Result<(), AllocError>
    ensures { OnOk result (faults.new.items ≡ faults.old.items ++ numbered event_faults 0 (map view items.now)) }
{
    for (i, item) in items.iter().enumerate() {
        note_event(alloc, faults, i, item)?;
    }
    Ok(())
}

/// The faults of a plan, each command's in its place.
pub fn plan_faults(alloc: Global, plan: &Value) -> Result<Vec<Fault>, AllocError>
    ensures exact { IfOk result (λ faults. faults.items ≡ plan_faults (view plan.now)) }
    ensures none { IfOk result (λ faults. TellsWhether IsPlanTable (view plan.now) faults.items) }
    ensures unfit { IfOk result (λ faults. AllByRecursion (IsUnfit (view plan.now)) faults.items) }
{
    let mut faults = Vec::new(alloc);
    note_keys(&mut faults, Place::Whole, Kind::Plan, Kind::Plan, plan)?;
    note_commands(&mut faults, items_at(plan, "command"))?;
    Ok(faults)
}

/// The faults of a script: of its members, its modems and its events.
pub fn script_faults(alloc: Global, script: &Value) -> Result<Vec<Fault>, AllocError>
    ensures exact { IfOk result (λ faults. faults.items ≡ script_faults (view script.now)) }
    ensures none { IfOk result (λ faults. TellsWhether IsScript (view script.now) faults.items) }
    ensures unfit { IfOk result (λ faults. AllByRecursion (IsUnfit (view script.now)) faults.items) }
{
    let mut faults = Vec::new(alloc);
    note_keys(
        &mut faults,
        Place::Whole,
        Kind::Script,
        Kind::Script,
        script,
    )?;
    note_ids(&mut faults, items_at(script, "modems"))?;
    note_events(alloc, &mut faults, items_at(script, "event"))?;
    Ok(faults)
}
