//! A script: members, modems and events in TOML.

ghost use Rattle.std.specs.Prelude.{◌≡◌, ℕ, Some, IfSome, IfOk, IfErr, map};
ghost use Rattle.std.specs.List.{AllZip};
ghost use Rattle.toml.specs.View.{view, table_view};
ghost use Rattle.ballots.specs.declared.members.Members.{Members};
ghost use Rattle.script_text.specs.declared.script.ScriptFault.TheVariants.{OutOfMemory};
ghost use Rattle.script_text.specs.EventTable.{MeansEvent};
ghost use Rattle.script_text.specs.Items.{IsFirstBad};
ghost use Rattle.script_text.specs.Script.{HasMembers, IsId, HasModems, HasEvents, IsBadAt, IsFaultAt, IsNoIds};
ghost use Rattle.script_text.specs.Script.{IsScriptTable, IsTableFault, IsScript, IsScriptFault};

use crate::event_table::event_of;
use crate::fields::{items_at, member, tables_at};
use ballots::Members;
use std::alloc::{AllocFailed, Global};
use thiserror::Error;
use toml::{Table, Value};
use world_events::Event;

/// What a world is made of, and what happens in it.
#[derive(Drop)]
pub struct Script {
    pub members: Members,
    /// The ids of the modems.
    pub modems: Vec<u32>,
    pub events: Vec<Event>,
}

/// Why a text is no script. Positions count events from 0.
#[derive(Clone, Copy, Debug, PartialEq, Eq, Error)]
pub enum ScriptFault {
    /// The text isn't TOML.
    #[error("1 NotToml")]
    NotToml,
    /// The event at this position isn't one. Position 0 too where `event` isn't an array of
    /// tables.
    #[error("2 BadEvent {0}")]
    BadEvent(usize),
    /// `members` isn't 3 or 5, or `modems` isn't an array of ids.
    #[error("3 BadMembers")]
    BadMembers,
    #[error("4 OutOfMemory")]
    OutOfMemory,
}

impl<T: Drop> From<AllocFailed<T>> for ScriptFault {
    ghost from_gives = { λ _ e. e ≡ OutOfMemory };

    fn from(_e: AllocFailed<T>) -> ScriptFault {
        ScriptFault::OutOfMemory
    }
}

pub(crate) fn members_of(table: &Table) -> Option<Members>
    ensures found { IfSome result (HasMembers (table_view table.now)) }
    ensures only { (count : Members) → HasMembers (table_view table.now) count → result ≡ Some count }
{
    let count = member(table, "members")?.as_integer()?;
    Members::of(u8::try_from(count).ok()?)
}

fn id_of(item: &Value) -> Option<u32>
    ensures found { IfSome result (IsId (view item.now)) }
    ensures only { (id : ℕ) → IsId (view item.now) id → result ≡ Some id }
{
    let number = item.as_integer()?;
    u32::try_from(number).ok()
}

fn read_ids(alloc: Global, items: &[Value]) -> Result<Vec<u32>, ScriptFault>
    ensures read { IfOk result (λ ids. AllZip IsId (map view items.now) ids.items) }
    ensures fault { IfErr result (IsNoIds (AllZip IsId (map view items.now))) }
{
    let mut ids = Vec::new(alloc);
    for item in items {
        match id_of(item) {
            Some(id) => ids.push(id)?,
            None => return Err(ScriptFault::BadMembers),
        }
    }
    Ok(ids)
}

pub(crate) fn read_modems(alloc: Global, table: &Table) -> Result<Vec<u32>, ScriptFault>
    ensures read { IfOk result (λ ids. HasModems (table_view table.now) ids.items) }
    ensures fault { IfErr result (IsNoIds (HasModems (table_view table.now))) }
{
    match items_at(table, "modems") {
        Some(items) => read_ids(alloc, items),
        None => Err(ScriptFault::BadMembers),
    }
}

fn read_items(alloc: Global, items: &[Value]) -> Result<Vec<Event>, ScriptFault>
    ensures read { IfOk result (λ events. AllZip MeansEvent (map view items.now) events.items) }
    ensures fault { IfErr result (IsFaultAt (IsFirstBad MeansEvent (map view items.now))) }
{
    let mut events = Vec::new(alloc);
    for (i, item) in items.iter().enumerate() {
        match event_of(alloc, item) {
            Ok(Some(event)) => events.push(event)?,
            Ok(None) => return Err(ScriptFault::BadEvent(i)),
            Err(_) => return Err(ScriptFault::OutOfMemory),
        }
    }
    Ok(events)
}

fn read_events(alloc: Global, table: &Table) -> Result<Vec<Event>, ScriptFault>
    ensures read { IfOk result (λ events. HasEvents (table_view table.now) events.items) }
    ensures fault { IfErr result (IsFaultAt (IsBadAt (table_view table.now))) }
{
    match tables_at(table, "event") {
        Some(items) => read_items(alloc, items),
        None => Err(ScriptFault::BadEvent(0)),
    }
}

fn read_table(alloc: Global, table: &Table) -> Result<Script, ScriptFault>
    ensures read { IfOk result (λ script. IsScriptTable (table_view table.now) script.members script.modems.items script.events.items) }
    ensures fault { IfErr result (IsTableFault (table_view table.now)) }
{
    let Some(members) = members_of(table) else {
        return Err(ScriptFault::BadMembers);
    };
    let modems = read_modems(alloc, table)?;
    let events = read_events(alloc, table)?;
    Ok(Script {
        members,
        modems,
        events,
    })
}

/// Reads a script. Its members and modems are looked at before its events.
pub fn read_script(alloc: Global, text: &str) -> Result<Script, ScriptFault>
    ensures read { IfOk result (λ script. IsScript text.now script.members script.modems.items script.events.items) }
    ensures fault { IfErr result (IsScriptFault text.now) }
{
    match toml::table_from_str(alloc, text) {
        Ok(table) => read_table(alloc, &table),
        Err(error) if error.is_memory() => Err(ScriptFault::OutOfMemory),
        Err(_) => Err(ScriptFault::NotToml),
    }
}
