//! A script whose deliveries may name their letters, or be of all that wait.

ghost use Rattle.std.specs.Prelude.{◌≡◌, IfOk, IfErr, map};
ghost use Rattle.std.specs.List.{AllZip};
ghost use Rattle.toml.specs.View.{view, table_view};
ghost use Rattle.script_text.specs.Items.{IsFirstBad};
ghost use Rattle.script_text.specs.Script.{IsFaultAt};
ghost use Rattle.script_text.specs.StepScript.{EventsAreSteps, HasSteps, IsBadStepAt, IsStepFault, IsStepScript};
ghost use Rattle.script_text.specs.StepScript.{IsStepTable, IsStepTableFault};
ghost use Rattle.script_text.specs.EntryTable.{MeansEntry};

use crate::entry_table::entry_of;
use crate::fields::tables_at;
use crate::script::{ScriptFault, members_of, read_modems};
use ballots::Members;
use script_steps::Entry;
use std::alloc::Global;
use toml::{Table, Value};

/// What a world is made of, and what is asked for in it.
#[derive(Drop)]
pub struct StepScript {
    pub members: Members,
    /// The ids of the modems.
    pub modems: Vec<u32>,
    /// Its events, from 0 on.
    pub steps: Vec<Entry>,
}

fn read_items(alloc: Global, items: &[Value]) -> Result<Vec<Entry>, ScriptFault>
    ensures read { IfOk result (λ entries. AllZip MeansEntry (map view items.now) entries.items) }
    ensures fault { IfErr result (IsFaultAt (IsFirstBad MeansEntry (map view items.now))) }
{
    let mut entries = Vec::new(alloc);
    for (i, item) in items.iter().enumerate() {
        match entry_of(alloc, item) {
            Ok(Some(entry)) => entries.push(entry)?,
            Ok(None) => return Err(ScriptFault::BadEvent(i)),
            Err(_) => return Err(ScriptFault::OutOfMemory),
        }
    }
    Ok(entries)
}

fn read_array(alloc: Global, table: &Table) -> Result<Vec<Entry>, ScriptFault>
    ensures read { IfOk result (λ entries. HasSteps (table_view table.now) entries.items) }
    ensures fault { IfErr result (IsFaultAt (IsBadStepAt (table_view table.now))) }
{
    match tables_at(table, "event") {
        Some(items) => read_items(alloc, items),
        None => Err(ScriptFault::BadEvent(0)),
    }
}

fn read_table(alloc: Global, table: &Table) -> Result<StepScript, ScriptFault>
    ensures read { IfOk result (λ script. IsStepTable (table_view table.now) script.members script.modems.items script.steps.items) }
    ensures fault { IfErr result (IsStepTableFault (table_view table.now)) }
{
    let Some(members) = members_of(table) else {
        return Err(ScriptFault::BadMembers);
    };
    let modems = read_modems(alloc, table)?;
    let steps = read_array(alloc, table)?;
    Ok(StepScript {
        members,
        modems,
        steps,
    })
}

/// Reads a script whose deliveries may name their letters, or be of all that wait. Its members and modems are looked at
/// before its events.
pub fn read_steps(alloc: Global, text: &str) -> Result<StepScript, ScriptFault>
    ensures read { IfOk result (λ script. IsStepScript text.now script.members script.modems.items script.steps.items) }
    ensures fault { IfErr result (IsStepFault text.now) }
{
    match toml::table_from_str(alloc, text) {
        Ok(table) => read_table(alloc, &table),
        Err(error) if error.is_memory() => Err(ScriptFault::OutOfMemory),
        Err(_) => Err(ScriptFault::NotToml),
    }
}

/// A script of events is one of entries that are these events.
pub fn events_are_steps()
    ensures { EventsAreSteps }
{}
