//! A plan: an array of commands in TOML.

ghost use Rattle.std.specs.Prelude.{◌≡◌, Some, IfOk, IfErr, map, option_map, codes};
ghost use Rattle.std.specs.List.{AllZip};
ghost use Rattle.toml.specs.View.{view, table_view};
ghost use Rattle.script_text.specs.declared.plan.PlanFault.TheVariants.{OutOfMemory};
ghost use Rattle.script_text.specs.CommandTable.{SpellsCommand};
ghost use Rattle.script_text.specs.Items.{tables_at as plan_tables};
ghost use Rattle.script_text.specs.Plan.{IsBadFromOne, HasCommands, IsBadAt, IsFaultAt, IsPlan, IsPlanFault};

use crate::command_table::command_of;
use crate::fields::tables_at;
use grant_machine::Command;
use std::alloc::{AllocFailed, Global};
use std::mem;
use thiserror::Error;
use toml::{Table, Value};

/// Why a text is no plan. Positions count commands from 1.
#[derive(Clone, Copy, Debug, PartialEq, Eq, Error)]
pub enum PlanFault {
    /// The text isn't TOML.
    #[error("1 NotToml")]
    NotToml,
    /// The command at this position isn't one. Position 1 too where `command` isn't an array of
    /// tables.
    #[error("2 BadCommand {0}")]
    BadCommand(usize),
    #[error("3 OutOfMemory")]
    OutOfMemory,
}

impl<T: Drop> From<AllocFailed<T>> for PlanFault {
    ghost from_gives = { λ _ e. e ≡ OutOfMemory };

    fn from(_e: AllocFailed<T>) -> PlanFault {
        PlanFault::OutOfMemory
    }
}

// The commands that the items spell. An item is freed as soon as it is read, while it is still in the cache.
fn read_items(alloc: Global, items: Vec<Value>) -> Result<Vec<Command>, PlanFault>
    ensures read { IfOk result (λ commands. AllZip SpellsCommand (map view items.items) commands.items) }
    ensures fault { IfErr result (IsFaultAt (IsBadFromOne (Some (map view items.items)))) }
{
    let mut commands = Vec::new(alloc);
    for item in items {
        match command_of(&item) {
            Some(command) => commands.push(command)?,
            None => return Err(PlanFault::BadCommand(commands.len() + 1)),
        }
    }
    Ok(commands)
}

// The tables of the array that the key `command` holds, none without the key. Nothing where it holds anything else.
fn taken_tables(alloc: Global, table: Table) -> Option<Vec<Value>>
    ensures { option_map (λ items. map view items.items) result ≡ plan_tables (table_view table) (codes "command") }
{
    tables_at(&table, "command")?;
    let mut table = table;
    let Some(value) = table.remove("command") else {
        return Some(Vec::new(alloc));
    };
    let mut value = value;
    let items = value.as_array_mut()?;
    Some(mem::replace(items, Vec::new(alloc)))
}

fn read_table(alloc: Global, table: Table) -> Result<Vec<Command>, PlanFault>
    ensures read { IfOk result (λ commands. HasCommands (table_view table) commands.items) }
    ensures fault { IfErr result (IsFaultAt (IsBadAt (table_view table))) }
{
    match taken_tables(alloc, table) {
        Some(items) => read_items(alloc, items),
        None => Err(PlanFault::BadCommand(1)),
    }
}

/// Reads the commands of a plan, none where the text has no key `command`.
pub fn read_plan(alloc: Global, text: &str) -> Result<Vec<Command>, PlanFault>
    ensures read { IfOk result (λ commands. IsPlan text.now commands.items) }
    ensures fault { IfErr result (IsPlanFault text.now) }
{
    match toml::table_from_str(alloc, text) {
        Ok(table) => read_table(alloc, table),
        Err(error) if error.is_memory() => Err(PlanFault::OutOfMemory),
        Err(_) => Err(PlanFault::NotToml),
    }
}
