//! A command as a table of TOML, in a line.

ghost use Rattle.std.specs.Prelude.{◌≡◌, IfErr, IfOk, MatchOption, codes, option_map};
ghost use Rattle.toml.specs.Data.{get_member};
ghost use Rattle.toml.specs.View.{table_view, view};
ghost use Rattle.node_lines.specs.Commands.{HoldsCommand, IsCommandLine, IsCommandText, IsNoCommand};
ghost use Rattle.node_lines.specs.Lines.{Asks, IsCommandOffer, IsRefused};

use crate::fault::LineFault;
use crate::request::Request;
use ballots::Bytes;
use command_log::command_bytes;
use grant_machine::Command;
use script_text::command_of;
use std::alloc::Global;
use std::str;
use toml::{Table, Value};

/// The most bytes of a command's line, without its end.
pub const LONGEST_COMMAND: usize = 4096;

/// What the text's table holds under `command`.
fn held_in(table: &Table) -> Option<&Value>
    ensures { option_map (λ v. view v.now) result ≡ get_member (codes "command") (table_view table.now) }
{
    table.get("command")
}

/// The command that a text's table holds.
fn command_held(table: &Table) -> Option<Command>
    ensures { MatchOption result ((c : Command) → ¬ HoldsCommand (table_view table.now) c) (HoldsCommand (table_view table.now)) }
{
    let held = held_in(table)?;
    command_of(held)
}

/// The command that a text of TOML holds under `command`, as a table.
pub fn command_in(alloc: Global, text: &[u8]) -> Result<Command, LineFault>
    ensures read { IfOk result (IsCommandText text.now) }
    ensures fault { IfErr result (IsNoCommand (IsCommandText text.now)) }
{
    let Ok(text) = str::from_utf8(text) else {
        return Err(LineFault::NoCommand);
    };
    match toml::table_from_str(alloc, text) {
        Ok(table) => match command_held(&table) {
            Some(command) => Ok(command),
            None => Err(LineFault::NoCommand),
        },
        Err(error) if error.is_memory() => Err(LineFault::OutOfMemory),
        Err(_) => Err(LineFault::NoCommand),
    }
}

/// The bytes of the command that is offered by a line that begins with its word.
fn offered_by(alloc: Global, line: &[u8]) -> Result<Vec<u8>, LineFault>
    requires { IsCommandLine line.now }
    ensures read { IfOk result (λ bytes. IsCommandOffer line.now bytes.items) }
    ensures fault { IfErr result (IsRefused line.now) }
{
    if line.len() > LONGEST_COMMAND {
        return Err(LineFault::TooLong);
    }
    let command = command_in(alloc, line)?;
    match command_bytes(alloc, &command) {
        Ok(bytes) => Ok(bytes),
        Err(_) => Err(LineFault::OutOfMemory),
    }
}

/// What a line asks that begins with a command's word.
pub(crate) fn offer_in(alloc: Global, line: &[u8]) -> Result<Request, LineFault>
    requires { IsCommandLine line.now }
    ensures read { IfOk result (Asks line.now) }
    ensures fault { IfErr result (IsRefused line.now) }
{
    match offered_by(alloc, line) {
        Ok(value) => Ok(Request::Offer(Bytes::new(value))),
        Err(why) => Err(why),
    }
}
