//! What a line asks of a scheduler.

ghost use Rattle.std.specs.Prelude.{◌≢◌, ◌≤◌, IfErr, IfOk, drop, length, vec_len};
ghost use Rattle.node_lines.specs.Commands.{IsCommandLine, longest_command};
ghost use Rattle.node_lines.specs.declared.fault.LineFault.TheVariants.{OutOfMemory};
ghost use Rattle.scheduler_lines.specs.Asking.{AsksFor, AsksNothing, IsNoDigits, IsRefused, SpellsAt};

use ballots::Bytes;
use command_log::read_command;
use grant_machine::Command;
use node_lines::{LineFault, behind, bytes_from, command_in};
use std::alloc::Global;

/// The command whose bytes the digits from a place of a line on spell, read in the line's memory.
fn command_from(line: Vec<u8>, place: usize) -> Result<Command, LineFault>
    requires { place ≤ vec_len line }
    ensures read { IfOk result (SpellsAt (drop place line.items)) }
    ensures fault { IfErr result (IsNoDigits (drop place line.items)) }
{
    let bytes = bytes_from(line, place)?;
    let (command, is_one) = read_command(&bytes);
    if is_one {
        Ok(command)
    } else {
        Err(LineFault::NoCommand)
    }
}

/// The command that a table in a line spells.
fn command_by_table(alloc: Global, line: &[u8]) -> Result<Command, LineFault>
    requires table { IsCommandLine line.now }
    requires short { length line.now ≤ longest_command }
    ensures read { IfOk result (AsksFor line.now) }
    ensures fault { IfErr result (IsRefused line.now) }
{
    command_in(alloc, line)
}

fn command_of(alloc: Global, line: Vec<u8>) -> Result<Command, LineFault>
    requires { vec_len line ≤ longest_command }
    ensures read { IfOk result (AsksFor line.items) }
    ensures fault { IfErr result (IsRefused line.items) }
{
    if let Some(place) = behind(&line, b"apply ") {
        return command_from(line, place);
    }
    let Some(_) = behind(&line, b"command ") else {
        return Err(LineFault::NoLine);
    };
    command_by_table(alloc, &line)
}

/// The command that a line, without its end, asks for. Digits are decoded in the line's memory: only a table takes more.
pub fn command_asked(alloc: Global, line: Bytes) -> Result<Command, LineFault>
    requires { length line ≤ longest_command }
    ensures read { IfOk result (AsksFor line) }
    ensures fault { IfErr result (IsRefused line) }
    ensures nothing { IfErr result (λ why. why ≢ OutOfMemory → AsksNothing line) }
{
    command_of(alloc, line.into_vec())
}
