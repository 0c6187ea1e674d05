//! Commands, and values that may spell one, in few words.

ghost use Rattle.std.specs.Prelude.{◌≡◌, ◌++◌, IfOk, string_bytes};
ghost use Rattle.command_log.specs.Reading.{command_in};
ghost use Rattle.command_words.specs.Commands.{channel_words, command_words, service_name, spelled_text};
ghost use Rattle.command_words.specs.Commands.{spelled_words, value_text, value_words};

use ballots::Bytes;
use command_log::{one_spelling, read_command};
use flow_state::FlowKind;
use grant_machine::Command;
use std::alloc::{AllocError, Global};

/// The service of a flow, as a plan has it.
fn service_name(kind: FlowKind) -> &'static str
    ensures { result.now ≡ service_name kind }
{
    match kind {
        FlowKind::BestEffort(_) => "best_effort",
        FlowKind::Ugs { .. } => "ugs",
        FlowKind::Poll { .. } => "poll",
        FlowKind::Station { .. } => "station",
        FlowKind::Initial { .. } => "initial",
    }
}

/// What a command does, but for its channel: `request 20 sid 1`.
fn command_words(alloc: Global, command: Command) -> Result<String, AllocError>
    ensures { IfOk result (λ text. string_bytes text ≡ command_words command) }
{
    match command {
        Command::Noop => String::from_str(alloc, "noop"),
        Command::Channel(channel) => format!(in alloc; "channel ucd {}", channel.ucd),
        Command::Change { settings, .. } => format!(in alloc; "change ucd {}", settings.ucd),
        Command::Flow { modem, kind, .. } => {
            format!(in alloc; "flow {} modem {modem}", service_name(kind))
        }
        Command::Drop { sid, .. } => format!(in alloc; "drop sid {sid}"),
        Command::Request { sid, n, .. } => format!(in alloc; "request {n} sid {sid}"),
        Command::Cut { len, .. } => format!(in alloc; "cut {len}"),
    }
}

/// The channel that a command is about, behind its words.
fn channel_words(alloc: Global, command: Command) -> Result<String, AllocError>
    ensures { IfOk result (λ text. string_bytes text ≡ channel_words command) }
{
    let ch = match command {
        Command::Noop => return String::from_str(alloc, ""),
        Command::Channel(channel) => channel.id,
        Command::Change { ch, .. } => ch,
        Command::Flow { ch, .. } => ch,
        Command::Drop { ch, .. } => ch,
        Command::Request { ch, .. } => ch,
        Command::Cut { ch, .. } => ch,
    };
    format!(in alloc; " ch {ch}")
}

/// The command that a value spells, if it spells one.
fn spelled(value: &[u8]) -> Option<Command>
    ensures { result ≡ command_in value.now }
{
    one_spelling();
    let (command, is_one) = read_command(value);
    if is_one {
        return Some(command);
    }
    None
}

/// A command that was read, but for its channel.
fn spelled_words(alloc: Global, command: Option<Command>) -> Result<String, AllocError>
    ensures { IfOk result (λ text. string_bytes text ≡ spelled_words command) }
{
    match command {
        Some(command) => command_words(alloc, command),
        None => String::from_str(alloc, "no command"),
    }
}

/// The command that a value spells, but for its channel: `request 20 sid 1`. A value that spells none is `no command`.
pub fn value_words(alloc: Global, value: &Bytes) -> Result<String, AllocError>
    ensures { IfOk result (λ text. string_bytes text ≡ value_words value.now) }
{
    spelled_words(alloc, spelled(value.as_slice()))
}

/// A command with its channel.
fn command_text(alloc: Global, command: Command) -> Result<String, AllocError>
    ensures { IfOk result (λ text. string_bytes text ≡ command_words command ++ channel_words command) }
{
    let words = command_words(alloc, command)?;
    let channel = channel_words(alloc, command)?;
    format!(in alloc; "{words}{channel}")
}

/// A command that was read.
fn spelled_text(alloc: Global, command: Option<Command>) -> Result<String, AllocError>
    ensures { IfOk result (λ text. string_bytes text ≡ spelled_text command) }
{
    match command {
        Some(command) => command_text(alloc, command),
        None => String::from_str(alloc, "no command"),
    }
}

/// The command that a value spells: `request 20 sid 1 ch 1`. A value that spells none is `no command`.
pub fn value_text(alloc: Global, value: &Bytes) -> Result<String, AllocError>
    ensures { IfOk result (λ text. string_bytes text ≡ value_text value.now) }
{
    spelled_text(alloc, spelled(value.as_slice()))
}
