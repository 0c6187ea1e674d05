//! A plan's commands with the reason of each refusal: for `maps --names`, and for `check`.

ghost use Rattle.std.specs.Prelude.{◌≡◌, ◌≢◌, IfErr, IfOk, OnOk, option_map, string_bytes};
ghost use Rattle.std.specs.Io.KnownBytes.{Appends};
ghost use Rattle.grant_machine.specs.Steps.{step};
ghost use Rattle.grant_machine.specs.Why.{why_refused};
ghost use Rattle.script_text.specs.Plan.{NoPlan};
ghost use Rattle.upsched_ends.specs.declared.status.Status.TheVariants.{Done, NotUnderstood};
ghost use Rattle.upsched_ends.specs.Faults.{StopsPrint};
ghost use Rattle.upsched_maps.specs.Refusals.{
  kind_name,
  named_text,
  named_line,
  named_lines,
  path_line,
  refusal_of,
  refusal_on,
  refusal_lines,
  PrintsNamed,
};

use flow_state::Reason;
use grant_machine::{Command, Machine, Output};
use printed_outputs::{output_text, refused_text};
use std::alloc::{AllocError, Global};
use std::io::{Read, Write};
use upsched_ends::{Fault, MapsWords, Status, plan_of};

/// The kind of a command, as a plan has it.
fn kind_name(command: &Command) -> &'static str
    ensures { result.now ≡ kind_name command.now }
{
    match command {
        Command::Noop => "noop",
        Command::Channel(_) => "channel",
        Command::Change { .. } => "change",
        Command::Flow { .. } => "flow",
        Command::Drop { .. } => "drop",
        Command::Request { .. } => "request",
        Command::Cut { .. } => "cut",
    }
}

/// An output, or why its command is refused.
fn named_text(alloc: Global, reason: Option<Reason>, output: &Output) -> Result<String, AllocError>
    ensures { IfOk result (λ text. string_bytes text ≡ named_text reason output.now) }
{
    match reason {
        Some(reason) => refused_text(alloc, reason),
        None => output_text(alloc, output),
    }
}

/// Applies a command and writes the line of its output, or why it is refused.
fn print_named<'a, O: Write>(
    alloc: Global,
    machine: &mut Machine,
    number: usize,
    command: &Command,
    output: &mut O,
) -> Result<(), Fault<'a>>
    ensures rows { OnOk result (machine.new ≡ (step machine.old command.now).rows) }
    ensures printed { OnOk result (Appends (O.contents output.old) (O.contents output.new)
        (named_line number machine.old command.now)) }
{
    let reason = machine.why(command);
    let answer = machine.apply(command)?;
    let text = named_text(alloc, reason, &answer)?;
    writeln!(output, "{number} {text}")?;
    Ok(())
}

fn print_all_named<'a, O: Write>(
    alloc: Global,
    commands: &[Command],
    output: &mut O,
) -> Result<(), Fault<'a>>
    ensures { OnOk result (Appends (O.contents output.old) (O.contents output.new) (named_lines commands.now)) }
{
    let mut machine = Machine::new(alloc);
    for (i, command) in commands.iter().enumerate() {
        print_named(alloc, &mut machine, i + 1, command, output)?;
    }
    output.flush()?;
    Ok(())
}

fn print_named_plan<'a, R: Read, O: Write>(
    alloc: Global,
    plan: &mut R,
    path: &'a str,
    output: &mut O,
) -> Result<(), Fault<'a>>
    ensures printed { OnOk result (PrintsNamed (R.remaining plan.old) (O.contents output.old) (O.contents output.new)) }
    ensures no_plan { NoPlan (R.remaining plan.old) → output.new ≡ output.old }
{
    let commands = plan_of(alloc, plan, path)?;
    print_all_named(alloc, commands.as_slice(), output)
}

/// Applies a plan's commands to one scheduler and prints for each its number and its output, or why it is refused:
/// which value, and what it may be. A fault of the plan is found before anything is applied or printed, and is told in
/// one line.
pub fn maps_named<R: Read, O: Write, E: Write>(
    alloc: Global,
    plan: &mut R,
    words: &MapsWords<'_>,
    output: &mut O,
    errors: &mut E,
) -> Status
    ensures printed { result ≡ Done → PrintsNamed (R.remaining plan.old) (O.contents output.old) (O.contents output.new) }
    ensures quiet { result ≡ Done → errors.new ≡ errors.old }
    ensures no_plan { NoPlan (R.remaining plan.old) → output.new ≡ output.old }
    ensures understood { result ≢ NotUnderstood }
{
    match print_named_plan(alloc, plan, words.plan, output) {
        Ok(()) => Status::Done,
        Err(fault) => fault.told(errors),
    }
}

/// A command by its number and its kind, and why it is refused.
fn refusal_of(
    alloc: Global,
    number: usize,
    command: &Command,
    reason: Reason,
) -> Result<String, AllocError>
    ensures { IfOk result (λ text. string_bytes text ≡ refusal_of number command.now reason) }
{
    let kind = kind_name(command);
    let text = refused_text(alloc, reason)?;
    format!(in alloc; "command {number}: {kind}: {text}")
}

/// Applies a command, and gives why it is refused, if it is.
fn refusal_on(
    alloc: Global,
    machine: &mut Machine,
    number: usize,
    command: &Command,
) -> Result<Option<String>, AllocError>
    ensures rows { OnOk result (machine.new ≡ (step machine.old command.now).rows) }
    ensures text { IfOk result (λ text. option_map string_bytes text
        ≡ refusal_on number command.now (why_refused machine.old command.now)) }
{
    let reason = machine.why(command);
    machine.apply(command)?;
    match reason {
        Some(reason) => Ok(Some(refusal_of(alloc, number, command, reason)?)),
        None => Ok(None),
    }
}

fn print_line<'a, O: Write>(
    path: &str,
    text: Option<String>,
    output: &mut O,
) -> Result<(), Fault<'a>>
    ensures printed { OnOk result (Appends (O.contents output.old) (O.contents output.new)
        (path_line path.now (option_map string_bytes text))) }
    ensures fault { IfErr result StopsPrint }
{
    let Some(text) = text else {
        return Ok(());
    };
    match writeln!(output, "{path}: {text}") {
        Ok(()) => Ok(()),
        Err(_) => Err(Fault::Output),
    }
}

/// Applies commands one after another to one scheduler, and writes for each that is refused a line with the path of
/// its plan: its number from 1, its kind, and which value is refused and what it may be. The writer isn't flushed.
pub fn print_refusals<'a, O: Write>(
    alloc: Global,
    path: &str,
    commands: &[Command],
    output: &mut O,
) -> Result<(), Fault<'a>>
    ensures printed { OnOk result (Appends (O.contents output.old) (O.contents output.new) (refusal_lines path.now commands.now)) }
    ensures fault { IfErr result StopsPrint }
{
    let mut machine = Machine::new(alloc);
    for (i, command) in commands.iter().enumerate() {
        let Ok(text) = refusal_on(alloc, &mut machine, i + 1, command) else {
            return Err(Fault::Memory);
        };
        print_line(path, text, output)?;
    }
    Ok(())
}
