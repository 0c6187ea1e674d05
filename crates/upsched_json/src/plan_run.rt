//! `upsched maps PLAN --json`: from a plan to outputs.

ghost use Rattle.std.specs.Prelude.{◌≡◌, ◌≢◌, OnOk};
ghost use Rattle.grant_machine.specs.declared.command.Command.{Command};
ghost use Rattle.grant_machine.specs.Steps.{step};
ghost use Rattle.grant_machine.specs.Runs.{outputs_of};
ghost use Rattle.upsched_ends.specs.declared.status.Status.TheVariants.{Done, NotUnderstood};
ghost use Rattle.script_text.specs.Plan.{IsPlan, NoPlan};
ghost use Rattle.json_outputs.specs.Outputs.{TellsCommand};
ghost use Rattle.upsched_json.specs.Lines.{PrintsLine};
ghost use Rattle.upsched_json.specs.Plans.{PrintsOutputs, PrintsPlanAsJson};

use crate::lines::print_line;
use grant_machine::{Command, Machine, Output};
use json_outputs::command_text;
use std::alloc::Global;
use std::io::{Read, Write};
use upsched_ends::{Fault, MapsWords, Status, plan_of};

/// Writes the line of an output.
fn print_answer<'a, O: Write>(
    alloc: Global,
    number: usize,
    answer: &Output,
    output: &mut O,
) -> Result<(), Fault<'a>>
    ensures { OnOk result (PrintsLine (TellsCommand number answer.now) (O.contents output.old) (O.contents output.new)) }
{
    let text = command_text(alloc, number, answer)?;
    print_line(text.as_str(), output)
}

/// Applies a command and writes the line of its output.
fn print_output<'a, O: Write>(
    alloc: Global,
    machine: &mut Machine,
    number: usize,
    command: &Command,
    output: &mut O,
) -> Result<(), Fault<'a>>
    ensures rows { OnOk result (machine.new ≡ (step machine.old command.now).rows) }
    ensures printed { OnOk result (PrintsLine (TellsCommand number (step machine.old command.now).output)
        (O.contents output.old) (O.contents output.new)) }
{
    let answer = machine.apply(command)?;
    print_answer(alloc, number, &answer, output)
}

/// Applies commands one after another to one scheduler, and writes a line for each.
fn print_outputs<'a, O: Write>(
    alloc: Global,
    commands: &[Command],
    output: &mut O,
) -> Result<(), Fault<'a>>
    ensures { OnOk result (PrintsOutputs (outputs_of commands.now) (O.contents output.old) (O.contents output.new)) }
{
    let mut machine = Machine::new(alloc);
    for (i, command) in commands.iter().enumerate() {
        print_output(alloc, &mut machine, i + 1, command, output)?;
    }
    output.flush()?;
    Ok(())
}

fn print_plan<'a, R: Read, O: Write>(
    alloc: Global,
    plan: &mut R,
    path: &'a str,
    output: &mut O,
) -> Result<(), Fault<'a>>
    ensures printed { OnOk result (PrintsPlanAsJson (R.remaining plan.old) (O.contents output.old) (O.contents output.new)) }
    ensures no_plan { NoPlan (R.remaining plan.old) → output.new ≡ output.old }
{
    let commands = plan_of(alloc, plan, path)?;
    print_outputs(alloc, commands.as_slice(), output)
}

/// Applies a plan's commands to one scheduler and prints for each an object with its number and its
/// output. A fault of the plan is found before anything is applied or printed, and is told in one line.
pub fn maps_as_json<R: Read, O: Write, E: Write>(
    alloc: Global,
    plan: &mut R,
    words: &MapsWords<'_>,
    output: &mut O,
    errors: &mut E,
) -> Status
    ensures printed { result ≡ Done → PrintsPlanAsJson (R.remaining plan.old) (O.contents output.old) (O.contents output.new) }
    ensures quiet { result ≡ Done → errors.new ≡ errors.old }
    ensures no_plan { NoPlan (R.remaining plan.old) → output.new ≡ output.old }
    ensures understood { result ≢ NotUnderstood }
{
    match print_plan(alloc, plan, words.plan, output) {
        Ok(()) => Status::Done,
        Err(fault) => fault.told(errors),
    }
}
