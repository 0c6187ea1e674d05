//! `upsched maps PLAN`: from a plan to outputs.

ghost use Rattle.std.specs.Prelude.{◌≡◌, ◌≢◌, IfErr, OnOk};
ghost use Rattle.std.specs.Io.KnownBytes.{Appends};
ghost use Rattle.grant_machine.specs.declared.command.Command.{Command};
ghost use Rattle.grant_machine.specs.Steps.{step};
ghost use Rattle.grant_machine.specs.Runs.{outputs_from, rows_from};
ghost use Rattle.upsched_ends.specs.declared.status.Status.TheVariants.{Done, NotUnderstood};
ghost use Rattle.upsched_ends.specs.Faults.{StopsPrint};
ghost use Rattle.upsched_maps.specs.Lines.{output_line, output_lines, PrintsPlan};
ghost use Rattle.script_text.specs.Plan.{NoPlan};

use grant_machine::{Command, Machine};
use printed_outputs::output_text;
use std::alloc::Global;
use std::io::{Read, Write};
use upsched_ends::{Fault, MapsWords, Status, plan_of};

/// Applies a command and writes the line of its output.
fn print_output<'a, O: Write>(
    alloc: Global,
    machine: &mut Machine,
    number: usize,
    command: &Command,
    output: &mut O,
) -> Result<(), Fault<'a>>
    ensures rows { OnOk result (machine.new ≡ (step machine.old command.now).rows) }
    ensures printed { OnOk result (Appends (O.contents output.old) (O.contents output.new)
        (output_line number (step machine.old command.now).output)) }
    ensures fault { IfErr result StopsPrint }
{
    let answer = machine.apply(command)?;
    let text = output_text(alloc, &answer)?;
    writeln!(output, "{number} {text}")?;
    Ok(())
}

/// Applies commands one after another to a scheduler, as it stands, and writes a line for each, numbered from 1 on.
pub fn print_outputs<'a, O: Write>(
    alloc: Global,
    machine: &mut Machine,
    commands: &[Command],
    output: &mut O,
) -> Result<(), Fault<'a>>
    ensures rows { OnOk result (machine.new ≡ rows_from machine.old commands.now) }
    ensures printed { OnOk result (Appends (O.contents output.old) (O.contents output.new)
        (output_lines 1 (outputs_from machine.old commands.now))) }
    ensures fault { IfErr result StopsPrint }
{
    for (i, command) in commands.iter().enumerate() {
        print_output(alloc, machine, i + 1, command, output)?;
    }
    output.flush()?;
    Ok(())
}

fn print_plan<'a, R: Read, O: Write>(
    alloc: Global,
    plan: &mut R,
    path: &'a str,
    output: &mut O,
) -> Result<(), Fault<'a>>
    ensures printed { OnOk result (PrintsPlan (R.remaining plan.old) (O.contents output.old) (O.contents output.new)) }
    ensures no_plan { NoPlan (R.remaining plan.old) → output.new ≡ output.old }
{
    let commands = plan_of(alloc, plan, path)?;
    let mut machine = Machine::new(alloc);
    print_outputs(alloc, &mut machine, commands.as_slice(), output)
}

/// Applies a plan's commands to one scheduler and prints for each its number and its output. A
/// fault of the plan is found before anything is applied or printed, and is told in one line.
pub fn maps<R: Read, O: Write, E: Write>(
    alloc: Global,
    plan: &mut R,
    words: &MapsWords<'_>,
    output: &mut O,
    errors: &mut E,
) -> Status
    ensures printed { result ≡ Done → PrintsPlan (R.remaining plan.old) (O.contents output.old) (O.contents output.new) }
    ensures quiet { result ≡ Done → errors.new ≡ errors.old }
    ensures no_plan { NoPlan (R.remaining plan.old) → output.new ≡ output.old }
    ensures understood { result ≢ NotUnderstood }
{
    match print_plan(alloc, plan, words.plan, output) {
        Ok(()) => Status::Done,
        Err(fault) => fault.told(errors),
    }
}
