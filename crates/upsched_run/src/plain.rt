//! `upsched run --plain SCRIPT`: the script with the numbers of the letters that it names.

ghost use Rattle.std.specs.Prelude.{◌≡◌, ◌≢◌, IfOk, OnOk};
ghost use Rattle.std.specs.Io.KnownBytes.{Appends};
ghost use Rattle.ballots.specs.Members.{member_count};
ghost use Rattle.printed_scripts.specs.Texts.{script_text};
ghost use Rattle.script_text.specs.StepScript.{NoSteps};
ghost use Rattle.upsched_ends.specs.declared.status.Status.TheVariants.{Done, NotUnderstood};
ghost use Rattle.upsched_run.specs.Run.{ComeTo, PrintsPlain};

use printed_scripts::script_text;
use script_text::{Script, StepScript};
use seats::{new_modems, plain_nodes};
use std::alloc::Global;
use std::io::{Read, Write};
use upsched_ends::{Fault, RunWords, Status, steps_of};
use watched_runs::watch_steps;

/// The script of the events that entries come to over nodes with records in memory.
fn by_number<'a>(alloc: Global, script: StepScript) -> Result<Script, Fault<'a>>
    ensures same { IfOk result (λ plain. (plain.members ≡ script.members) × (plain.modems.items ≡ script.modems.items)) }
    ensures events { IfOk result (λ plain. ComeTo (member_count script.members) script.modems.items script.steps.items plain.events.items) }
{
    let StepScript {
        members,
        modems,
        steps,
    } = script;
    let Ok(nodes) = plain_nodes(alloc, members) else {
        return Err(Fault::Memory);
    };
    let Ok(fresh) = new_modems(alloc, modems.as_slice()) else {
        return Err(Fault::Memory);
    };
    let Ok((events, _marks, _world)) = watch_steps(alloc, nodes, fresh, steps) else {
        return Err(Fault::Memory);
    };
    Ok(Script {
        members,
        modems,
        events,
    })
}

/// The text of a script is printed, and goes out.
fn print_events<'a, O: Write>(
    alloc: Global,
    script: &Script,
    output: &mut O,
) -> Result<(), Fault<'a>>
    ensures { OnOk result (Appends (O.contents output.old) (O.contents output.new)
        (script_text script.now.members script.now.modems.items script.now.events.items)) }
{
    let Ok(text) = script_text(alloc, script) else {
        return Err(Fault::Memory);
    };
    if write!(output, "{text}").is_err() {
        return Err(Fault::Output);
    }
    match output.flush() {
        Ok(()) => Ok(()),
        Err(_) => Err(Fault::Output),
    }
}

fn print_by_number<'a, F: Read, O: Write>(
    alloc: Global,
    script: &mut F,
    path: &'a str,
    output: &mut O,
) -> Result<(), Fault<'a>>
    ensures printed { OnOk result (PrintsPlain (F.remaining script.old) (O.contents output.old) (O.contents output.new)) }
    ensures no_script { NoSteps (F.remaining script.old) → output.new ≡ output.old }
{
    let steps = steps_of(alloc, script, path)?;
    let plain = by_number(alloc, steps)?;
    print_events(alloc, &plain, output)
}

/// Runs a script over nodes with records in memory, and prints the script whose deliveries have the numbers of the
/// letters that this one named, and a delivery for each letter that came with others. A letter that there wasn't is
/// 2^63 - 1. A fault of the script is found before anything happens, and is told in one line.
pub fn plain_script<F: Read, O: Write, E: Write>(
    alloc: Global,
    script: &mut F,
    words: &RunWords<'_>,
    output: &mut O,
    errors: &mut E,
) -> Status
    ensures printed { result ≡ Done → PrintsPlain (F.remaining script.old) (O.contents output.old) (O.contents output.new) }
    ensures quiet { result ≡ Done → errors.new ≡ errors.old }
    ensures no_script { NoSteps (F.remaining script.old) → output.new ≡ output.old }
    ensures understood { result ≢ NotUnderstood }
{
    match print_by_number(alloc, script, words.script, output) {
        Ok(()) => Status::Done,
        Err(fault) => fault.told(errors),
    }
}
