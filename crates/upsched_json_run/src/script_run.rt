//! `upsched run SCRIPT --json`: what happens to nodes and modems.

ghost use Rattle.std.specs.Prelude.{◌≡◌, ◌≢◌, OnOk, IfOk, true, false, length, IfErr};
ghost use Rattle.ballots.specs.Members.{member_count};
ghost use Rattle.seats.specs.Fresh.{AreFresh};
ghost use Rattle.network_script.specs.Worlds.{AreHonest};
ghost use Rattle.upsched_ends.specs.declared.status.Status.TheVariants.{Done, NotUnderstood};
ghost use Rattle.script_text.specs.StepScript.{NoSteps};
ghost use Rattle.upsched_json_run.specs.Runs.{PrintsScriptAsJson, PrintsStepsAsJson};
ghost use Rattle.upsched_ends.specs.Faults.{StopsPrint};

use crate::rows::print_run;
use network_script::World;
use node::Node;
use script_text::StepScript;
use seats::{new_modems, plain_nodes};
use std::alloc::Global;
use std::io::{Read, Write};
use upsched_ends::{Fault, RunWords, Status, steps_of};
use watched_runs::watch_steps;

/// What a script does to these fresh nodes is printed, traced or not. Each step is the event that it means where it
/// happens. The world is given back as the events left it: the promise of the printed lines holds where its nodes are honest.
pub fn print_script_as_json<'a, N: Node, O: Write>(
    alloc: Global,
    is_traced: bool,
    nodes: Vec<N>,
    script: StepScript,
    output: &mut O,
) -> Result<World<N>, Fault<'a>>
    requires { AreFresh N.who N.honest N.stands nodes.items }
    ensures printed { IfOk result (λ world. AreHonest world
        → PrintsStepsAsJson is_traced (length nodes.items) script.modems.items script.steps.items
        (O.contents output.old) (O.contents output.new)) }
    ensures fault { IfErr result StopsPrint }
{
    let StepScript { modems, steps, .. } = script;
    let Ok(modems) = new_modems(alloc, modems.as_slice()) else {
        return Err(Fault::Memory);
    };
    let Ok((events, marks, world)) = watch_steps(alloc, nodes, modems, steps) else {
        return Err(Fault::Memory);
    };
    let run = marks.over(events.as_slice(), &world);
    print_run(alloc, is_traced, &run, output)?;
    Ok(world)
}

/// What a script does to nodes with records in memory is printed.
fn print_plain<'a, O: Write>(
    alloc: Global,
    is_traced: bool,
    script: StepScript,
    output: &mut O,
) -> Result<(), Fault<'a>>
    ensures printed { OnOk result (PrintsStepsAsJson is_traced (member_count script.members) script.modems.items script.steps.items
        (O.contents output.old) (O.contents output.new)) }
    ensures fault { IfErr result StopsPrint }
{
    let Ok(nodes) = plain_nodes(alloc, script.members) else {
        return Err(Fault::Memory);
    };
    print_script_as_json(alloc, is_traced, nodes, script, output)?;
    Ok(())
}

fn print_text<'a, F: Read, O: Write>(
    alloc: Global,
    is_traced: bool,
    script: &mut F,
    path: &'a str,
    output: &mut O,
) -> Result<(), Fault<'a>>
    ensures printed { OnOk result (PrintsScriptAsJson is_traced (F.remaining script.old) (O.contents output.old) (O.contents output.new)) }
    ensures no_script { NoSteps (F.remaining script.old) → output.new ≡ output.old }
{
    let script = steps_of(alloc, script, path)?;
    print_plain(alloc, is_traced, script, output)
}

/// Runs a script over nodes with records in memory, and prints for each event an object with its number,
/// its answer and the outputs that it released, and last how many letters, outputs and transmissions
/// there were. A fault of the script is found before anything happens, and is told in one line.
pub fn run_as_json<F: Read, O: Write, E: Write>(
    alloc: Global,
    script: &mut F,
    words: &RunWords<'_>,
    output: &mut O,
    errors: &mut E,
) -> Status
    ensures printed { result ≡ Done → PrintsScriptAsJson false (F.remaining script.old) (O.contents output.old) (O.contents output.new) }
    ensures quiet { result ≡ Done → errors.new ≡ errors.old }
    ensures no_script { NoSteps (F.remaining script.old) → output.new ≡ output.old }
    ensures understood { result ≢ NotUnderstood }
{
    match print_text(alloc, false, script, words.script, output) {
        Ok(()) => Status::Done,
        Err(fault) => fault.told(errors),
    }
}

/// As `run_as_json`, but an event has also the letter that came, those that it sent, and what is seen of the node that it
/// asks.
pub fn trace_as_json<F: Read, O: Write, E: Write>(
    alloc: Global,
    script: &mut F,
    words: &RunWords<'_>,
    output: &mut O,
    errors: &mut E,
) -> Status
    ensures printed { result ≡ Done → PrintsScriptAsJson true (F.remaining script.old) (O.contents output.old) (O.contents output.new) }
    ensures quiet { result ≡ Done → errors.new ≡ errors.old }
    ensures no_script { NoSteps (F.remaining script.old) → output.new ≡ output.old }
    ensures understood { result ≢ NotUnderstood }
{
    match print_text(alloc, true, script, words.script, output) {
        Ok(()) => Status::Done,
        Err(fault) => fault.told(errors),
    }
}
