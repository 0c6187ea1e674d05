//! `upsched run SCRIPT`: what happens to nodes and modems.

ghost use Rattle.std.specs.Prelude.{◌≡◌, ◌≢◌, IfErr, IfOk, OnOk, length};
ghost use Rattle.ballots.specs.Members.{member_count};
ghost use Rattle.seats.specs.Fresh.{AreFresh};
ghost use Rattle.network_script.specs.Worlds.{AreHonest};
ghost use Rattle.upsched_ends.specs.declared.status.Status.TheVariants.{Done, NotUnderstood};
ghost use Rattle.upsched_ends.specs.Faults.{StopsPrint};
ghost use Rattle.script_text.specs.StepScript.{NoSteps};
ghost use Rattle.upsched_run.specs.declared.trace.Trace.TheVariants.{Letters, Named, Off};
ghost use Rattle.upsched_run.specs.Run.{PrintsScript, PrintsSteps};

use crate::rows::print_run;
use crate::trace::Trace;
use log::{Log, warn};
use network_script::World;
use node::Node;
use printed_answers::fault_name;
use script_text::StepScript;
use seats::{Answer, new_modems, plain_nodes};
use std::io::{Read, Write};
use upsched_ends::{Fault, RunWords, Status, steps_of};
use watched_runs::{Watched, watch_steps};

/// What is told of a run beside its answers and outputs.
#[derive(Clone, Copy, Debug)]
pub struct Telling {
    /// Whether each fault of a node and each crash is logged.
    pub verbose: bool,
    /// What is printed of an event's letters, and of its node, behind its answer.
    pub trace: Trace,
}

/// Logs an event whose answer is a node's fault or a crash.
fn warn_of<R: Log>(rt: &R, number: usize, answer: Answer) {
    match answer {
        Answer::Fault(fault) => {
            warn!(rt;
                "event {number}: the node answers with fault {} {}",
                fault.number(),
                fault_name(fault)
            );
        }
        Answer::Crashed =>
            warn!(rt; "event {number}: no room for what the node sent, so it crashed"),
        _ => {}
    }
}

/// Logs each event whose answer is a node's fault or a crash.
fn warn_of_run<R: Log>(rt: &R, run: &Watched<'_>) {
    for i in 0..run.len() {
        let row = run.row(i);
        warn_of(rt, row.step, row.answer);
    }
}

/// What a script does to these fresh nodes is printed, as the lines of a run. Each event of the script is what it means
/// where it happens. The world is given back as the events left it: the promise of the printed lines holds where its
/// nodes are honest.
pub fn print_script<'a, R: Log + AllocGlobal, N: Node, O: Write>(
    rt: &R,
    nodes: Vec<N>,
    script: StepScript,
    telling: Telling,
    output: &mut O,
) -> Result<World<N>, Fault<'a>>
    requires { AreFresh N.who N.honest N.stands nodes.items }
    ensures printed { IfOk result (λ world. AreHonest world
        → PrintsSteps telling.trace (length nodes.items) script.modems.items script.steps.items (O.contents output.old) (O.contents output.new)) }
    ensures fault { IfErr result StopsPrint }
{
    let StepScript { modems, steps, .. } = script;
    let Ok(modems) = new_modems(rt.alloc(), modems.as_slice()) else {
        return Err(Fault::Memory);
    };
    let Ok((events, marks, world)) = watch_steps(rt.alloc(), nodes, modems, steps) else {
        return Err(Fault::Memory);
    };
    let run = marks.over(events.as_slice(), &world);
    if telling.verbose {
        warn_of_run(rt, &run);
    }
    print_run(rt.alloc(), telling.trace, &run, output)?;
    Ok(world)
}

/// What a script does to nodes with records in memory is printed.
fn print_plain<'a, R: Log + AllocGlobal, O: Write>(
    rt: &R,
    script: StepScript,
    telling: Telling,
    output: &mut O,
) -> Result<(), Fault<'a>>
    ensures printed { OnOk result (PrintsSteps telling.trace (member_count script.members) script.modems.items script.steps.items
        (O.contents output.old) (O.contents output.new)) }
    ensures fault { IfErr result StopsPrint }
{
    let Ok(nodes) = plain_nodes(rt.alloc(), script.members) else {
        return Err(Fault::Memory);
    };
    print_script(rt, nodes, script, telling, output)?;
    Ok(())
}

fn print_text<'a, R: Log + AllocGlobal, F: Read, O: Write>(
    rt: &R,
    script: &mut F,
    words: &RunWords<'a>,
    trace: Trace,
    output: &mut O,
) -> Result<(), Fault<'a>>
    ensures printed { OnOk result (PrintsScript trace (F.remaining script.old) (O.contents output.old) (O.contents output.new)) }
    ensures no_script { NoSteps (F.remaining script.old) → output.new ≡ output.old }
{
    let script = steps_of(rt.alloc(), script, words.script)?;
    let verbose = words.verbose;
    print_plain(rt, script, Telling { verbose, trace }, output)
}

/// Runs a script over nodes with records in memory, and prints for each event its number and its
/// answer, behind a release the outputs that it released, and last how many letters, outputs and
/// transmissions there were. A fault of the script is found before anything happens, and is told
/// in one line. With `verbose` each fault of a node and each crash is logged too.
pub fn run_script<R: Log + AllocGlobal, F: Read, O: Write, E: Write>(
    rt: &R,
    script: &mut F,
    words: &RunWords<'_>,
    output: &mut O,
    errors: &mut E,
) -> Status
    ensures printed { result ≡ Done → PrintsScript Off (F.remaining script.old) (O.contents output.old) (O.contents output.new) }
    ensures quiet { result ≡ Done → errors.new ≡ errors.old }
    ensures no_script { NoSteps (F.remaining script.old) → output.new ≡ output.old }
    ensures understood { result ≢ NotUnderstood }
{
    match print_text(rt, script, words, Trace::Off, output) {
        Ok(()) => Status::Done,
        Err(fault) => fault.told(errors),
    }
}

/// As `run_script`, but behind each answer come the letter that the event delivers, and whether the node that it asks
/// prepares or leads from then on and what it learned. Behind the outputs come the letters that it sent. Each letter
/// has the number by which `deliver` names it, its sender, its addressee and what it says.
pub fn trace_script<R: Log + AllocGlobal, F: Read, O: Write, E: Write>(
    rt: &R,
    script: &mut F,
    words: &RunWords<'_>,
    output: &mut O,
    errors: &mut E,
) -> Status
    ensures printed { result ≡ Done → PrintsScript Letters (F.remaining script.old) (O.contents output.old) (O.contents output.new) }
    ensures quiet { result ≡ Done → errors.new ≡ errors.old }
    ensures no_script { NoSteps (F.remaining script.old) → output.new ≡ output.old }
    ensures understood { result ≢ NotUnderstood }
{
    match print_text(rt, script, words, Trace::Letters, output) {
        Ok(()) => Status::Done,
        Err(fault) => fault.told(errors),
    }
}

/// As `trace_script`, but behind each value of a letter is the command that it spells.
pub fn name_script<R: Log + AllocGlobal, F: Read, O: Write, E: Write>(
    rt: &R,
    script: &mut F,
    words: &RunWords<'_>,
    output: &mut O,
    errors: &mut E,
) -> Status
    ensures printed { result ≡ Done → PrintsScript Named (F.remaining script.old) (O.contents output.old) (O.contents output.new) }
    ensures quiet { result ≡ Done → errors.new ≡ errors.old }
    ensures no_script { NoSteps (F.remaining script.old) → output.new ≡ output.old }
    ensures understood { result ≢ NotUnderstood }
{
    match print_text(rt, script, words, Trace::Named, output) {
        Ok(()) => Status::Done,
        Err(fault) => fault.told(errors),
    }
}
