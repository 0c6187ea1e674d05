//! `upsched draw SCRIPT --maps`: the MAPs that the commands of a run give, and what its modems transmit in them, as a
//! picture; or with `--text` the MAPs for a terminal.

ghost use Rattle.std.specs.Prelude.{◌≡◌, ◌≢◌, IfOk, IfSome, OnOk, length};
ghost use Rattle.ballots.specs.Members.{member_count};
ghost use Rattle.seats.specs.Fresh.{AreFresh};
ghost use Rattle.network_script.specs.Worlds.{AreHonest};
ghost use Rattle.upsched_ends.specs.declared.status.Status.TheVariants.{Done, NotUnderstood};
ghost use Rattle.script_text.specs.StepScript.{NoSteps};
ghost use Rattle.upsched_draw.specs.Draws.{DrawsLearned, LearnsFrom, LeavesLearned, TellsLearned};

use crate::learned::most_learned;
use crate::transmitted::all_told;
use grant_machine::Command;
use map_picture::Sent;
use network_script::World;
use node::Node;
use script_text::StepScript;
use seats::{OutOfMemory, new_modems, plain_nodes};
use std::alloc::Global;
use std::io::{Read, Write};
use upsched_check::{draw_commands, tell_commands};
use upsched_ends::{Fault, Status, steps_of};
use watched_runs::watch_steps;

/// What a run leaves for a picture of its MAPs.
#[derive(Drop)]
struct Learned {
    /// The commands that a node has learned.
    commands: Vec<Command>,
    /// What modems have transmitted.
    sent: Vec<Sent>,
}

/// The commands that a script has these fresh nodes learn, and what it has modems transmit. The world is given back as
/// the events left it: what is promised of both holds where its nodes are honest.
fn learned_after<N: Node>(
    alloc: Global,
    nodes: Vec<N>,
    script: StepScript,
) -> Result<(Learned, World<N>), OutOfMemory>
    requires nodes { AreFresh N.who N.honest N.stands nodes.items }
    requires members { length nodes.items ≡ member_count script.members }
    ensures { IfOk result (λ left. AreHonest left.1 → LeavesLearned (member_count script.members) script.modems.items script.steps.items
        left.0.commands.items left.0.sent.items) }
{
    let StepScript { modems, steps, .. } = script;
    let ids = modems.as_slice();
    let fresh = new_modems(alloc, ids)?;
    let (_events, _marks, world) = watch_steps(alloc, nodes, fresh, steps)?;
    let commands = most_learned(alloc, world.seats())?;
    let sent = all_told(alloc, ids, world.transmissions())?;
    Ok((Learned { commands, sent }, world))
}

/// What a script has nodes with records in memory learn, and modems transmit.
fn learned_by<'a>(alloc: Global, script: StepScript) -> Result<Learned, Fault<'a>>
    ensures { IfOk result (λ learned. LeavesLearned (member_count script.members) script.modems.items script.steps.items
        learned.commands.items learned.sent.items) }
{
    let nodes = plain_nodes(alloc, script.members)?;
    match learned_after(alloc, nodes, script) {
        Ok((learned, _world)) => Ok(learned),
        Err(OutOfMemory) => Err(Fault::Memory),
    }
}

/// The same in the script that a text is.
fn learned_in<'a, F: Read>(
    alloc: Global,
    script: &mut F,
    path: &'a str,
) -> Result<Learned, Fault<'a>>
    ensures { IfOk result (λ learned. IfSome (F.remaining script.old) (λ text. LearnsFrom text learned.commands.items learned.sent.items)) }
{
    let script = steps_of(alloc, script, path)?;
    learned_by(alloc, script)
}

fn draw_learned<'a, F: Read, O: Write>(
    alloc: Global,
    script: &mut F,
    path: &'a str,
    output: &mut O,
) -> Result<(), Fault<'a>>
    ensures printed { OnOk result (DrawsLearned (F.remaining script.old) (O.contents output.old) (O.contents output.new)) }
    ensures no_script { NoSteps (F.remaining script.old) → output.new ≡ output.old }
{
    let learned = learned_in(alloc, script, path)?;
    let (commands, sent) = (learned.commands.as_slice(), learned.sent.as_slice());
    draw_commands(alloc, commands, sent, output)
}

fn tell_learned<'a, F: Read, O: Write>(
    alloc: Global,
    script: &mut F,
    path: &'a str,
    output: &mut O,
) -> Result<(), Fault<'a>>
    ensures printed { OnOk result (TellsLearned (F.remaining script.old) (O.contents output.old) (O.contents output.new)) }
    ensures no_script { NoSteps (F.remaining script.old) → output.new ≡ output.old }
{
    let learned = learned_in(alloc, script, path)?;
    tell_commands(alloc, learned.commands.as_slice(), output)
}

/// Runs a script over nodes with records in memory, and prints a picture of the MAPs that the commands give which a
/// node has learned in the end: of a node that is up and has learned most from place 1 on without a gap. It is the
/// picture that a plan of these commands has, with a wedge for each minislot of a MAP in which a modem transmitted. A
/// fault of the script is found before anything happens, and is told in one line.
pub fn draw_maps<F: Read, O: Write, E: Write>(
    alloc: Global,
    script: &mut F,
    path: &str,
    output: &mut O,
    errors: &mut E,
) -> Status
    ensures printed { result ≡ Done → DrawsLearned (F.remaining script.old) (O.contents output.old) (O.contents output.new) }
    ensures quiet { result ≡ Done → errors.new ≡ errors.old }
    ensures no_script { NoSteps (F.remaining script.old) → output.new ≡ output.old }
    ensures understood { result ≢ NotUnderstood }
{
    match draw_learned(alloc, script, path, output) {
        Ok(()) => Status::Done,
        Err(fault) => fault.told(errors),
    }
}

/// The same MAPs for a terminal of 100 columns, and what became of each request.
pub fn tell_maps<F: Read, O: Write, E: Write>(
    alloc: Global,
    script: &mut F,
    path: &str,
    output: &mut O,
    errors: &mut E,
) -> Status
    ensures printed { result ≡ Done → TellsLearned (F.remaining script.old) (O.contents output.old) (O.contents output.new) }
    ensures quiet { result ≡ Done → errors.new ≡ errors.old }
    ensures no_script { NoSteps (F.remaining script.old) → output.new ≡ output.old }
    ensures understood { result ≢ NotUnderstood }
{
    match tell_learned(alloc, script, path, output) {
        Ok(()) => Status::Done,
        Err(fault) => fault.told(errors),
    }
}
