//! `upsched draw SCRIPT`: what happens to nodes and modems, as a picture.

ghost use Rattle.std.specs.Prelude.{◌≡◌, ◌≢◌, [], ◌∷◌, ◌++◌, true, false, IfOk, OnOk, length, string_bytes};
ghost use Rattle.std.specs.Io.KnownBytes.{Appends};
ghost use Rattle.ballots.specs.Members.{member_count};
ghost use Rattle.seats.specs.Fresh.{AreFresh};
ghost use Rattle.network_script.specs.Worlds.{AreHonest};
ghost use Rattle.upsched_ends.specs.declared.status.Status.TheVariants.{Done, NotUnderstood};
ghost use Rattle.script_text.specs.StepScript.{NoSteps};
ghost use Rattle.run_picture.specs.Pictures.{IsPictureOf};
ghost use Rattle.upsched_draw.specs.Draws.{DrawsRun, DrawsScript, DrawsSteps, end_of, span_of};

use ballots::Members;
use network_script::World;
use node::Node;
use run_picture::picture;
use script_text::StepScript;
use seats::{new_modems, plain_nodes};
use std::alloc::Global;
use std::io::{Read, Write};
use upsched_ends::{Fault, Status, steps_of};
use watched_runs::{Watched, watch_steps};

/// As many events and modems as a picture may have: more would not fit into memory.
const MANY: usize = 100_000_000;

/// Which events of a run are asked for: from the first one on, up to the last one where this is said.
#[derive(Clone, Copy, Debug)]
pub struct Asked {
    pub from: usize,
    pub to: Option<usize>,
}

/// What `draw` is told of a script.
#[derive(Clone, Copy, Debug)]
pub struct ScriptDrawing<'a> {
    /// The path of the script.
    pub path: &'a str,
    /// Which of its events are drawn.
    pub asked: Asked,
}

/// These events of a run of so many: from a number on, and before another one. None where the last one is before the
/// first or isn't there.
fn span_of(asked: Asked, events: usize) -> Option<(usize, usize)>
    ensures { result ≡ span_of asked events }
{
    let end = match asked.to {
        Some(last) => last.checked_add(1)?,
        None => events,
    };
    if end <= events && (asked.from == 0 || asked.from < end) {
        return Some((asked.from, end));
    }
    None
}

/// The picture of these events of a run.
fn picture_of<'a>(
    alloc: Global,
    members: Members,
    ids: &[u32],
    run: &Watched<'_>,
    span: (usize, usize),
) -> Result<String, Fault<'a>>
    ensures { IfOk result (λ text. IsPictureOf (member_count members) ids.now span run.now (string_bytes text)) }
{
    if run.len() > MANY || ids.len() > MANY {
        return Err(Fault::Memory);
    }
    match picture(alloc, members, ids, run, span) {
        Ok(text) => Ok(text),
        Err(_) => Err(Fault::Memory),
    }
}

/// A text is printed with a line's end, and goes out.
fn print_line<'a, O: Write>(text: &str, output: &mut O) -> Result<(), Fault<'a>>
    ensures { OnOk result (Appends (O.contents output.old) (O.contents output.new) (text.now ++ 10 ∷ [])) }
{
    if writeln!(output, "{text}").is_err() {
        return Err(Fault::Output);
    }
    match output.flush() {
        Ok(()) => Ok(()),
        Err(_) => Err(Fault::Output),
    }
}

/// Of whom what is drawn: how many nodes, the ids of modems, and which events.
#[derive(Clone, Copy)]
struct Drawing<'a> {
    members: Members,
    ids: &'a [u32],
    asked: Asked,
}

/// The picture of what is asked for of a run is printed. False where the run has no such events, and nothing is.
fn print_picture<'a, O: Write>(
    alloc: Global,
    drawing: &Drawing<'_>,
    run: &Watched<'_>,
    output: &mut O,
) -> Result<bool, Fault<'a>>
    ensures { IfOk result (λ drawn. DrawsRun drawn (member_count drawing.now.members) drawing.now.ids.now
        (span_of drawing.now.asked (length run.now.rows)) run.now (O.contents output.old) (O.contents output.new)) }
{
    let Some(span) = span_of(drawing.asked, run.len()) else {
        return Ok(false);
    };
    let text = picture_of(alloc, drawing.members, drawing.ids, run, span)?;
    print_line(text.as_str(), output)?;
    Ok(true)
}

/// What a script does to these fresh nodes is drawn, as far as it is asked for, each step as the event that it means
/// where it happens. The world is given back as the events left it, and whether there were such events: the promise of
/// the picture holds where its nodes are honest.
fn draw_nodes<'a, N: Node, O: Write>(
    alloc: Global,
    nodes: Vec<N>,
    script: StepScript,
    asked: Asked,
    output: &mut O,
) -> Result<(World<N>, bool), Fault<'a>>
    requires nodes { AreFresh N.who N.honest N.stands nodes.items }
    requires members { length nodes.items ≡ member_count script.members }
    ensures { IfOk result (λ ended. AreHonest ended.0 → DrawsSteps ended.1 (member_count script.members) script.modems.items asked script.steps.items
        (O.contents output.old) (O.contents output.new)) }
{
    let StepScript {
        members,
        modems,
        steps,
    } = script;
    let ids = modems.as_slice();
    let Ok(fresh) = new_modems(alloc, ids) else {
        return Err(Fault::Memory);
    };
    let Ok((events, marks, world)) = watch_steps(alloc, nodes, fresh, steps) else {
        return Err(Fault::Memory);
    };
    let run = marks.over(events.as_slice(), &world);
    let drawing = Drawing {
        members,
        ids,
        asked,
    };
    let drawn = print_picture(alloc, &drawing, &run, output)?;
    Ok((world, drawn))
}

/// What a script does to nodes with records in memory is drawn, as far as it is asked for. False where there are no
/// such events.
fn draw_plain<'a, O: Write>(
    alloc: Global,
    script: StepScript,
    asked: Asked,
    output: &mut O,
) -> Result<bool, Fault<'a>>
    ensures { IfOk result (λ drawn. DrawsSteps drawn (member_count script.members) script.modems.items asked script.steps.items
        (O.contents output.old) (O.contents output.new)) }
{
    let Ok(nodes) = plain_nodes(alloc, script.members) else {
        return Err(Fault::Memory);
    };
    let (_world, drawn) = draw_nodes(alloc, nodes, script, asked, output)?;
    Ok(drawn)
}

fn draw_text<'a, F: Read, O: Write>(
    alloc: Global,
    script: &mut F,
    drawing: &ScriptDrawing<'a>,
    output: &mut O,
) -> Result<bool, Fault<'a>>
    ensures printed { IfOk result (λ drawn. DrawsScript drawn drawing.now.asked (F.remaining script.old) (O.contents output.old) (O.contents output.new)) }
    ensures no_script { NoSteps (F.remaining script.old) → (output.new ≡ output.old) × IfOk result (λ drawn. ⊥) }
{
    let script = steps_of(alloc, script, drawing.path)?;
    draw_plain(alloc, script, drawing.asked, output)
}

/// Tells that a run has no such events.
fn refuse<E: Write>(asked: Asked, errors: &mut E) -> Status
    ensures { result ≡ NotUnderstood }
{
    let from = asked.from;
    let _ = match asked.to {
        Some(to) => writeln!(errors, "error: the run has no events {from} to {to}"),
        None => writeln!(errors, "error: the run has no event {from}"),
    };
    Status::NotUnderstood
}

/// Runs a script over nodes with records in memory, and prints the picture of the events that are asked for as an SVG
/// document. It ends as not understood where the last of these is before the first, or isn't there. A fault of the
/// script is found before anything happens. Each is told in one line.
pub fn draw_script<F: Read, O: Write, E: Write>(
    alloc: Global,
    script: &mut F,
    drawing: &ScriptDrawing<'_>,
    output: &mut O,
    errors: &mut E,
) -> Status
    ensures printed { result ≡ Done → DrawsScript true drawing.now.asked (F.remaining script.old) (O.contents output.old) (O.contents output.new) }
    ensures quiet { result ≡ Done → errors.new ≡ errors.old }
    ensures no_script { NoSteps (F.remaining script.old) → output.new ≡ output.old }
    ensures none { result ≡ NotUnderstood → DrawsScript false drawing.now.asked (F.remaining script.old) (O.contents output.old) (O.contents output.new) }
    ensures understood { NoSteps (F.remaining script.old) → result ≢ NotUnderstood }
{
    match draw_text(alloc, script, drawing, output) {
        Ok(true) => Status::Done,
        Ok(false) => refuse(drawing.asked, errors),
        Err(fault) => fault.told(errors),
    }
}
