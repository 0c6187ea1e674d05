//! The parts of a run's picture: of each event, and of each letter.

ghost use Rattle.std.specs.Prelude.{◌≡◌, false, true, ◌++◌, ◌<◌, ◌^◌, OnOk, IfSome, string_bytes, length, slice_get};
ghost use Rattle.xml_text.specs.Xml.{render};
ghost use Rattle.xml_text.specs.Each.{each};
ghost use Rattle.run_picture.specs.Arrows.{delivered, heard};
ghost use Rattle.run_picture.specs.Roles.{comes_right, sight_told};
ghost use Rattle.run_picture.specs.Parts.{lanes, event_lane, event_x, rule, number_words, happening, answer_class};
ghost use Rattle.run_picture.specs.Parts.{answered};
ghost use Rattle.run_picture.specs.Parts.{mark, arrow, hearing_from, hearing, label_on, label, part_below, part_of};
ghost use Rattle.run_picture.specs.Parts.{part_at};
ghost use Rattle.run_picture.specs.Parts.{stub_below, stub_from, stub_past, stub_unless, stub_at};
ghost use Rattle.watched_runs.specs.Shown.{shown};

use crate::arrows::{
    LetterArrow, OutputArrow, add_letter_arrow, add_letter_stub, add_output_arrow, delivered, heard,
};
use crate::lanes::{lane_of, lane_x, lanes_end, mark_x};
use crate::marks::{Mark, add_mark_shape, has_failed, kind_name, mark_title};
use crate::roles::{add_node_told, comes_right};
use crate::rows::FIRST_ROW;
use crate::scene::{Part, Scene, Spot, lanes};
use crate::words::{event_words, note_words};
use ballots::Letter;
use printed_answers::answer_text;
use seats::Answer;
use std::alloc::{AllocError, Global};
use world_events::Event;
use xml_text::{add_line, add_words};

/// The thin line of a row.
fn add_rule(alloc: Global, out: &mut String, scene: &Scene<'_>, y: u64) -> Result<(), AllocError>
    requires members { scene.now.members < 2 ^ 32 }
    requires modems { scene.now.modems < 2 ^ 32 }
    ensures { OnOk result (string_bytes out.new ≡ string_bytes out.old ++ render (rule scene.now y)) }
{
    let end = lanes_end(lanes(scene));
    add_line(alloc, out, (212, y), (end, y), "rule")
}

/// An event's number.
fn add_number(alloc: Global, out: &mut String, i: usize, y: u64) -> Result<(), AllocError>
    requires { y < 2 ^ 32 }
    ensures { OnOk result (string_bytes out.new ≡ string_bytes out.old ++ render (number_words i y)) }
{
    let words = format!(in alloc; "{i}")?;
    add_words(alloc, out, (34, y + 4), "m e mute", words.as_str())
}

/// What happens.
fn add_happening(alloc: Global, out: &mut String, event: &Event, y: u64) -> Result<(), AllocError>
    requires { y < 2 ^ 32 }
    ensures { OnOk result (string_bytes out.new ≡ string_bytes out.old ++ render (happening event.now y)) }
{
    let words = event_words(alloc, event)?;
    add_words(alloc, out, (44, y + 4), "m", words.as_str())
}

fn answer_class(failed: bool) -> &'static str
    ensures { result.now ≡ answer_class failed }
{
    if failed { "m bad" } else { "m mute" }
}

/// An event's answer.
fn add_answered(
    alloc: Global,
    out: &mut String,
    scene: &Scene<'_>,
    answer: Answer,
    y: u64,
) -> Result<(), AllocError>
    requires members { scene.now.members < 2 ^ 32 }
    requires modems { scene.now.modems < 2 ^ 32 }
    requires row { y < 2 ^ 32 }
    ensures { OnOk result (string_bytes out.new ≡ string_bytes out.old ++ render (answered scene.now answer y)) }
{
    let words = answer_text(alloc, answer)?;
    let x = lanes_end(lanes(scene)) + 8;
    let class = answer_class(has_failed(answer));
    add_words(alloc, out, (x, y + 4), class, words.as_str())
}

/// The lane of an event, if it has one.
fn event_lane(scene: &Scene<'_>, event: &Event) -> Option<u64>
    requires members { scene.now.members < 2 ^ 32 }
    requires modems { scene.now.modems < 2 ^ 32 }
    ensures value { result ≡ event_lane scene.now event.now }
    ensures small { IfSome result (λ k. k < 2 ^ 40) }
{
    lane_of(scene.members, scene.modems, scene.letters, event)
}

/// Where an event is marked.
fn event_x(scene: &Scene<'_>, event: &Event) -> u64
    requires members { scene.now.members < 2 ^ 32 }
    requires modems { scene.now.modems < 2 ^ 32 }
    ensures { result ≡ event_x scene.now event.now }
{
    mark_x(lanes(scene), event_lane(scene, event))
}

/// The mark of an event.
fn add_mark(
    alloc: Global,
    out: &mut String,
    scene: &Scene<'_>,
    spot: &Spot<'_>,
) -> Result<(), AllocError>
    requires members { scene.now.members < 2 ^ 32 }
    requires modems { scene.now.modems < 2 ^ 32 }
    ensures { OnOk result (string_bytes out.new ≡ string_bytes out.old ++ render (mark scene.now (shown spot.now.row) spot.now.y)) }
{
    let row = &spot.row;
    let title = mark_title(alloc, row.number, row.answer)?;
    let mark = Mark {
        title: title.as_str(),
        letters: scene.letters,
        at: (event_x(scene, row.event), spot.y),
        event: row.event,
        answer: row.answer,
    };
    add_mark_shape(alloc, out, &mark)
}

/// The arrow of the letter that an event delivers, if it does.
fn add_arrow(
    alloc: Global,
    out: &mut String,
    scene: &Scene<'_>,
    spot: &Spot<'_>,
) -> Result<(), AllocError>
    requires members { scene.now.members < 2 ^ 32 }
    requires modems { scene.now.modems < 2 ^ 32 }
    ensures { OnOk result (string_bytes out.new
        ≡ string_bytes out.old ++ render (arrow scene.now spot.now.row.number (delivered spot.now.row.event.now spot.now.row.answer) spot.now.y)) }
{
    let Some(l) = delivered(spot.row.event, spot.row.answer) else {
        return Ok(());
    };
    if l >= scene.letters.len() {
        return Ok(());
    }
    if l >= scene.senders.len() {
        return Ok(());
    }
    if l >= scene.firsts.len() {
        return Ok(());
    }
    let arrow = LetterArrow {
        again: scene.firsts[l] < spot.row.number,
        number: l,
        letter: &scene.letters[l],
        rows: (u64::from(scene.senders[l]), spot.y),
    };
    add_letter_arrow(alloc, out, lanes(scene), &arrow)
}

/// The arrow of an output of this number, which the modem on this lane hears in the row at `y`.
fn add_hearing_from(
    alloc: Global,
    out: &mut String,
    scene: &Scene<'_>,
    hears: (u64, usize),
    y: u64,
) -> Result<(), AllocError>
    requires members { scene.now.members < 2 ^ 32 }
    requires modems { scene.now.modems < 2 ^ 32 }
    requires lane { hears.0 < 2 ^ 40 }
    ensures { OnOk result (string_bytes out.new
        ≡ string_bytes out.old ++ render
        (hearing_from scene.now hears.0 hears.1 (slice_get scene.now.outputs.now hears.1) (slice_get scene.now.releasers.now hears.1) y)) }
{
    let (lane, o) = hears;
    if o >= scene.outputs.len() {
        return Ok(());
    }
    if o >= scene.releasers.len() {
        return Ok(());
    }
    let output = &scene.outputs[o];
    if output.node as u64 >= scene.members {
        return Ok(());
    }
    let released = u64::from(scene.releasers[o]);
    let arrow = OutputArrow {
        lane,
        number: o,
        output,
        rows: (released, y),
    };
    add_output_arrow(alloc, out, lanes(scene), &arrow)
}

/// The arrow of the output that a modem hears, if it does.
fn add_hearing(
    alloc: Global,
    out: &mut String,
    scene: &Scene<'_>,
    spot: &Spot<'_>,
) -> Result<(), AllocError>
    requires members { scene.now.members < 2 ^ 32 }
    requires modems { scene.now.modems < 2 ^ 32 }
    ensures { OnOk result (string_bytes out.new
        ≡ string_bytes out.old ++ render
        (hearing scene.now (event_lane scene.now spot.now.row.event.now) (heard spot.now.row.event.now spot.now.row.answer) spot.now.y)) }
{
    match (
        event_lane(scene, spot.row.event),
        heard(spot.row.event, spot.row.answer),
    ) {
        (Some(k), Some(o)) => add_hearing_from(alloc, out, scene, (k, o), spot.y),
        _ => Ok(()),
    }
}

/// What a letter says, left of its arrow's head.
fn add_label_left(
    alloc: Global,
    out: &mut String,
    x: u64,
    y: u64,
    letter: &Letter,
) -> Result<(), AllocError>
    requires { y < 2 ^ 32 }
    ensures { OnOk result (string_bytes out.new ≡ string_bytes out.old ++ render (label_on true x y letter.now)) }
{
    let words = note_words(alloc, &letter.note)?;
    let kind = kind_name(&letter.note);
    let class = format!(in alloc; "s halo e f-{kind}")?;
    let left = x.saturating_sub(11);
    add_words(alloc, out, (left, y + 13), class.as_str(), words.as_str())
}

/// What a letter says, right of its arrow's head.
fn add_label_right(
    alloc: Global,
    out: &mut String,
    x: u64,
    y: u64,
    letter: &Letter,
) -> Result<(), AllocError>
    requires x { x < 2 ^ 50 }
    requires y { y < 2 ^ 32 }
    ensures { OnOk result (string_bytes out.new ≡ string_bytes out.old ++ render (label_on false x y letter.now)) }
{
    let words = note_words(alloc, &letter.note)?;
    let kind = kind_name(&letter.note);
    let class = format!(in alloc; "s halo f-{kind}")?;
    add_words(alloc, out, (x + 11, y + 13), class.as_str(), words.as_str())
}

/// What a letter says, beside its arrow's head.
fn add_label_on(
    alloc: Global,
    out: &mut String,
    from_left: bool,
    at: (u64, u64),
    letter: &Letter,
) -> Result<(), AllocError>
    requires x { at.0 < 2 ^ 50 }
    requires y { at.1 < 2 ^ 32 }
    ensures { OnOk result (string_bytes out.new ≡ string_bytes out.old ++ render (label_on from_left at.0 at.1 letter.now)) }
{
    if from_left {
        return add_label_left(alloc, out, at.0, at.1, letter);
    }
    add_label_right(alloc, out, at.0, at.1, letter)
}

/// What the letter says that an event delivers, if it does.
fn add_label(
    alloc: Global,
    out: &mut String,
    scene: &Scene<'_>,
    spot: &Spot<'_>,
) -> Result<(), AllocError>
    requires members { scene.now.members < 2 ^ 32 }
    requires modems { scene.now.modems < 2 ^ 32 }
    requires row { spot.now.y < 2 ^ 32 }
    ensures { OnOk result (string_bytes out.new
        ≡ string_bytes out.old ++ render (label scene.now (delivered spot.now.row.event.now spot.now.row.answer) spot.now.y)) }
{
    let Some(l) = delivered(spot.row.event, spot.row.answer) else {
        return Ok(());
    };
    if l >= scene.letters.len() {
        return Ok(());
    }
    let letter = &scene.letters[l];
    let (from, to) = (letter.from.number(), letter.to.number());
    let x = lane_x(lanes(scene), u64::from(to));
    add_label_on(alloc, out, from < to, (x, spot.y), letter)
}

/// What is told of the node at an event, on the side from which no letter came.
fn add_told(
    alloc: Global,
    out: &mut String,
    scene: &Scene<'_>,
    spot: &Spot<'_>,
) -> Result<(), AllocError>
    requires members { scene.now.members < 2 ^ 32 }
    requires modems { scene.now.modems < 2 ^ 32 }
    requires row { spot.now.y < 2 ^ 32 }
    ensures { OnOk result (string_bytes out.new ≡ string_bytes out.old ++ render (sight_told (lanes scene.now) scene.now.members
        (comes_right scene.now.letters.now (delivered spot.now.row.event.now spot.now.row.answer)) spot.now.y spot.now.row.sight)) }
{
    let left = comes_right(scene.letters, delivered(spot.row.event, spot.row.answer));
    let Some(sight) = spot.row.sight else {
        return Ok(());
    };
    if sight.node as u64 >= scene.members {
        return Ok(());
    }
    let x = lane_x(lanes(scene), sight.node as u64);
    add_node_told(alloc, out, left, (x, spot.y), sight)
}

/// A part of an event.
fn add_part_of(
    alloc: Global,
    out: &mut String,
    scene: &Scene<'_>,
    part: Part,
    spot: &Spot<'_>,
) -> Result<(), AllocError>
    requires members { scene.now.members < 2 ^ 32 }
    requires modems { scene.now.modems < 2 ^ 32 }
    requires row { spot.now.y < 2 ^ 32 }
    ensures { OnOk result (string_bytes out.new ≡ string_bytes out.old ++ render (part_of scene.now part (shown spot.now.row) spot.now.y)) }
{
    match part {
        Part::Rule => add_rule(alloc, out, scene, spot.y),
        Part::Number => add_number(alloc, out, spot.row.number, spot.y),
        Part::Happening => add_happening(alloc, out, spot.row.event, spot.y),
        Part::Answered => add_answered(alloc, out, scene, spot.row.answer, spot.y),
        Part::Mark => add_mark(alloc, out, scene, spot),
        Part::Arrow => add_arrow(alloc, out, scene, spot),
        Part::Hearing => add_hearing(alloc, out, scene, spot),
        Part::Label => add_label(alloc, out, scene, spot),
        Part::Told => add_told(alloc, out, scene, spot),
    }
}

/// A part of an event, unless its row is at the upper edge.
fn add_part_below(
    alloc: Global,
    out: &mut String,
    scene: &Scene<'_>,
    part: Part,
    spot: &Spot<'_>,
) -> Result<(), AllocError>
    requires members { scene.now.members < 2 ^ 32 }
    requires modems { scene.now.modems < 2 ^ 32 }
    requires row { spot.now.y < 2 ^ 32 }
    ensures { OnOk result (string_bytes out.new ≡ string_bytes out.old ++ render (part_below scene.now part (shown spot.now.row) spot.now.y)) }
{
    if spot.y < u64::from(FIRST_ROW) {
        return Ok(());
    }
    add_part_of(alloc, out, scene, part, spot)
}

/// A part of event `i`, of all, where that is drawn.
fn add_part_at(
    alloc: Global,
    out: &mut String,
    scene: &Scene<'_>,
    part: Part,
    i: usize,
) -> Result<(), AllocError>
    requires members { scene.now.members < 2 ^ 32 }
    requires modems { scene.now.modems < 2 ^ 32 }
    ensures { OnOk result (string_bytes out.new ≡ string_bytes out.old ++ render (part_at scene.now part i)) }
{
    if i >= scene.run.len() {
        return Ok(());
    }
    if i >= scene.rows.len() {
        return Ok(());
    }
    let spot = Spot {
        row: scene.run.row(i),
        y: u64::from(scene.rows[i]),
    };
    add_part_below(alloc, out, scene, part, &spot)
}

/// A part of each event.
pub(crate) fn add_part(
    alloc: Global,
    out: &mut String,
    scene: &Scene<'_>,
    part: Part,
) -> Result<(), AllocError>
    requires members { scene.now.members < 2 ^ 32 }
    requires modems { scene.now.modems < 2 ^ 32 }
    ensures { OnOk result (string_bytes out.new ≡ string_bytes out.old ++ render (each (length scene.now.run.now.rows) (part_at scene.now part))) }
{
    for i in 0..scene.run.len() {
        add_part_at(alloc, out, scene, part, i)?;
    }
    Ok(())
}

/// The stub of a letter of this number, unless its sending is at the upper edge.
fn add_stub_below(
    alloc: Global,
    out: &mut String,
    lanes: u64,
    numbered: (usize, &Letter),
    y: u64,
) -> Result<(), AllocError>
    requires { y < 2 ^ 50 }
    ensures { OnOk result (string_bytes out.new ≡ string_bytes out.old ++ render (stub_below lanes numbered.entry.0 numbered.entry.1.now y)) }
{
    if y < u64::from(FIRST_ROW) {
        return Ok(());
    }
    add_letter_stub(alloc, out, lanes, numbered, y)
}

/// The stub of letter `l`, where its sending is drawn.
fn add_stub(alloc: Global, out: &mut String, scene: &Scene<'_>, l: usize) -> Result<(), AllocError>
    requires members { scene.now.members < 2 ^ 32 }
    requires modems { scene.now.modems < 2 ^ 32 }
    ensures { OnOk result (string_bytes out.new
        ≡ string_bytes out.old ++ render (stub_from scene.now l (slice_get scene.now.letters.now l) (slice_get scene.now.senders.now l))) }
{
    if l >= scene.letters.len() {
        return Ok(());
    }
    if l >= scene.senders.len() {
        return Ok(());
    }
    let sent = u64::from(scene.senders[l]);
    add_stub_below(alloc, out, lanes(scene), (l, &scene.letters[l]), sent)
}

/// The stub of letter `l`, unless it is delivered.
fn add_stub_at(
    alloc: Global,
    out: &mut String,
    scene: &Scene<'_>,
    l: usize,
) -> Result<(), AllocError>
    requires members { scene.now.members < 2 ^ 32 }
    requires modems { scene.now.modems < 2 ^ 32 }
    ensures { OnOk result (string_bytes out.new ≡ string_bytes out.old ++ render (stub_at scene.now l)) }
{
    if l >= scene.firsts.len() {
        return Ok(());
    }
    if scene.firsts[l] < scene.run.len() {
        return Ok(());
    }
    add_stub(alloc, out, scene, l)
}

/// The stub of each letter that is never delivered.
pub(crate) fn add_stubs(
    alloc: Global,
    out: &mut String,
    scene: &Scene<'_>,
) -> Result<(), AllocError>
    requires members { scene.now.members < 2 ^ 32 }
    requires modems { scene.now.modems < 2 ^ 32 }
    ensures { OnOk result (string_bytes out.new ≡ string_bytes out.old ++ render (each (length scene.now.letters.now) (stub_at scene.now))) }
{
    for l in 0..scene.letters.len() {
        add_stub_at(alloc, out, scene, l)?;
    }
    Ok(())
}
