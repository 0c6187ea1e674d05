//! A run as one picture.

ghost use Rattle.std.specs.Prelude.{◌≡◌, ◌++◌, ◌<◌, ◌^◌, IfOk, OnOk, string_bytes, length, nat_lt, ℕ, []};
ghost use Rattle.xml_text.specs.Xml.{Xml, render};
ghost use Rattle.xml_text.specs.Each.{each};
ghost use Rattle.xml_text.specs.Drawings.{AreDrawn};
ghost use Rattle.ballots.specs.Members.{member_count};
ghost use Rattle.run_picture.specs.Parts.{lanes};
ghost use Rattle.run_picture.specs.Pictures.{arrows_of, bands_of, chosen_at, labels_of, node_bands, rules_of};
ghost use Rattle.run_picture.specs.Pictures.{lane_line, lane_name};
ghost use Rattle.run_picture.specs.Pictures.{layers, name_if, of_events, Draws, IsPictureOf};

use crate::arrows::firsts_of;
use crate::heads::{Counts, STYLE, heads};
use crate::lanes::{lane_x, lanes_end};
use crate::legend::legend;
use crate::parts::{add_part, add_stubs};
use crate::roles::{add_bands, add_chosen};
use crate::rows::{releasers_of, rows_of, senders_of};
use crate::scene::{Part, Scene, lanes};
use ballots::Members;
use std::alloc::{AllocError, Global};
use watched_runs::{Watched, choices};
use xml_text::{Layers, Sheet, add_line, add_words, drawing};

/// The line of a lane, down to the bottom.
fn add_lane_line(
    alloc: Global,
    out: &mut String,
    scene: &Scene<'_>,
    bottom: u64,
    k: u64,
) -> Result<(), AllocError>
    requires members { scene.now.members < 2 ^ 32 }
    requires modems { scene.now.modems < 2 ^ 32 }
    requires lane { k < 2 ^ 40 }
    ensures { OnOk result (string_bytes out.new ≡ string_bytes out.old ++ render (lane_line scene.now bottom k)) }
{
    let x = lane_x(lanes(scene), k);
    add_line(alloc, out, (x, 132), (x, bottom), "lane")
}

/// The line of each lane.
fn add_lanes(
    alloc: Global,
    out: &mut String,
    scene: &Scene<'_>,
    bottom: u64,
) -> Result<(), AllocError>
    requires members { scene.now.members < 2 ^ 32 }
    requires modems { scene.now.modems < 2 ^ 32 }
    ensures { OnOk result (string_bytes out.new ≡ string_bytes out.old ++ render (each (lanes scene.now) (lane_line scene.now bottom))) }
{
    for k in 0..lanes(scene) {
        add_lane_line(alloc, out, scene, bottom, k)?;
    }
    Ok(())
}

/// The name of a lane.
fn name(alloc: Global, members: u64, k: u64) -> Result<String, AllocError>
    ensures { IfOk result (λ text. string_bytes text ≡ name_if (nat_lt k members) members k) }
{
    if k < members {
        return format!(in alloc; "node {k}");
    }
    let modem = k - members;
    format!(in alloc; "modem {modem}")
}

/// The name of a lane, above it.
fn add_lane_name(
    alloc: Global,
    out: &mut String,
    scene: &Scene<'_>,
    k: u64,
) -> Result<(), AllocError>
    requires members { scene.now.members < 2 ^ 32 }
    requires modems { scene.now.modems < 2 ^ 32 }
    requires lane { k < 2 ^ 40 }
    ensures { OnOk result (string_bytes out.new ≡ string_bytes out.old ++ render (lane_name scene.now k)) }
{
    let words = name(alloc, scene.members, k)?;
    let x = lane_x(lanes(scene), k);
    add_words(alloc, out, (x, 124), "c b", words.as_str())
}

/// The name of each lane.
fn add_names(alloc: Global, out: &mut String, scene: &Scene<'_>) -> Result<(), AllocError>
    requires members { scene.now.members < 2 ^ 32 }
    requires modems { scene.now.modems < 2 ^ 32 }
    ensures { OnOk result (string_bytes out.new ≡ string_bytes out.old ++ render (each (lanes scene.now) (lane_name scene.now))) }
{
    for k in 0..lanes(scene) {
        add_lane_name(alloc, out, scene, k)?;
    }
    Ok(())
}

/// A part of each event, in order.
fn of_events(alloc: Global, scene: &Scene<'_>, part: Part) -> Result<String, AllocError>
    requires members { scene.now.members < 2 ^ 32 }
    requires modems { scene.now.modems < 2 ^ 32 }
    ensures { IfOk result (λ text. string_bytes text ≡ render (of_events scene.now part)) }
{
    let mut out = String::new(alloc);
    add_part(alloc, &mut out, scene, part)?;
    Ok(out)
}

/// The bands of each node.
fn add_all_bands(
    alloc: Global,
    out: &mut String,
    scene: &Scene<'_>,
    bottom: u64,
) -> Result<(), AllocError>
    requires members { scene.now.members < 2 ^ 32 }
    requires modems { scene.now.modems < 2 ^ 32 }
    ensures { OnOk result (string_bytes out.new ≡ string_bytes out.old ++ render (each scene.now.members (node_bands scene.now bottom))) }
{
    for k in 0..scene.members {
        add_bands(alloc, out, scene, bottom, k)?;
    }
    Ok(())
}

/// The line of each letter that shows that a place is chosen.
fn add_choices(alloc: Global, out: &mut String, scene: &Scene<'_>) -> Result<(), AllocError>
    requires members { scene.now.members < 2 ^ 32 }
    requires modems { scene.now.modems < 2 ^ 32 }
    ensures { OnOk result (string_bytes out.new ≡ string_bytes out.old ++ render (each (length scene.now.letters.now) (chosen_at scene.now))) }
{
    for l in 0..scene.letters.len() {
        add_chosen(alloc, out, scene, l)?;
    }
    Ok(())
}

/// The thin lines of rows, and lines where places are chosen.
fn rules_of(alloc: Global, scene: &Scene<'_>) -> Result<String, AllocError>
    requires members { scene.now.members < 2 ^ 32 }
    requires modems { scene.now.modems < 2 ^ 32 }
    ensures { IfOk result (λ text. string_bytes text ≡ render (rules_of scene.now)) }
{
    let mut out = String::new(alloc);
    add_part(alloc, &mut out, scene, Part::Rule)?;
    add_choices(alloc, &mut out, scene)?;
    Ok(out)
}

/// Bands, and the lines of lanes, down to the bottom.
fn bands_of(alloc: Global, scene: &Scene<'_>, bottom: u64) -> Result<String, AllocError>
    requires members { scene.now.members < 2 ^ 32 }
    requires modems { scene.now.modems < 2 ^ 32 }
    ensures { IfOk result (λ text. string_bytes text ≡ render (bands_of scene.now bottom)) }
{
    let mut out = String::new(alloc);
    add_all_bands(alloc, &mut out, scene, bottom)?;
    add_lanes(alloc, &mut out, scene, bottom)?;
    Ok(out)
}

/// Arrows and stubs.
fn arrows_of(alloc: Global, scene: &Scene<'_>) -> Result<String, AllocError>
    requires members { scene.now.members < 2 ^ 32 }
    requires modems { scene.now.modems < 2 ^ 32 }
    ensures { IfOk result (λ text. string_bytes text ≡ render (arrows_of scene.now)) }
{
    let mut out = String::new(alloc);
    add_part(alloc, &mut out, scene, Part::Arrow)?;
    add_part(alloc, &mut out, scene, Part::Hearing)?;
    add_stubs(alloc, &mut out, scene)?;
    Ok(out)
}

/// Adds words behind a legend.
fn add_labels(alloc: Global, out: &mut String, scene: &Scene<'_>) -> Result<(), AllocError>
    requires members { scene.now.members < 2 ^ 32 }
    requires modems { scene.now.modems < 2 ^ 32 }
    ensures { (known : Xml) → string_bytes out.old ≡ render known → OnOk result (string_bytes out.new ≡ render (labels_of scene.now known)) }
{
    add_names(alloc, out, scene)?;
    add_part(alloc, out, scene, Part::Number)?;
    add_part(alloc, out, scene, Part::Happening)?;
    add_part(alloc, out, scene, Part::Answered)?;
    add_part(alloc, out, scene, Part::Label)?;
    add_part(alloc, out, scene, Part::Told)?;
    Ok(())
}

/// The layers of a scene, whose lanes end at the bottom.
fn layers_of(alloc: Global, scene: &Scene<'_>, bottom: u64) -> Result<Layers, AllocError>
    requires members { scene.now.members < 2 ^ 32 }
    requires modems { scene.now.modems < 2 ^ 32 }
    ensures { IfOk result (λ all. (known : Xml) × AreDrawn all (layers scene.now bottom known)) }
{
    let rules = rules_of(alloc, scene)?;
    let bands = bands_of(alloc, scene, bottom)?;
    let arrows = arrows_of(alloc, scene)?;
    let marks = of_events(alloc, scene, Part::Mark)?;
    let counts = Counts {
        members: scene.members,
        modems: scene.modems,
        span: scene.span,
        events: scene.run.len(),
        letters: scene.letters.len(),
    };
    let mut labels = legend(alloc, counts)?;
    add_labels(alloc, &mut labels, scene)?;
    Ok(Layers {
        rules,
        bands,
        arrows,
        marks,
        labels,
    })
}

/// Where lanes end: below the last row.
fn bottom_of(rows: &[u32]) -> u64
    ensures { result < 2 ^ 40 }
{
    match rows.last() {
        Some(last) => u64::from(*last) + 24,
        None => 170,
    }
}

/// The picture of a scene in this size, with words for a title and a style, whose lanes end at the bottom.
fn drawn_so(
    alloc: Global,
    scene: &Scene<'_>,
    size: (u64, u64),
    bottom: u64,
    words: (&str, &str),
) -> Result<String, AllocError>
    requires members { scene.now.members < 2 ^ 32 }
    requires modems { scene.now.modems < 2 ^ 32 }
    ensures { IfOk result (λ text. Draws scene.now (string_bytes text)) }
{
    let all = layers_of(alloc, scene, bottom)?;
    let heads = heads(alloc)?;
    let sheet = Sheet {
        size,
        title: words.0,
        style: words.1,
        definitions: heads.as_str(),
    };
    let text = drawing(alloc, &sheet, &all)?;
    Ok(text)
}

/// The picture of a scene.
fn drawn_scene(alloc: Global, scene: &Scene<'_>) -> Result<String, AllocError>
    requires members { scene.now.members < 2 ^ 32 }
    requires modems { scene.now.modems < 2 ^ 32 }
    ensures { IfOk result (λ text. Draws scene.now (string_bytes text)) }
{
    let bottom = bottom_of(scene.rows);
    let width = (lanes_end(lanes(scene)) + 190).max(860);
    let title = format!(in alloc; "upsched run, {} events", scene.run.len())?;
    let size = (width, bottom + 12);
    drawn_so(alloc, scene, size, bottom, (title.as_str(), STYLE))
}

/// The picture of a run of so many nodes and of modems with these ids, as an SVG document: what happened, how it was
/// answered, every letter that was sent and every output that was released. Events are drawn from a number on, and
/// before another one: `(0, run.len())` draws all. What was before them comes from the upper edge, and what comes later
/// isn't drawn.
pub fn picture(
    alloc: Global,
    members: Members,
    ids: &[u32],
    run: &Watched<'_>,
    span: (usize, usize),
) -> Result<String, AllocError>
    requires modems { length ids.now < 2 ^ 32 }
    requires events { length run.now.rows < 2 ^ 27 }
    ensures { IfOk result (λ text. IsPictureOf (member_count members) ids.now span run.now (string_bytes text)) }
{
    let rows = rows_of(alloc, run, span)?;
    let senders = senders_of(alloc, run, span)?;
    let releasers = releasers_of(alloc, run, span)?;
    let letters = run.letters();
    let firsts = firsts_of(alloc, letters.len(), run)?;
    let choices = choices(alloc, members, letters)?;
    let scene = Scene {
        members: u64::from(members.count()),
        modems: ids.len() as u64,
        span,
        run,
        letters,
        outputs: run.outputs(),
        rows: rows.as_slice(),
        senders: senders.as_slice(),
        releasers: releasers.as_slice(),
        firsts: firsts.as_slice(),
        choices: choices.as_slice(),
    };
    drawn_scene(alloc, &scene)
}
