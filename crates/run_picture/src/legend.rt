//! What is above the picture of a run: a mark of each kind, and what it means.

ghost use Rattle.std.specs.Prelude.{OnOk, IfOk, string_bytes};
ghost use Rattle.run_picture.specs.Heads.{IsRendered};

use crate::heads::{Counts, add_counts, kinds};
use std::alloc::{AllocError, Global};
use xml_text::{Disc, add_circle, add_path, add_words};

/// What is drawn before words, from a point on their line on.
#[derive(Clone, Copy)]
enum Sample {
    /// A mark, which begins so far right of the point and above it.
    Path(u64, u64, &'static str),
    /// A mark of this radius.
    Circle(u64),
    /// What is drawn between lanes.
    Line(&'static str),
}

/// Where an item begins on its line, its sample and the class of that, and its words.
struct Item((u64, u64), Sample, &'static str, &'static str);

/// The line below the title, and the one below that; bands are beside the kinds of letters.
const FIRST: u64 = 43;

const SECOND: u64 = 61;

const BANDS: u64 = 92;

const TRIANGLE_UP: Sample = Sample::Path(7, 10, "l7 12h-14z");

const SQUARE: Sample = Sample::Path(0, 9, "h11v11h-11z");

const DIAMOND: Sample = Sample::Path(7, 11, "l7 7l-7 7l-7 -7z");

const CROSS: Sample = Sample::Path(1, 9, "l10 10m0 -10l-10 10");

const TRIANGLE_DOWN: Sample = Sample::Path(0, 9, "h12l-6 10z");

const TRIANGLE_RIGHT: Sample = Sample::Path(1, 10, "l12 6l-12 6z");

const BAND: Sample = Sample::Path(0, 9, "h12v11h-12z");

const RULE: Sample = Sample::Line("h22");

const STUB: Sample = Sample::Line("h20m-2 -2l5 5m0 -5l-5 5");

/// What marks, arrows, stubs and bands mean.
static ITEMS: [Item; 17] = [
    Item((16, FIRST), TRIANGLE_UP, "f-prepare", "asked to lead"),
    Item((122, FIRST), SQUARE, "f-accept", "offered"),
    Item(
        (192, FIRST),
        Sample::Circle(4),
        "f-output",
        "delivered or heard",
    ),
    Item((328, FIRST), DIAMOND, "f-output", "releases"),
    Item((404, FIRST), CROSS, "x sbad", "crashes"),
    Item((474, FIRST), Sample::Circle(5), "start", "restarts"),
    Item((550, FIRST), TRIANGLE_DOWN, "f-ask", "wants"),
    Item((608, FIRST), TRIANGLE_RIGHT, "f-ask", "tells or transmits"),
    Item((744, FIRST), Sample::Circle(2), "mute", "idle"),
    Item(
        (16, SECOND),
        Sample::Circle(5),
        "ring",
        "failed, and nothing was done",
    ),
    Item((212, SECOND), RULE, "a s-accept again", "again"),
    Item(
        (280, SECOND),
        RULE,
        "a s-output weak",
        "an output that is heard",
    ),
    Item((456, SECOND), STUB, "x s-accept", "never delivered"),
    Item(
        (584, SECOND),
        RULE,
        "chosen",
        "chosen, by votes whose letters were sent",
    ),
    Item((450, BANDS), BAND, "prep", "prepares a ballot"),
    Item((580, BANDS), BAND, "lead", "leads"),
    Item((638, BANDS), BAND, "down", "is down"),
];

fn add_dot(alloc: Global, out: &mut String, disc: Disc, class: &str) -> Result<(), AllocError>
    requires { IsRendered (string_bytes out.now) }
    ensures { OnOk result (IsRendered (string_bytes out.new)) }
{
    add_circle(alloc, out, disc, class)?;
    Ok(())
}

fn add_outline(alloc: Global, out: &mut String, steps: &str, class: &str) -> Result<(), AllocError>
    requires { IsRendered (string_bytes out.now) }
    ensures { OnOk result (IsRendered (string_bytes out.new)) }
{
    add_path(alloc, out, steps, class)?;
    Ok(())
}

fn add_note(
    alloc: Global,
    out: &mut String,
    point: (u64, u64),
    words: &str,
) -> Result<(), AllocError>
    requires { IsRendered (string_bytes out.now) }
    ensures { OnOk result (IsRendered (string_bytes out.new)) }
{
    add_words(alloc, out, point, "s mute", words)?;
    Ok(())
}

/// The sample of an item.
fn add_sample(alloc: Global, out: &mut String, item: &Item) -> Result<(), AllocError>
    requires { IsRendered (string_bytes out.now) }
    ensures { OnOk result (IsRendered (string_bytes out.new)) }
{
    let Item((x, base), sample, class, _) = *item;
    let middle = base.saturating_sub(4);
    match sample {
        Sample::Path(right, above, steps) => {
            let (left, top) = (x.saturating_add(right), base.saturating_sub(above));
            let steps = format!(in alloc; "M{left} {top}{steps}")?;
            add_outline(alloc, out, steps.as_str(), class)
        }
        Sample::Circle(radius) => {
            let middle = (x.saturating_add(6), middle);
            add_dot(alloc, out, Disc { middle, radius }, class)
        }
        Sample::Line(steps) => {
            let steps = format!(in alloc; "M{x} {middle}{steps}")?;
            add_outline(alloc, out, steps.as_str(), class)
        }
    }
}

/// How far behind the beginning of a sample its words are.
fn gap(sample: Sample) -> u64 {
    match sample {
        Sample::Line(_) => 28,
        _ => 18,
    }
}

/// A sample and its words.
fn add_item(alloc: Global, out: &mut String, item: &Item) -> Result<(), AllocError>
    requires { IsRendered (string_bytes out.now) }
    ensures { OnOk result (IsRendered (string_bytes out.new)) }
{
    let Item((x, base), sample, _, words) = *item;
    add_sample(alloc, out, item)?;
    add_note(alloc, out, (x.saturating_add(gap(sample)), base), words)
}

/// Several of them.
fn add_items(alloc: Global, out: &mut String, items: &[Item]) -> Result<(), AllocError>
    requires { IsRendered (string_bytes out.now) }
    ensures { OnOk result (IsRendered (string_bytes out.new)) }
{
    for item in items {
        add_item(alloc, out, item)?;
    }
    Ok(())
}

/// What is above a run of so many nodes and modems: how many events and letters there are, the kinds of arrows, and a
/// mark of each kind.
pub(crate) fn legend(alloc: Global, counts: Counts) -> Result<String, AllocError>
    ensures { IfOk result (λ text. IsRendered (string_bytes text)) }
{
    let mut out = kinds(alloc)?;
    add_counts(alloc, &mut out, counts)?;
    add_items(alloc, &mut out, &ITEMS)?;
    Ok(out)
}
