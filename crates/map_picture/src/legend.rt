//! What is above the picture of MAPs: a mark of each kind, and what it means.

ghost use Rattle.std.specs.Prelude.{OnOk, IfOk, string_bytes};
ghost use Rattle.map_picture.specs.Pictures.{IsRendered};

use std::alloc::{AllocError, Global};
use xml_text::{Area, Disc, add_circle, add_path, add_rectangle, add_words};

/// What is drawn before words: a rectangle of a size, so far below the top of a row, a circle, or a wedge.
#[derive(Clone, Copy)]
enum Sample {
    Rectangle(u64, (u64, u64)),
    Circle,
    Wedge,
}

/// A mark of a class, and the words behind it, where this begins on a line.
struct Item {
    x: u64,
    line: Line,
    sample: Sample,
    class: &'static str,
    words: &'static str,
}

/// The lines below the title.
#[derive(Clone, Copy)]
enum Line {
    First,
    Second,
}

const BLOCK: Sample = Sample::Rectangle(0, (10, 10));

const LOW: Sample = Sample::Rectangle(0, (10, 5));

const UNDER: Sample = Sample::Rectangle(8, (10, 2));

const BAR: Sample = Sample::Rectangle(0, (3, 10));

/// What rows and marks mean.
static MARKS: [Item; 9] = [
    Item {
        x: 16,
        line: Line::First,
        sample: BLOCK,
        class: "g1",
        words: "a grant, coloured by SID",
    },
    Item {
        x: 192,
        line: Line::First,
        sample: LOW,
        class: "g1",
        words: "a poll",
    },
    Item {
        x: 260,
        line: Line::First,
        sample: BLOCK,
        class: "open",
        words: "free",
    },
    Item {
        x: 316,
        line: Line::First,
        sample: BLOCK,
        class: "opening",
        words: "open to range first",
    },
    Item {
        x: 462,
        line: Line::First,
        sample: UNDER,
        class: "due",
        words: "when it is due",
    },
    Item {
        x: 578,
        line: Line::First,
        sample: UNDER,
        class: "bad",
        words: "missed",
    },
    Item {
        x: 16,
        line: Line::Second,
        sample: Sample::Circle,
        class: "sent",
        words: "sent",
    },
    Item {
        x: 72,
        line: Line::Second,
        sample: Sample::Circle,
        class: "ring",
        words: "told to wait",
    },
    Item {
        x: 182,
        line: Line::Second,
        sample: BAR,
        class: "bad",
        words: "waits or was dropped",
    },
];

/// What wedges mean.
static WEDGES: [Item; 2] = [
    Item {
        x: 340,
        line: Line::Second,
        sample: Sample::Wedge,
        class: "sent",
        words: "a modem transmits in this minislot",
    },
    Item {
        x: 576,
        line: Line::Second,
        sample: Sample::Wedge,
        class: "bad",
        words: "another one does too: a collision",
    },
];

/// Where the words of a line are.
fn base_of(line: Line) -> u64 {
    match line {
        Line::First => 43,
        Line::Second => 59,
    }
}

fn add_box(alloc: Global, out: &mut String, area: Area, class: &str) -> Result<(), AllocError>
    requires { IsRendered (string_bytes out.now) }
    ensures { OnOk result (IsRendered (string_bytes out.new)) }
{
    add_rectangle(alloc, out, area, class)?;
    Ok(())
}

fn add_dot(
    alloc: Global,
    out: &mut String,
    middle: (u64, u64),
    class: &str,
) -> Result<(), AllocError>
    requires { IsRendered (string_bytes out.now) }
    ensures { OnOk result (IsRendered (string_bytes out.new)) }
{
    add_circle(alloc, out, Disc { middle, radius: 4 }, class)?;
    Ok(())
}

fn add_outline(alloc: Global, out: &mut String, steps: &str, class: &str) -> Result<(), AllocError>
    requires { IsRendered (string_bytes out.now) }
    ensures { OnOk result (IsRendered (string_bytes out.new)) }
{
    add_path(alloc, out, steps, class)?;
    Ok(())
}

fn add_note(
    alloc: Global,
    out: &mut String,
    point: (u64, u64),
    class: &str,
    words: &str,
) -> Result<(), AllocError>
    requires { IsRendered (string_bytes out.now) }
    ensures { OnOk result (IsRendered (string_bytes out.new)) }
{
    add_words(alloc, out, point, class, words)?;
    Ok(())
}

fn add_sample(alloc: Global, out: &mut String, item: &Item, base: u64) -> Result<(), AllocError>
    requires { IsRendered (string_bytes out.now) }
    ensures { OnOk result (IsRendered (string_bytes out.new)) }
{
    let x = item.x;
    match item.sample {
        Sample::Rectangle(down, size) => {
            let y = base.saturating_sub(9).saturating_add(down);
            let corner = (x, y);
            add_box(alloc, out, Area { corner, size }, item.class)
        }
        Sample::Circle => {
            let middle = (x.saturating_add(5), base.saturating_sub(4));
            add_dot(alloc, out, middle, item.class)
        }
        Sample::Wedge => {
            let (tip, y) = (x.saturating_add(5), base.saturating_sub(8));
            let steps = format!(in alloc; "M{tip} {y}l5 8h-10z")?;
            add_outline(alloc, out, steps.as_str(), item.class)
        }
    }
}

/// A mark and its words.
fn add_item(alloc: Global, out: &mut String, item: &Item) -> Result<(), AllocError>
    requires { IsRendered (string_bytes out.now) }
    ensures { OnOk result (IsRendered (string_bytes out.new)) }
{
    let base = base_of(item.line);
    add_sample(alloc, out, item, base)?;
    let point = (item.x.saturating_add(16), base);
    add_note(alloc, out, point, "s mute", item.words)
}

/// Several of them.
fn add_items(alloc: Global, out: &mut String, items: &[Item]) -> Result<(), AllocError>
    requires { IsRendered (string_bytes out.now) }
    ensures { OnOk result (IsRendered (string_bytes out.new)) }
{
    for item in items {
        add_item(alloc, out, item)?;
    }
    Ok(())
}

fn empty(alloc: Global) -> String
    ensures { IsRendered (string_bytes result) }
{
    String::new(alloc)
}

/// What is above channels of MAPs with or without wedges.
pub(crate) fn legend_for(
    alloc: Global,
    title: &str,
    with_wedges: bool,
) -> Result<String, AllocError>
    ensures { IfOk result (λ text. IsRendered (string_bytes text)) }
{
    let mut out = empty(alloc);
    add_note(alloc, &mut out, (16, 26), "h", title)?;
    add_items(alloc, &mut out, &MARKS)?;
    if with_wedges {
        add_items(alloc, &mut out, &WEDGES)?;
    }
    Ok(out)
}
