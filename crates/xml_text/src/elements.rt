//! Elements, each added to a text.

ghost use Rattle.std.specs.Prelude.{◌≡◌, ◌++◌, OnOk, string_bytes};
ghost use Rattle.xml_text.specs.Xml.{Xml, arrow_head, pattern, render, said, shape, titled};
ghost use Rattle.xml_text.specs.Xml.Tag.{Line, Rectangle, Circle, Path, Words};

use crate::plain::plain;
use std::alloc::{AllocError, Global};

/// Where a rectangle is: its upper left corner, and how wide and how high it is.
#[derive(Clone, Copy, Debug)]
pub struct Area {
    pub corner: (u64, u64),
    pub size: (u64, u64),
}

/// Where a circle is: its middle, and its radius.
#[derive(Clone, Copy, Debug)]
pub struct Disc {
    pub middle: (u64, u64),
    pub radius: u64,
}

/// A pattern to fill with: its id, how many units it has each way, and the steps and the class of its path.
#[derive(Clone, Copy, Debug)]
pub struct Pattern<'a> {
    pub id: &'a str,
    pub size: u64,
    pub steps: &'a str,
    pub class: &'a str,
}

/// A straight line.
pub fn add_line(
    alloc: Global,
    out: &mut String,
    from: (u64, u64),
    to: (u64, u64),
    class: &str,
) -> Result<(), AllocError>
    ensures { OnOk result (string_bytes out.new ≡ string_bytes out.old ++ render (shape (Line from.0 from.1 to.0 to.1 class.now))) }
{
    let class = plain(alloc, class)?;
    let (x1, y1) = from;
    let (x2, y2) = to;
    let text = format!(in alloc;
        "<line x1=\"{x1}\" y1=\"{y1}\" x2=\"{x2}\" y2=\"{y2}\" class=\"{class}\"/>"
    )?;
    out.push_str(text.as_str())
}

/// A rectangle, whose corners aren't round.
pub fn add_rectangle(
    alloc: Global,
    out: &mut String,
    area: Area,
    class: &str,
) -> Result<(), AllocError>
    ensures { OnOk result (string_bytes out.new ≡ string_bytes out.old
        ++ render (shape (Rectangle area.corner.0 area.corner.1 area.size.0 area.size.1 class.now))) }
{
    let class = plain(alloc, class)?;
    let (x, y) = area.corner;
    let (width, height) = area.size;
    let tail = format!(in alloc; " height=\"{height}\" rx=\"0\" class=\"{class}\"/>")?;
    let text = format!(in alloc; "<rect x=\"{x}\" y=\"{y}\" width=\"{width}\"{tail}")?;
    out.push_str(text.as_str())
}

/// A circle.
pub fn add_circle(
    alloc: Global,
    out: &mut String,
    disc: Disc,
    class: &str,
) -> Result<(), AllocError>
    ensures { OnOk result (string_bytes out.new ≡ string_bytes out.old
        ++ render (shape (Circle disc.middle.0 disc.middle.1 disc.radius class.now))) }
{
    let class = plain(alloc, class)?;
    let (x, y) = disc.middle;
    let radius = disc.radius;
    let text = format!(in alloc;
        "<circle cx=\"{x}\" cy=\"{y}\" r=\"{radius}\" class=\"{class}\"/>"
    )?;
    out.push_str(text.as_str())
}

/// A path by its steps, as SVG writes them.
pub fn add_path(alloc: Global, out: &mut String, steps: &str, class: &str) -> Result<(), AllocError>
    ensures { OnOk result (string_bytes out.new ≡ string_bytes out.old ++ render (shape (Path steps.now class.now))) }
{
    let steps = plain(alloc, steps)?;
    let class = plain(alloc, class)?;
    let text = format!(in alloc; "<path d=\"{steps}\" class=\"{class}\"/>")?;
    out.push_str(text.as_str())
}

/// A text at a point.
pub fn add_words(
    alloc: Global,
    out: &mut String,
    point: (u64, u64),
    class: &str,
    words: &str,
) -> Result<(), AllocError>
    ensures { OnOk result (string_bytes out.new ≡ string_bytes out.old ++ render (said (Words point.0 point.1 class.now) words.now)) }
{
    let class = plain(alloc, class)?;
    let words = plain(alloc, words)?;
    let (x, y) = point;
    let text = format!(in alloc; "<text x=\"{x}\" y=\"{y}\" class=\"{class}\">{words}</text>")?;
    out.push_str(text.as_str())
}

/// Elements, whose text is `inside`, that tell what they are when they are pointed at.
pub fn add_titled(
    alloc: Global,
    out: &mut String,
    title: &str,
    inside: &str,
) -> Result<(), AllocError>
    ensures { (x : Xml) → inside.now ≡ render x → OnOk result (string_bytes out.new ≡ string_bytes out.old ++ render (titled title.now x)) }
{
    let title = plain(alloc, title)?;
    let inner = format!(in alloc; "<title>{title}</title>{inside}")?;
    let text = format!(in alloc; "<g>{inner}</g>")?;
    out.push_str(text.as_str())
}

/// A path that tells what it is when it is pointed at.
pub fn add_titled_path(
    alloc: Global,
    out: &mut String,
    title: &str,
    steps: &str,
    class: &str,
) -> Result<(), AllocError>
    ensures { OnOk result (string_bytes out.new ≡ string_bytes out.old ++ render (titled title.now (shape (Path steps.now class.now)))) }
{
    let mut inside = String::new(alloc);
    add_path(alloc, &mut inside, steps, class)?;
    add_titled(alloc, out, title, inside.as_str())
}

/// A circle that tells what it is when it is pointed at.
pub fn add_titled_circle(
    alloc: Global,
    out: &mut String,
    title: &str,
    disc: Disc,
    class: &str,
) -> Result<(), AllocError>
    ensures { OnOk result (string_bytes out.new ≡ string_bytes out.old
        ++ render (titled title.now (shape (Circle disc.middle.0 disc.middle.1 disc.radius class.now)))) }
{
    let mut inside = String::new(alloc);
    add_circle(alloc, &mut inside, disc, class)?;
    add_titled(alloc, out, title, inside.as_str())
}

/// A head for arrows.
pub fn add_arrow_head(
    alloc: Global,
    out: &mut String,
    id: &str,
    class: &str,
) -> Result<(), AllocError>
    ensures { OnOk result (string_bytes out.new ≡ string_bytes out.old ++ render (arrow_head id.now class.now)) }
{
    let id = plain(alloc, id)?;
    let mut path = String::new(alloc);
    add_path(alloc, &mut path, "M0 0L8 4L0 8z", class)?;
    let text = format!(in alloc;
        "<marker id=\"{id}\" refX=\"7\" refY=\"4\" markerWidth=\"8\" markerHeight=\"8\" markerUnits=\"userSpaceOnUse\" orient=\"auto\">{path}</marker>"
    )?;
    out.push_str(text.as_str())
}

/// A pattern to fill with.
pub fn add_pattern(alloc: Global, out: &mut String, fill: &Pattern<'_>) -> Result<(), AllocError>
    ensures { OnOk result (string_bytes out.new ≡ string_bytes out.old
        ++ render (pattern fill.now.id.now fill.now.size fill.now.steps.now fill.now.class.now)) }
{
    let id = plain(alloc, fill.id)?;
    let size = fill.size;
    let mut path = String::new(alloc);
    add_path(alloc, &mut path, fill.steps, fill.class)?;
    let text = format!(in alloc;
        "<pattern id=\"{id}\" width=\"{size}\" height=\"{size}\" patternUnits=\"userSpaceOnUse\">{path}</pattern>"
    )?;
    out.push_str(text.as_str())
}
