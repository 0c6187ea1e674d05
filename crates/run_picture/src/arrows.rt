//! Arrows of what is delivered and heard, and stubs of letters that are never delivered.

ghost use Rattle.std.specs.Prelude.{◌≡◌, ◌++◌, ◌<◌, ◌^◌, ℕ, if◌then◌else◌, length, get_or, OnOk, IfOk, string_bytes};
ghost use Rattle.xml_text.specs.Xml.{render};
ghost use Rattle.run_picture.specs.Arrows.{letter_brought, output_brought, delivered, heard, is_this, AreFirsts, bow};
ghost use Rattle.run_picture.specs.Arrows.{straight, arrow_steps, letter_title, arrow_class, letter_arrow};
ghost use Rattle.run_picture.specs.Arrows.{output_title, output_arrow, stub_steps, stub_title, letter_stub};

use crate::lanes::lane_x;
use crate::marks::{has_failed, kind_name};
use ballots::Letter;
use command_words::named_letter_text;
use seats::{Answer, ReleasedOutput};
use std::alloc::{AllocError, Global};
use watched_runs::Watched;
use world_events::Event;
use xml_text::add_titled_path;

/// Which letter an event brings.
fn letter_brought(event: &Event) -> Option<usize>
    ensures { result ≡ letter_brought event.now }
{
    match event {
        Event::Deliver(i) => Some(*i),
        Event::DeliverThenCrash(i) => Some(*i),
        _ => None,
    }
}

/// Which output an event brings.
fn output_brought(event: &Event) -> Option<usize>
    ensures { result ≡ output_brought event.now }
{
    match event {
        Event::Hear(_, i, _) => Some(*i),
        _ => None,
    }
}

/// Which letter an event delivers, where the delivery was answered.
pub(crate) fn delivered(event: &Event, answer: Answer) -> Option<usize>
    ensures { result ≡ delivered event.now answer }
{
    if has_failed(answer) {
        return None;
    }
    letter_brought(event)
}

/// Which output is heard at an event.
pub(crate) fn heard(event: &Event, answer: Answer) -> Option<usize>
    ensures { result ≡ heard event.now answer }
{
    if has_failed(answer) {
        return None;
    }
    output_brought(event)
}

/// Whether it is letter `l`.
fn is_this(l: usize, brought: Option<usize>) -> bool
    ensures { result ≡ is_this l brought }
{
    match brought {
        Some(k) => k == l,
        None => false,
    }
}

/// Event `i` is the first so far that delivers the letter, if it does and there is such a letter.
fn note_first(firsts: &mut Vec<usize>, i: usize, brought: Option<usize>)
    ensures size { length firsts.new.items ≡ length firsts.old.items }
    ensures noted { (l : ℕ) → l < length firsts.old.items → get_or firsts.new.items l 0 ≡ (if is_this l brought then i else get_or firsts.old.items l 0) }
{
    let Some(l) = brought else {
        return;
    };
    if l < firsts.len() {
        firsts[l] = i;
    }
}

/// For each of so many letters the number of the first event that delivers it, or that of events where none does.
pub(crate) fn firsts_of(
    alloc: Global,
    count: usize,
    run: &Watched<'_>,
) -> Result<Vec<usize>, AllocError>
    ensures { IfOk result (λ firsts. AreFirsts firsts.items count run.now.rows) }
{
    let total = run.len();
    let mut firsts = vec![in alloc; total; count]?;
    for passed in 0..total {
        let i = total - 1 - passed;
        let row = run.row(i);
        note_first(&mut firsts, i, delivered(row.event, row.answer));
    }
    Ok(firsts)
}

/// A bow to the right, from a lane to itself.
fn bow(alloc: Global, x: u64, y1: u64, y2: u64) -> Result<String, AllocError>
    requires { x < 2 ^ 50 }
    ensures { IfOk result (λ text. string_bytes text ≡ bow x y1 y2) }
{
    let (near, far, back) = (x + 5, x + 34, x + 6);
    let tail = format!(in alloc; "{far} {y2} {back} {y2}")?;
    let text = format!(in alloc; "M{near} {y1}C{far} {y1} {tail}")?;
    Ok(text)
}

/// The steps of an arrow: straight, or a bow where it is to itself.
fn arrow_steps(alloc: Global, from: (u64, u64), to: (u64, u64)) -> Result<String, AllocError>
    requires from { from.0 < 2 ^ 50 }
    requires to { to.0 < 2 ^ 50 }
    ensures { IfOk result (λ text. string_bytes text ≡ arrow_steps from.0 from.1 to.0 to.1) }
{
    let (x1, y1) = from;
    let (x2, y2) = to;
    if x1 == x2 {
        return bow(alloc, x1, y1, y2);
    }
    if x1 < x2 {
        let (tail, head) = (x1 + 6, x2.saturating_sub(7));
        return format!(in alloc; "M{tail} {y1}L{head} {y2}");
    }
    let (tail, head) = (x1.saturating_sub(6), x2 + 7);
    format!(in alloc; "M{tail} {y1}L{head} {y2}")
}

/// What a letter's arrow tells when it is pointed at.
fn letter_title(alloc: Global, l: usize, letter: &Letter) -> Result<String, AllocError>
    ensures { IfOk result (λ text. string_bytes text ≡ letter_title l letter.now) }
{
    let text = named_letter_text(alloc, letter)?;
    format!(in alloc; "letter {l} {text}")
}

fn arrow_class(alloc: Global, again: bool, kind: &str) -> Result<String, AllocError>
    ensures { IfOk result (λ text. string_bytes text ≡ arrow_class again kind.now) }
{
    if again {
        return format!(in alloc; "a s-{kind} h-{kind} again");
    }
    format!(in alloc; "a s-{kind} h-{kind}")
}

/// The arrow of a letter, which is delivered.
#[derive(Clone, Copy)]
pub(crate) struct LetterArrow<'a> {
    /// Whether it was delivered before.
    pub again: bool,
    pub number: usize,
    pub letter: &'a Letter,
    /// The row in which it was sent, and that of the delivery.
    pub rows: (u64, u64),
}

/// The arrow of a letter, dashed where it was delivered before.
pub(crate) fn add_letter_arrow(
    alloc: Global,
    out: &mut String,
    lanes: u64,
    arrow: &LetterArrow<'_>,
) -> Result<(), AllocError>
    ensures { OnOk result (string_bytes out.new
        ≡ string_bytes out.old ++ render (letter_arrow lanes arrow.now.again arrow.now.number arrow.now.letter.now arrow.now.rows.0 arrow.now.rows.1)) }
{
    let letter = arrow.letter;
    let title = letter_title(alloc, arrow.number, letter)?;
    let class = arrow_class(alloc, arrow.again, kind_name(&letter.note))?;
    let from = lane_x(lanes, u64::from(letter.from.number()));
    let to = lane_x(lanes, u64::from(letter.to.number()));
    let steps = arrow_steps(alloc, (from, arrow.rows.0), (to, arrow.rows.1))?;
    add_titled_path(alloc, out, title.as_str(), steps.as_str(), class.as_str())
}

/// What an output's arrow tells when it is pointed at.
fn output_title(alloc: Global, i: usize, output: &ReleasedOutput) -> Result<String, AllocError>
    ensures { IfOk result (λ text. string_bytes text ≡ output_title i output.now) }
{
    let (node, place) = (output.node, output.numbered.place);
    format!(in alloc; "output {i} of node {node} place {place}")
}

/// The arrow of an output, which a modem hears.
#[derive(Clone, Copy)]
pub(crate) struct OutputArrow<'a> {
    /// The modem's lane.
    pub lane: u64,
    pub number: usize,
    pub output: &'a ReleasedOutput,
    /// The row in which it was released, and that in which it is heard.
    pub rows: (u64, u64),
}

/// The arrow of an output.
pub(crate) fn add_output_arrow(
    alloc: Global,
    out: &mut String,
    lanes: u64,
    arrow: &OutputArrow<'_>,
) -> Result<(), AllocError>
    requires node { arrow.now.output.now.node < 2 ^ 40 }
    requires lane { arrow.now.lane < 2 ^ 40 }
    ensures { OnOk result (string_bytes out.new
        ≡ string_bytes out.old ++ render (output_arrow lanes arrow.now.lane arrow.now.number arrow.now.output.now arrow.now.rows.0 arrow.now.rows.1)) }
{
    let title = output_title(alloc, arrow.number, arrow.output)?;
    let from = lane_x(lanes, arrow.output.node as u64);
    let to = lane_x(lanes, arrow.lane);
    let steps = arrow_steps(alloc, (from, arrow.rows.0), (to, arrow.rows.1))?;
    let class = "a s-output h-output weak";
    add_titled_path(alloc, out, title.as_str(), steps.as_str(), class)
}

fn stub_steps(alloc: Global, x: u64, y: u64, to: u64) -> Result<String, AllocError>
    requires x { x < 2 ^ 50 }
    requires y { y < 2 ^ 50 }
    requires to { to < 5 }
    ensures { IfOk result (λ text. string_bytes text ≡ stub_steps x y to) }
{
    let (top, bottom) = (y + 5, y + 12);
    let aside = (x + 8 * to).saturating_sub(16);
    format!(in alloc; "M{x} {top}L{aside} {bottom}m-2 -2l5 5m0 -5l-5 5")
}

fn stub_title(alloc: Global, l: usize, letter: &Letter) -> Result<String, AllocError>
    ensures { IfOk result (λ text. string_bytes text ≡ stub_title l letter.now) }
{
    let text = letter_title(alloc, l, letter)?;
    format!(in alloc; "never delivered: {text}")
}

/// The stub of a letter of this number, sent in a row at `y` and never delivered.
pub(crate) fn add_letter_stub(
    alloc: Global,
    out: &mut String,
    lanes: u64,
    numbered: (usize, &Letter),
    y: u64,
) -> Result<(), AllocError>
    requires { y < 2 ^ 50 }
    ensures { OnOk result (string_bytes out.new ≡ string_bytes out.old ++ render (letter_stub lanes numbered.entry.0 numbered.entry.1.now y)) }
{
    let (l, letter) = numbered;
    let title = stub_title(alloc, l, letter)?;
    let class = format!(in alloc; "x s-{}", kind_name(&letter.note))?;
    let x = lane_x(lanes, u64::from(letter.from.number()));
    let steps = stub_steps(alloc, x, y, u64::from(letter.to.number()))?;
    add_titled_path(alloc, out, title.as_str(), steps.as_str(), class.as_str())
}
