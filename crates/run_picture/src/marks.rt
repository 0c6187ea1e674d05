//! The mark of an event.

ghost use Rattle.std.specs.Prelude.{◌≡◌, ◌++◌, ◌<◌, ◌^◌, OnOk, IfOk, string_bytes, slice_get};
ghost use Rattle.xml_text.specs.Xml.{render, shape, titled};
ghost use Rattle.xml_text.specs.Xml.Tag.{Circle};
ghost use Rattle.run_picture.specs.Marks.{has_failed, kind_name, letter_dot, path_at, cross_at, is_idle, tick_shape};
ghost use Rattle.run_picture.specs.Marks.{done_shape, mark_shape, mark_title};

use ballots::{Letter, Note};
use printed_answers::answer_text;
use seats::Answer;
use std::alloc::{AllocError, Global};
use world_events::Event;
use xml_text::{Disc, add_titled_circle, add_titled_path};

/// Whether an answer says that the event failed.
pub(crate) fn has_failed(answer: Answer) -> bool
    ensures { result ≡ has_failed answer }
{
    match answer {
        Answer::WantRefused(_) => true,
        Answer::Refused(_) => true,
        Answer::Fault(_) => true,
        Answer::Crashed => true,
        _ => false,
    }
}

/// The name of a letter's kind.
pub(crate) fn kind_name(note: &Note) -> &'static str
    ensures { result.now ≡ kind_name note.now }
{
    match note {
        Note::Prepare { .. } => "prepare",
        Note::Promise { .. } => "promise",
        Note::Accept { .. } => "accept",
        Note::Voted { .. } => "voted",
        Note::Higher { .. } => "higher",
        Note::Known { .. } => "known",
    }
}

/// A mark: what it tells when it is pointed at, all letters of the run, where it is, and its event with the answer.
#[derive(Clone, Copy)]
pub(crate) struct Mark<'a> {
    pub title: &'a str,
    pub letters: &'a [Letter],
    pub at: (u64, u64),
    pub event: &'a Event,
    pub answer: Answer,
}

/// A circle round a point, with this radius and this class.
fn add_dot(
    alloc: Global,
    out: &mut String,
    title: &str,
    at: (u64, u64),
    look: (u64, &str),
) -> Result<(), AllocError>
    ensures { OnOk result (string_bytes out.new
        ≡ string_bytes out.old ++ render (titled title.now (shape (Circle at.0 at.1 look.entry.0 look.entry.1.now)))) }
{
    let (radius, class) = look;
    let disc = Disc { middle: at, radius };
    add_titled_circle(alloc, out, title, disc, class)
}

/// A dot in the colour of letter `i`.
fn add_letter_dot(
    alloc: Global,
    out: &mut String,
    mark: &Mark<'_>,
    i: usize,
) -> Result<(), AllocError>
    ensures { OnOk result (string_bytes out.new
        ≡ string_bytes out.old ++ render (titled mark.now.title.now (shape (letter_dot mark.now.at.0 mark.now.at.1 (slice_get mark.now.letters.now i))))) }
{
    let letters = mark.letters;
    if i >= letters.len() {
        return add_dot(alloc, out, mark.title, mark.at, (5, "ring"));
    }
    let class = format!(in alloc; "f-{}", kind_name(&letters[i].note))?;
    add_dot(alloc, out, mark.title, mark.at, (4, class.as_str()))
}

/// A path that begins at a point, with these steps and this class.
fn add_path_at(
    alloc: Global,
    out: &mut String,
    title: &str,
    at: (u64, u64),
    path: (&str, &str),
) -> Result<(), AllocError>
    ensures { OnOk result (string_bytes out.new
        ≡ string_bytes out.old ++ render (titled title.now (shape (path_at at.0 at.1 path.entry.0.now path.entry.1.now)))) }
{
    let ((x, y), (steps, class)) = (at, path);
    let path = format!(in alloc; "M{x} {y}{steps}")?;
    add_titled_path(alloc, out, title, path.as_str(), class)
}

fn add_cross(alloc: Global, out: &mut String, title: &str, at: (u64, u64)) -> Result<(), AllocError>
    ensures { OnOk result (string_bytes out.new ≡ string_bytes out.old ++ render (titled title.now (shape (cross_at at.0 at.1)))) }
{
    let left = at.0.saturating_sub(5);
    let up = at.1.saturating_sub(5);
    add_path_at(
        alloc,
        out,
        title,
        (left, up),
        ("l10 10m0 -10l-10 10", "x sbad"),
    )
}

/// The mark of an event that went well.
fn add_done_shape(alloc: Global, out: &mut String, mark: &Mark<'_>) -> Result<(), AllocError>
    ensures { OnOk result (string_bytes out.new ≡ string_bytes out.old ++ render
        (titled mark.now.title.now (shape (done_shape mark.now.letters.now mark.now.at.0 mark.now.at.1 mark.now.event.now mark.now.answer)))) }
{
    let (title, (x, y)) = (mark.title, mark.at);
    let left = x.saturating_sub(5);
    let lefter = x.saturating_sub(6);
    let up = y.saturating_sub(5);
    let higher = y.saturating_sub(6);
    let highest = y.saturating_sub(7);
    match mark.event {
        Event::Lead(_) => {
            add_path_at(alloc, out, title, (x, highest), ("l7 12h-14z", "f-prepare"))
        }
        Event::Offer(_, _) => {
            add_path_at(alloc, out, title, (left, up), ("h11v11h-11z", "f-accept"))
        }
        Event::Tell(_, _, _) => {
            add_path_at(
                alloc,
                out,
                title,
                (left, higher),
                ("l12 6l-12 6z", "f-known"),
            )
        }
        Event::Deliver(i) => add_letter_dot(alloc, out, mark, *i),
        Event::DeliverThenCrash(_) => add_cross(alloc, out, title, mark.at),
        Event::Crash(_) => add_cross(alloc, out, title, mark.at),
        Event::Restart(_) => add_dot(alloc, out, title, mark.at, (5, "start")),
        Event::Release(_, _) => {
            add_path_at(
                alloc,
                out,
                title,
                (x, highest),
                ("l7 7l-7 7l-7 -7z", "f-output"),
            )
        }
        Event::Hear(_, _, _) => add_dot(alloc, out, title, mark.at, (4, "f-output")),
        Event::Want(_, _, _, _) => {
            add_path_at(alloc, out, title, (lefter, up), ("h12l-6 10z", "f-ask"))
        }
        Event::Tick(_, _, _, _) => add_tick(alloc, out, title, mark.at, is_idle(mark.answer)),
    }
}

/// Whether a modem had nothing to send.
fn is_idle(answer: Answer) -> bool
    ensures { result ≡ is_idle answer }
{
    match answer {
        Answer::Ticked(None) => true,
        _ => false,
    }
}

/// The mark of a modem's minislot: a speck where it had nothing to send.
fn add_tick(
    alloc: Global,
    out: &mut String,
    title: &str,
    at: (u64, u64),
    idle: bool,
) -> Result<(), AllocError>
    ensures { OnOk result (string_bytes out.new ≡ string_bytes out.old ++ render (titled title.now (shape (tick_shape idle at.0 at.1)))) }
{
    if idle {
        return add_dot(alloc, out, title, at, (2, "mute"));
    }
    let left = at.0.saturating_sub(5);
    let up = at.1.saturating_sub(6);
    add_path_at(alloc, out, title, (left, up), ("l12 6l-12 6z", "f-ask"))
}

/// The mark of an event: a red ring where it failed.
pub(crate) fn add_mark_shape(
    alloc: Global,
    out: &mut String,
    mark: &Mark<'_>,
) -> Result<(), AllocError>
    ensures { OnOk result (string_bytes out.new ≡ string_bytes out.old ++ render (titled mark.now.title.now
        (shape (mark_shape (has_failed mark.now.answer) mark.now.letters.now mark.now.at.0 mark.now.at.1 mark.now.event.now mark.now.answer)))) }
{
    if has_failed(mark.answer) {
        return add_dot(alloc, out, mark.title, mark.at, (5, "ring"));
    }
    add_done_shape(alloc, out, mark)
}

/// What a mark tells when it is pointed at.
pub(crate) fn mark_title(alloc: Global, i: usize, answer: Answer) -> Result<String, AllocError>
    ensures { IfOk result (λ text. string_bytes text ≡ mark_title i answer) }
{
    let answer = answer_text(alloc, answer)?;
    format!(in alloc; "event {i}: {answer}")
}
