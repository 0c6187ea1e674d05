//! The row of a request.

ghost use Rattle.std.specs.Prelude.{◌≡◌, ◌++◌, ◌<◌, ◌^◌, IfOk, OnOk, string_bytes};
ghost use Rattle.xml_text.specs.Xml.{render};
ghost use Rattle.plan_account.specs.Accounts.{why_last};
ghost use Rattle.map_picture.specs.Asked.{asked, asked_line, asked_marks, asked_name, asked_words, bar, before_at};
ghost use Rattle.map_picture.specs.Asked.{before_words, end_mark, end_words, ended_at, ended_words, last_told};
ghost use Rattle.map_picture.specs.Asked.{marks_at, sent_mark, sent_title, sent_x, stop, told_mark, told_title};
ghost use Rattle.map_picture.specs.Asked.{wait_words};

use crate::axis::{Axis, Span, at, is_bare, is_before, right, wide};
use crate::shapes::class_of;
use crate::words::sid_of;
use plan_account::{Fate, RequestRow, Told, Why, why_last, why_words};
use std::alloc::{AllocError, Global};
use xml_text::{Area, Disc, add_line, add_rectangle, add_titled_circle, add_words};

fn last_told(sent: u64, told: Option<Told>) -> u64
    ensures { result ≡ last_told sent told }
{
    match told {
        Some(told) => told.start,
        None => sent,
    }
}

/// Up to when a request is drawn.
fn stop(axis: Axis, row: &RequestRow) -> u64
    ensures { result ≡ stop axis row.now }
{
    match row.fate {
        Fate::Waits(_) => axis.span.to,
        Fate::Gone => last_told(row.sent, row.told),
        Fate::Granted { start, .. } => start,
    }
}

/// Whose request it is.
pub(crate) fn asked_words(alloc: Global, row: &RequestRow) -> Result<String, AllocError>
    ensures { IfOk result (λ text. string_bytes text ≡ asked_words row.now) }
{
    let RequestRow { key, n, .. } = *row;
    let sid = key % (1 << 16);
    format!(in alloc; "sid {sid} asks {n}")
}

fn add_asked_name(
    alloc: Global,
    out: &mut String,
    axis: Axis,
    y: u64,
    row: &RequestRow,
) -> Result<(), AllocError>
    requires { y < 2 ^ 62 }
    ensures { OnOk result (string_bytes out.new ≡ string_bytes out.old ++ render (asked_name axis y row.now)) }
{
    let words = asked_words(alloc, row)?;
    let point = (u64::from(axis.columns.names), y + 11);
    add_words(alloc, out, point, "s e", words.as_str())
}

/// Where a request was sent: in the gutter, if that was before the axis begins.
fn sent_x(axis: Axis, t: u64) -> u64
    ensures { result ≡ sent_x axis t }
{
    if is_before(axis.span, t) {
        u64::from(axis.columns.left).saturating_sub(10)
    } else {
        at(axis, t)
    }
}

fn add_asked_line(
    alloc: Global,
    out: &mut String,
    axis: Axis,
    y: u64,
    row: &RequestRow,
) -> Result<(), AllocError>
    requires { y < 2 ^ 62 }
    ensures { OnOk result (string_bytes out.new ≡ string_bytes out.old ++ render (asked_line axis y row.now)) }
{
    let (from, to) = (
        (sent_x(axis, row.sent), y + 7),
        (at(axis, stop(axis, row)), y + 7),
    );
    add_line(alloc, out, from, to, "ask")
}

/// How long before the axis begins a request was sent.
pub(crate) fn before_words(
    alloc: Global,
    span: Span,
    row: &RequestRow,
) -> Result<String, AllocError>
    ensures { IfOk result (λ text. string_bytes text ≡ before_words span row.now) }
{
    if !is_before(span, row.sent) {
        return String::from_str(alloc, "");
    }
    let before = span.from.saturating_sub(row.sent);
    format!(in alloc; "{before} before")
}

fn add_before(
    alloc: Global,
    out: &mut String,
    axis: Axis,
    y: u64,
    row: &RequestRow,
) -> Result<(), AllocError>
    requires { y < 2 ^ 62 }
    ensures { OnOk result (string_bytes out.new ≡ string_bytes out.old ++ render (before_at axis y row.now)) }
{
    if !is_before(axis.span, row.sent) {
        return Ok(());
    }
    let words = before_words(alloc, axis.span, row)?;
    let x = u64::from(axis.columns.left).saturating_sub(18);
    add_words(alloc, out, (x, y + 11), "s e mute", words.as_str())
}

fn sent_title(alloc: Global, row: &RequestRow) -> Result<String, AllocError>
    ensures { IfOk result (λ text. string_bytes text ≡ sent_title row.now) }
{
    let RequestRow { command, sent, .. } = *row;
    format!(in alloc; "command {command}: sent at {sent}")
}

/// A dot where a request was sent.
fn add_sent_mark(
    alloc: Global,
    out: &mut String,
    axis: Axis,
    y: u64,
    row: &RequestRow,
) -> Result<(), AllocError>
    requires { y < 2 ^ 62 }
    ensures { OnOk result (string_bytes out.new ≡ string_bytes out.old ++ render (sent_mark axis y row.now)) }
{
    let title = sent_title(alloc, row)?;
    let middle = (sent_x(axis, row.sent), y + 7);
    let dot = Disc { middle, radius: 4 };
    add_titled_circle(alloc, out, title.as_str(), dot, "sent")
}

fn told_title(alloc: Global, start: u64, why: Option<Why>) -> Result<String, AllocError>
    ensures { IfOk result (λ text. string_bytes text ≡ told_title start why) }
{
    match why {
        Some(why) => {
            let why = why_words(alloc, why)?;
            format!(in alloc; "told to wait at {start}, {why}")
        }
        None => format!(in alloc; "told to wait at {start}"),
    }
}

/// A ring where it was told to wait last, and why it waited.
fn add_told_mark(
    alloc: Global,
    out: &mut String,
    axis: Axis,
    y: u64,
    row: &RequestRow,
) -> Result<(), AllocError>
    requires { y < 2 ^ 62 }
    ensures { OnOk result (string_bytes out.new ≡ string_bytes out.old
        ++ render (told_mark axis y row.now.told (why_last row.now.told row.now.fate))) }
{
    let Some(told) = row.told else {
        return Ok(());
    };
    let title = told_title(alloc, told.start, why_last(row))?;
    let middle = (at(axis, told.start), y + 7);
    let ring = Disc { middle, radius: 4 };
    add_titled_circle(alloc, out, title.as_str(), ring, "ring")
}

fn add_bar(
    alloc: Global,
    out: &mut String,
    axis: Axis,
    y: u64,
    row: &RequestRow,
) -> Result<(), AllocError>
    ensures { OnOk result (string_bytes out.new ≡ string_bytes out.old ++ render (bar axis y row.now)) }
{
    let area = Area {
        corner: (at(axis, stop(axis, row)), y),
        size: (3, 14),
    };
    add_rectangle(alloc, out, area, "bad")
}

/// A block where it is granted, or else a red bar.
fn add_end_mark(
    alloc: Global,
    out: &mut String,
    axis: Axis,
    y: u64,
    row: &RequestRow,
) -> Result<(), AllocError>
    ensures { OnOk result (string_bytes out.new ≡ string_bytes out.old ++ render (end_mark axis y row.now row.now.fate)) }
{
    match row.fate {
        Fate::Waits(_) => add_bar(alloc, out, axis, y, row),
        Fate::Gone => add_bar(alloc, out, axis, y, row),
        Fate::Granted { start, .. } => {
            let to = start.saturating_add(u64::from(row.n));
            let area = Area {
                corner: (at(axis, start), y),
                size: (wide(axis, start, to), 14),
            };
            add_rectangle(alloc, out, area, class_of(sid_of(row.key)))
        }
    }
}

fn end_words(alloc: Global, sent: u64, fate: Fate) -> Result<String, AllocError>
    ensures { IfOk result (λ text. string_bytes text ≡ end_words sent fate) }
{
    match fate {
        Fate::Waits(_) => String::from_str(alloc, "still waits"),
        Fate::Gone => String::from_str(alloc, "dropped"),
        Fate::Granted { start, .. } => {
            let after = start.saturating_sub(sent);
            format!(in alloc; "after {after}")
        }
    }
}

fn wait_words(alloc: Global, why: Option<Why>) -> Result<String, AllocError>
    ensures { IfOk result (λ text. string_bytes text ≡ wait_words why) }
{
    match why {
        Some(why) => {
            let why = why_words(alloc, why)?;
            format!(in alloc; ": {why}")
        }
        None => String::from_str(alloc, ""),
    }
}

pub(crate) fn ended_words(alloc: Global, row: &RequestRow) -> Result<String, AllocError>
    ensures { IfOk result (λ text. string_bytes text ≡ ended_words row.now) }
{
    let end = end_words(alloc, row.sent, row.fate)?;
    let wait = wait_words(alloc, why_last(row))?;
    format!(in alloc; "{end}{wait}")
}

fn add_ended(
    alloc: Global,
    out: &mut String,
    axis: Axis,
    y: u64,
    row: &RequestRow,
) -> Result<(), AllocError>
    requires { y < 2 ^ 62 }
    ensures { OnOk result (string_bytes out.new ≡ string_bytes out.old ++ render (ended_at axis y row.now)) }
{
    let words = ended_words(alloc, row)?;
    let point = (right(axis.columns), y + 11);
    add_words(alloc, out, point, "s mute", words.as_str())
}

fn add_marks(
    alloc: Global,
    out: &mut String,
    axis: Axis,
    y: u64,
    row: &RequestRow,
) -> Result<(), AllocError>
    requires { y < 2 ^ 62 }
    ensures { OnOk result (string_bytes out.new ≡ string_bytes out.old ++ render (asked_marks axis y row.now)) }
{
    add_asked_line(alloc, out, axis, y, row)?;
    add_before(alloc, out, axis, y, row)?;
    add_sent_mark(alloc, out, axis, y, row)?;
    add_told_mark(alloc, out, axis, y, row)?;
    add_end_mark(alloc, out, axis, y, row)?;
    Ok(())
}

/// The marks of a request: none, where the channel has no MAP.
fn add_marks_at(
    alloc: Global,
    out: &mut String,
    axis: Axis,
    y: u64,
    row: &RequestRow,
) -> Result<(), AllocError>
    requires { y < 2 ^ 62 }
    ensures { OnOk result (string_bytes out.new ≡ string_bytes out.old ++ render (marks_at axis y row.now)) }
{
    if is_bare(axis.span) {
        return Ok(());
    }
    add_marks(alloc, out, axis, y, row)
}

/// The row of a request.
pub(crate) fn add_asked(
    alloc: Global,
    out: &mut String,
    axis: Axis,
    y: u64,
    row: &RequestRow,
) -> Result<(), AllocError>
    requires { y < 2 ^ 62 }
    ensures { OnOk result (string_bytes out.new ≡ string_bytes out.old ++ render (asked axis y row.now)) }
{
    add_asked_name(alloc, out, axis, y, row)?;
    add_marks_at(alloc, out, axis, y, row)?;
    add_ended(alloc, out, axis, y, row)?;
    Ok(())
}
