//! Rows of events, from the top down.

ghost use Rattle.std.specs.Prelude.{◌≡◌, ◌≤◌, ◌<◌, ◌+◌, ◌^◌, ◌++◌, replicate, take, length, OnOk, IfOk};
ghost use Rattle.run_picture.specs.Rows.{row_height, first_row, row_at, row_behind, rows_within};
ghost use Rattle.run_picture.specs.Rows.{givers_within, sent_count, released_count};

use seats::Answer;
use std::alloc::{AllocError, Global};
use watched_runs::Watched;

/// Where the first row is.
pub(crate) const FIRST_ROW: u32 = 146;

/// The upper edge: events that are before those that are drawn are there.
const UPPER_EDGE: u32 = 132;

/// How high an event's row is.
pub(crate) fn row_height(answer: Answer) -> u32
    ensures value { result ≡ row_height answer }
    ensures small { result ≤ 24 }
{
    match answer {
        Answer::Ticked(None) => 14,
        _ => 24,
    }
}

/// Where event `i` is, where events are drawn from a number on, and the next row is at `y`.
fn row_at(from: usize, i: usize, y: u32) -> u32
    ensures { result ≡ row_at from i y }
{
    if i < from { UPPER_EDGE } else { y }
}

/// The row behind event `i`.
fn row_behind(from: usize, i: usize, y: u32, answer: Answer) -> u32
    requires { y + 24 < 2 ^ 32 }
    ensures value { result ≡ row_behind from i y answer }
    ensures small { result ≤ y + 24 }
{
    if i < from {
        return y;
    }
    y + row_height(answer)
}

/// How many events have a row: those that are drawn, and those before.
fn placed_count(run: &Watched<'_>, span: (usize, usize)) -> usize
    ensures value { result ≡ length (take span.1 run.now.rows) }
    ensures there { result ≤ length run.now.rows }
    ensures asked { result ≤ span.1 }
{
    span.1.min(run.len())
}

/// The row of each event that is drawn, and of those before.
pub(crate) fn rows_of(
    alloc: Global,
    run: &Watched<'_>,
    span: (usize, usize),
) -> Result<Vec<u32>, AllocError>
    requires { length run.now.rows < 2 ^ 27 }
    ensures { IfOk result (λ rows. rows.items ≡ rows_within span run.now.rows) }
{
    let end = placed_count(run, span);
    let mut rows = Vec::with_capacity(alloc, end)?;
    let mut y = FIRST_ROW;
    for i in 0..end {
        let row = run.row(i);
        rows.push(row_at(span.0, i, y))?;
        y = row_behind(span.0, i, y, row.answer);
    }
    Ok(rows)
}

/// Adds a row so many times.
fn add_times(rows: &mut Vec<u32>, y: u32, count: usize) -> Result<(), AllocError>
    ensures { OnOk result (rows.new.items ≡ rows.old.items ++ replicate count y) }
{
    for i in 0..count {
        rows.push(y)?;
    }
    Ok(())
}

/// For each letter the row of the event that sent it.
pub(crate) fn senders_of(
    alloc: Global,
    run: &Watched<'_>,
    span: (usize, usize),
) -> Result<Vec<u32>, AllocError>
    requires { length run.now.rows < 2 ^ 27 }
    ensures { IfOk result (λ rows. rows.items ≡ givers_within sent_count span run.now.rows) }
{
    let mut rows = Vec::new(alloc);
    let mut y = FIRST_ROW;
    let end = placed_count(run, span);
    for i in 0..end {
        let row = run.row(i);
        add_times(&mut rows, row_at(span.0, i, y), row.sent.letters.len())?;
        y = row_behind(span.0, i, y, row.answer);
    }
    Ok(rows)
}

/// For each output the row of the event that released it.
pub(crate) fn releasers_of(
    alloc: Global,
    run: &Watched<'_>,
    span: (usize, usize),
) -> Result<Vec<u32>, AllocError>
    requires { length run.now.rows < 2 ^ 27 }
    ensures { IfOk result (λ rows. rows.items ≡ givers_within released_count span run.now.rows) }
{
    let mut rows = Vec::new(alloc);
    let mut y = FIRST_ROW;
    let end = placed_count(run, span);
    for i in 0..end {
        let row = run.row(i);
        add_times(&mut rows, row_at(span.0, i, y), row.released.len())?;
        y = row_behind(span.0, i, y, row.answer);
    }
    Ok(rows)
}
