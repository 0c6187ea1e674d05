//! Bars of 60 columns.

ghost use Rattle.std.specs.Prelude.{◌≡◌, ◌++◌, ◌<◌, ◌≤◌, OnOk, replicate};
ghost use Rattle.plan_account.specs.Cover.{holds};
ghost use Rattle.map_text.specs.Bars.{bar_columns, shares, bar_mark, bar, open_mark, owner_mark, owner_at};
ghost use Rattle.map_text.specs.Bars.{column_owner, owners};

use map_body::{Interval, Iuc, Sid};
use std::alloc::AllocError;

/// How many columns a bar has.
const COLUMNS: u32 = 60;

/// Whether a column of a MAP of so many minislots shares one with an interval.
fn shares(from: u16, to: u16, len: u16, column: u32) -> bool
    requires { column < bar_columns }
    ensures { result ≡ shares from to len column }
{
    let (from, to, len) = (u32::from(from), u32::from(to), u32::from(len));
    from < to && from * COLUMNS < (column + 1) * len && column * len < to * COLUMNS
}

fn bar_mark(from: u16, to: u16, len: u16, mark: u8, column: u32) -> u8
    requires { column < bar_columns }
    ensures { result ≡ bar_mark from to len mark column }
{
    if shares(from, to, len, column) {
        mark
    } else {
        b'.'
    }
}

/// Appends the bar of an interval of a MAP of so many minislots.
#[tactic(auto, unfolding(crate::specs::Bars::bar))]
pub(crate) fn put_bar(
    out: &mut Vec<u8>,
    from: u16,
    to: u16,
    len: u16,
    mark: u8,
) -> Result<(), AllocError>
    ensures { OnOk result (out.new.items ≡ out.old.items ++ bar from to len mark) }
{
    for column in 0..COLUMNS {
        out.push(bar_mark(from, to, len, mark, column))?;
    }
    Ok(())
}

/// What is everybody's, as a mark: an opening for first ranging, or else free.
pub(crate) fn open_mark(iuc: Iuc) -> u8
    ensures { result ≡ open_mark iuc }
{
    if iuc == Iuc::INITIAL_MAINTENANCE {
        b'='
    } else {
        b'-'
    }
}

/// Whose an interval is, as a mark.
fn owner_mark(interval: &Interval) -> u8
    ensures { result ≡ owner_mark interval.now }
{
    let Interval { sid, iuc, .. } = *interval;
    if sid == Sid::EVERYBODY {
        open_mark(iuc)
    } else if iuc == Iuc::REQUEST {
        b'?'
    } else if iuc == Iuc::STATION_MAINTENANCE {
        b'!'
    } else {
        b'0' + (sid.get() % 10) as u8
    }
}

/// Whether a minislot lies in an interval.
fn holds(interval: &Interval, x: u32) -> bool
    ensures { result ≡ holds interval.now x }
{
    u32::from(interval.from.get()) <= x && x < u32::from(interval.to.get())
}

/// Whose a minislot is.
fn owner_at(intervals: &[Interval], x: u32) -> u8
    ensures { result ≡ owner_at intervals.now x }
{
    for interval in intervals {
        if holds(interval, x) {
            return owner_mark(interval);
        }
    }
    b'.'
}

/// Appends whose the first minislot of each column is.
#[tactic(auto, unfolding(crate::specs::Bars::owners))]
pub(crate) fn put_owners(
    out: &mut Vec<u8>,
    intervals: &[Interval],
    len: u16,
) -> Result<(), AllocError>
    ensures { OnOk result (out.new.items ≡ out.old.items ++ owners intervals.now len) }
{
    for column in 0..COLUMNS {
        let first = column * u32::from(len) / COLUMNS;
        out.push(owner_at(intervals, first))?;
    }
    Ok(())
}
