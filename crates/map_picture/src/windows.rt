//! The windows of a lease, by their numbers.

ghost use Rattle.std.specs.Prelude.{◌≡◌, ◌+◌, ◌++◌, ◌<◌, ◌^◌, OnOk, IfOk, Some, flat_map, min, string_bytes};
ghost use Rattle.std.specs.List.{list_any};
ghost use Rattle.xml_text.specs.Xml.{render};
ghost use Rattle.map_picture.specs.Windows.{begins_in, begun, counted, due, first_window, is_missed, is_unasked};
ghost use Rattle.map_picture.specs.Windows.{start_of, starts, starts_in, stroke, window_class, windows, windows_from};
ghost use Rattle.map_picture.specs.Windows.{windows_with};

use crate::axis::{at, wide};
use crate::owners::Owner;
use crate::picked::is_granted;
use flow_state::FlowKind;
use map_body::{Interval, Iuc};
use plan_account::{Deed, LeaseRow};
use std::alloc::{AllocError, Global};
use xml_text::{Area, add_rectangle};

/// Due times, an interval apart, the first at the base. The window of each reaches from it to jitter later.
#[derive(Clone, Copy)]
pub(crate) struct Dues {
    interval: u32,
    jitter: u32,
    base: u64,
}

impl Dues {
    ghost use Rattle.std.specs.Prelude.{◌≡◌, ◌+◌, ◌<◌, ◌^◌, ℕ};
    ghost use Rattle.plan_account.specs.Windows.{windows_past};
    ghost use Rattle.map_picture.specs.Windows.{begun, counted, due, first_window, window_count};

    /// How many windows end before a time.
    fn past(self, end: u64) -> u64
        ensures { result ≡ windows_past (counted self) end }
    {
        let left = end
            .saturating_sub(self.base)
            .saturating_sub(u64::from(self.jitter));
        if left == 0 || self.interval == 0 {
            return 0;
        }
        (left - 1) / u64::from(self.interval) + 1
    }

    /// How many windows begin before a time.
    fn begun(self, end: u64) -> u64
        ensures { result ≡ begun (counted self) end }
    {
        let Dues { interval, base, .. } = self;
        let begins = Dues {
            interval,
            jitter: 0,
            base,
        };
        begins.past(end)
    }

    /// The number of the first window at a time or behind it.
    fn first(self, from: u64) -> u64
        ensures { result ≡ first_window from (counted self) }
    {
        from.saturating_sub(self.base) / u64::from(self.interval.max(1))
    }

    /// How many windows are drawn from one on.
    fn count(self, until: u64, first: u64) -> u64
        ensures value { result ≡ window_count (counted self) until first }
        ensures begun { (i : ℕ) → i < result → first + i < begun (counted self) until }
        ensures room { first + result < 2 ^ 64 }
    {
        self.begun(until).saturating_sub(first).min(512)
    }

    /// When a window begins.
    #[tactic(auto, using(crate::proofs::Sizes::due_fits))]
    fn due(self, until: u64, k: u64) -> u64
        requires { k < begun (counted self) until }
        ensures value { result ≡ due (counted self) k }
        ensures within { result < until }
    {
        self.base + k * u64::from(self.interval)
    }
}

/// Whether a grant comes by itself, which may answer no request of a flow that is polled.
fn is_unasked(kind: FlowKind, iuc: Iuc) -> bool
    ensures { result ≡ is_unasked kind iuc }
{
    match kind {
        FlowKind::Poll { .. } => !iuc.answers_request(),
        FlowKind::Ugs { .. } => true,
        FlowKind::Station { .. } => true,
        FlowKind::Initial { .. } => true,
        FlowKind::BestEffort(_) => true,
    }
}

fn add_start(
    found: &mut Vec<u64>,
    row: &LeaseRow,
    start: u64,
    interval: &Interval,
) -> Result<(), AllocError>
    requires { start < 2 ^ 63 }
    ensures { OnOk result (found.new.items ≡ found.old.items ++ start_of row.now start interval.now) }
{
    if is_granted(row, start, interval) && is_unasked(row.lease.kind, interval.iuc) {
        found.push(start + u64::from(interval.from.get()))?;
    }
    Ok(())
}

/// When those begin in a MAP that come by themselves.
fn add_starts_in(
    found: &mut Vec<u64>,
    row: &LeaseRow,
    start: u64,
    intervals: &[Interval],
) -> Result<(), AllocError>
    requires { start < 2 ^ 63 }
    ensures { OnOk result (found.new.items ≡ found.old.items ++ flat_map (start_of row.now start) intervals.now) }
{
    for interval in intervals {
        add_start(found, row, start, interval)?;
    }
    Ok(())
}

fn add_starts(found: &mut Vec<u64>, ch: u8, row: &LeaseRow, deed: &Deed) -> Result<(), AllocError>
    ensures { OnOk result (found.new.items ≡ found.old.items ++ starts_in ch row.now deed.now) }
{
    match deed {
        Deed::Map {
            ch: c,
            start,
            map,
            ..
        } => {
            if *c != ch {
                return Ok(());
            }
            add_starts_in(found, row, start.get(), map.intervals())
        }
        Deed::Channel(_) => Ok(()),
        Deed::Flow { .. } => Ok(()),
        Deed::Drop { .. } => Ok(()),
        Deed::Request { .. } => Ok(()),
        Deed::Other => Ok(()),
    }
}

/// When grants of a lease begin that come by themselves.
fn starts(alloc: Global, ch: u8, row: &LeaseRow, deeds: &[Deed]) -> Result<Vec<u64>, AllocError>
    ensures { IfOk result (λ found. found.items ≡ starts ch row.now deeds.now) }
{
    let mut found = Vec::new(alloc);
    for deed in deeds {
        add_starts(&mut found, ch, row, deed)?;
    }
    Ok(found)
}

/// Whether a grant begins at a due time, or behind it and before the next one.
fn begins_in(due: u64, interval: u32, at: u64) -> bool
    ensures { result ≡ begins_in due interval at }
{
    due <= at && at - due < u64::from(interval)
}

/// Whether a grant of these does.
fn is_met(due: u64, interval: u32, found: &[u64]) -> bool
    ensures { result ≡ list_any (begins_in due interval) found.now }
{
    found.iter().any(|at| begins_in(due, interval, *at))
}

/// Whether a window has passed without a grant.
fn is_missed(dues: Dues, until: u64, found: &[u64], k: u64) -> bool
    requires { k < begun (counted dues) until }
    ensures { result ≡ is_missed (counted dues) until found.now k }
{
    k < dues.past(until) && !is_met(dues.due(until, k), dues.interval, found)
}

fn window_class(missed: bool) -> &'static str
    ensures { result.now ≡ window_class missed }
{
    if missed { "missed" } else { "due" }
}

/// A line below the row of a lease.
fn add_stroke(
    alloc: Global,
    out: &mut String,
    owner: &Owner,
    stretch: (u64, u64),
    missed: bool,
) -> Result<(), AllocError>
    requires { owner.now.y < 2 ^ 62 }
    ensures { OnOk result (string_bytes out.new ≡ string_bytes out.old ++ render (stroke owner.now stretch.0 stretch.1 missed)) }
{
    let (axis, (from, to)) = (owner.page.axis, stretch);
    let area = Area {
        corner: (at(axis, from), owner.y + 15),
        size: (wide(axis, from, to), 2),
    };
    add_rectangle(alloc, out, area, window_class(missed))
}

/// From when to when window `k` is drawn: as far as it is before the flow ends.
fn stretch(dues: Dues, until: u64, k: u64) -> (u64, u64)
    requires { k < begun (counted dues) until }
    ensures { result ≡ (due (counted dues) k, min (due (counted dues) k + dues.jitter) until) }
{
    let due = dues.due(until, k);
    let end = due.saturating_add(u64::from(dues.jitter)).min(until);
    (due, end)
}

/// The windows that begin before the flow ends, from one on, and no more than 512.
fn add_windows_from(
    alloc: Global,
    out: &mut String,
    owner: &Owner,
    dues: Dues,
    found: &[u64],
) -> Result<(), AllocError>
    requires { owner.now.y < 2 ^ 62 }
    ensures { OnOk result (string_bytes out.new ≡ string_bytes out.old
        ++ render (windows_from owner.now (counted dues) found.now (first_window owner.now.page.axis.span.from (counted dues)))) }
{
    let (until, first) = (owner.row.until, dues.first(owner.page.axis.span.from));
    for i in 0..dues.count(until, first) {
        let missed = is_missed(dues, until, found, first + i);
        let stretch = stretch(dues, until, first + i);
        add_stroke(alloc, out, owner, stretch, missed)?;
    }
    Ok(())
}

/// The windows of a lease with these due times.
fn add_windows_of(
    alloc: Global,
    out: &mut String,
    owner: &Owner,
    deeds: &[Deed],
    dues: Dues,
) -> Result<(), AllocError>
    requires { owner.now.y < 2 ^ 62 }
    ensures { OnOk result (string_bytes out.new ≡ string_bytes out.old ++ render (windows_with deeds.now owner.now (Some (counted dues)))) }
{
    let found = starts(alloc, owner.page.ch, &owner.row, deeds)?;
    add_windows_from(alloc, out, owner, dues, &found)
}

/// The windows of a lease.
pub(crate) fn add_windows(
    alloc: Global,
    out: &mut String,
    owner: &Owner,
    deeds: &[Deed],
) -> Result<(), AllocError>
    requires { owner.now.y < 2 ^ 62 }
    ensures { OnOk result (string_bytes out.new ≡ string_bytes out.old ++ render (windows deeds.now owner.now)) }
{
    match owner.row.lease.kind {
        FlowKind::BestEffort(_) | FlowKind::Initial { .. } => Ok(()),
        FlowKind::Ugs {
            interval,
            jitter,
            base,
            ..
        }
        | FlowKind::Station {
            interval,
            jitter,
            base,
            ..
        }
        | FlowKind::Poll {
            interval,
            jitter,
            base,
        } => {
            let dues = Dues {
                interval,
                jitter,
                base,
            };
            add_windows_of(alloc, out, owner, deeds, dues)
        }
    }
}
