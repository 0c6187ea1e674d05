//! The row of a lease.

ghost use Rattle.std.specs.Prelude.{◌≡◌, ◌++◌, ◌<◌, ◌^◌, IfOk, OnOk, string_bytes};
ghost use Rattle.xml_text.specs.Xml.{render};
ghost use Rattle.map_picture.specs.Owners.{flow_at, flow_words, grant, grant_mark, grant_title, grants, grants_at};
ghost use Rattle.map_picture.specs.Owners.{grants_in, grants_of, kind_words, missed_words, owner_name_at, owner_row};
ghost use Rattle.map_picture.specs.Owners.{owner_words};

use crate::axis::{Page, at, right, wide};
use crate::picked::is_granted;
use crate::shapes::{add_block, class_of, high};
use crate::windows::add_windows;
use flow_state::FlowKind;
use map_body::Interval;
use plan_account::{Deed, LeaseRow};
use std::alloc::{AllocError, Global};
use xml_text::{Area, add_words};

/// The row of a lease: the page that it is on, where it begins, and the lease.
#[derive(Clone, Copy)]
pub(crate) struct Owner {
    pub page: Page,
    pub y: u64,
    pub row: LeaseRow,
}

/// What a flow is.
fn kind_words(alloc: Global, kind: FlowKind) -> Result<String, AllocError>
    ensures { IfOk result (λ text. string_bytes text ≡ kind_words kind) }
{
    match kind {
        FlowKind::BestEffort(priority) => format!(in alloc; "best effort {priority}"),
        FlowKind::Ugs {
            size,
            interval,
            jitter,
            ..
        } => format!(in alloc; "UGS {size} every {interval} within {jitter}"),
        FlowKind::Poll {
            interval,
            jitter,
            ..
        } => format!(in alloc; "poll every {interval} within {jitter}"),
        FlowKind::Station {
            size,
            interval,
            jitter,
            ..
        } => format!(in alloc; "station {size} every {interval} within {jitter}"),
        FlowKind::Initial {
            size,
            interval,
            jitter,
            ..
        } => format!(in alloc; "initial {size} every {interval} within {jitter}"),
    }
}

fn grant_title(alloc: Global, start: u64, interval: &Interval) -> Result<String, AllocError>
    requires { start < 2 ^ 63 }
    ensures { IfOk result (λ text. string_bytes text ≡ grant_title start interval.now) }
{
    let (sid, from, to) = (interval.sid.get(), interval.from.get(), interval.to.get());
    let begin = start + u64::from(from);
    let long = to.saturating_sub(from);
    format!(in alloc; "sid {sid}: from {begin}, {long} long")
}

/// The mark of a grant.
fn add_grant_mark(
    alloc: Global,
    out: &mut String,
    owner: &Owner,
    start: u64,
    interval: &Interval,
) -> Result<(), AllocError>
    requires { start < 2 ^ 63 }
    ensures { OnOk result (string_bytes out.new ≡ string_bytes out.old ++ render (grant_mark owner.now start interval.now)) }
{
    let title = grant_title(alloc, start, interval)?;
    let axis = owner.page.axis;
    let from = start + u64::from(interval.from.get());
    let to = start + u64::from(interval.to.get());
    let area = Area {
        corner: (at(axis, from), owner.y),
        size: (wide(axis, from, to), high(interval)),
    };
    let class = class_of(interval.sid.get());
    add_block(alloc, out, title.as_str(), area, class)
}

/// The mark of an interval, if it is granted to the lease.
fn add_grant(
    alloc: Global,
    out: &mut String,
    owner: &Owner,
    start: u64,
    interval: &Interval,
) -> Result<(), AllocError>
    requires { start < 2 ^ 63 }
    ensures { OnOk result (string_bytes out.new ≡ string_bytes out.old ++ render (grant owner.now start interval.now)) }
{
    if !is_granted(&owner.row, start, interval) {
        return Ok(());
    }
    add_grant_mark(alloc, out, owner, start, interval)
}

/// The marks of the intervals of a lease.
fn add_grants_in(
    alloc: Global,
    out: &mut String,
    owner: &Owner,
    start: u64,
    intervals: &[Interval],
) -> Result<(), AllocError>
    requires { start < 2 ^ 63 }
    ensures { OnOk result (string_bytes out.new ≡ string_bytes out.old ++ render (grants_in owner.now start intervals.now)) }
{
    for k in 0..intervals.len() {
        add_grant(alloc, out, owner, start, &intervals[k])?;
    }
    Ok(())
}

/// Those in a deed that is a MAP of the channel.
fn add_grants_of(
    alloc: Global,
    out: &mut String,
    owner: &Owner,
    deed: &Deed,
) -> Result<(), AllocError>
    ensures { OnOk result (string_bytes out.new ≡ string_bytes out.old ++ render (grants_of owner.now deed.now)) }
{
    match deed {
        Deed::Map { ch, start, map, .. } => {
            if *ch != owner.page.ch {
                return Ok(());
            }
            add_grants_in(alloc, out, owner, start.get(), map.intervals())
        }
        Deed::Channel(_) => Ok(()),
        Deed::Flow { .. } => Ok(()),
        Deed::Drop { .. } => Ok(()),
        Deed::Request { .. } => Ok(()),
        Deed::Other => Ok(()),
    }
}

fn add_grants_at(
    alloc: Global,
    out: &mut String,
    owner: &Owner,
    deeds: &[Deed],
    i: usize,
) -> Result<(), AllocError>
    ensures { OnOk result (string_bytes out.new ≡ string_bytes out.old ++ render (grants_at deeds.now owner.now i)) }
{
    if i >= deeds.len() {
        return Ok(());
    }
    add_grants_of(alloc, out, owner, &deeds[i])
}

/// A mark for each grant in a lease.
fn add_grants(
    alloc: Global,
    out: &mut String,
    owner: &Owner,
    deeds: &[Deed],
) -> Result<(), AllocError>
    ensures { OnOk result (string_bytes out.new ≡ string_bytes out.old ++ render (grants deeds.now owner.now)) }
{
    for i in 0..deeds.len() {
        add_grants_at(alloc, out, owner, deeds, i)?;
    }
    Ok(())
}

/// Whose row it is.
pub(crate) fn owner_words(alloc: Global, row: &LeaseRow) -> Result<String, AllocError>
    ensures { IfOk result (λ text. string_bytes text ≡ owner_words row.now) }
{
    let (sid, modem) = (row.key % (1 << 16), row.lease.modem);
    format!(in alloc; "sid {sid}, modem {modem}")
}

fn add_owner_name(alloc: Global, out: &mut String, owner: &Owner) -> Result<(), AllocError>
    requires { owner.now.y < 2 ^ 62 }
    ensures { OnOk result (string_bytes out.new ≡ string_bytes out.old ++ render (owner_name_at owner.now)) }
{
    let words = owner_words(alloc, &owner.row)?;
    let point = (u64::from(owner.page.axis.columns.names), owner.y + 11);
    add_words(alloc, out, point, "s e", words.as_str())
}

/// How many windows were missed.
fn missed_words(alloc: Global, missed: u64) -> Result<String, AllocError>
    ensures { IfOk result (λ text. string_bytes text ≡ missed_words missed) }
{
    if missed == 0 {
        return String::from_str(alloc, "");
    }
    format!(in alloc; ", {missed} missed")
}

/// What a flow is, and how many of its windows were missed.
pub(crate) fn flow_words(alloc: Global, row: &LeaseRow) -> Result<String, AllocError>
    ensures { IfOk result (λ text. string_bytes text ≡ flow_words row.now) }
{
    let kind = kind_words(alloc, row.lease.kind)?;
    let missed = missed_words(alloc, row.missed)?;
    format!(in alloc; "{kind}{missed}")
}

fn add_flow(alloc: Global, out: &mut String, owner: &Owner) -> Result<(), AllocError>
    requires { owner.now.y < 2 ^ 62 }
    ensures { OnOk result (string_bytes out.new ≡ string_bytes out.old ++ render (flow_at owner.now)) }
{
    let words = flow_words(alloc, &owner.row)?;
    let point = (right(owner.page.axis.columns), owner.y + 11);
    add_words(alloc, out, point, "s mute", words.as_str())
}

/// The row of a lease.
pub(crate) fn add_owner(
    alloc: Global,
    out: &mut String,
    owner: &Owner,
    deeds: &[Deed],
) -> Result<(), AllocError>
    requires { owner.now.y < 2 ^ 62 }
    ensures { OnOk result (string_bytes out.new ≡ string_bytes out.old ++ render (owner_row deeds.now owner.now)) }
{
    add_owner_name(alloc, out, owner)?;
    add_windows(alloc, out, owner, deeds)?;
    add_grants(alloc, out, owner, deeds)?;
    add_flow(alloc, out, owner)?;
    Ok(())
}
