//! Which rows a channel has.

ghost use Rattle.std.specs.Prelude.{◌≡◌, ◌<◌, ◌≤◌, ◌^◌, length, IfOk};
ghost use Rattle.map_picture.specs.Picked.{has_row, is_granted, is_map, is_on, leases_on, maps_on, requests_on};

use flow_state::FlowKind;
use map_body::Interval;
use plan_account::{Deed, LeaseRow, RequestRow};
use std::alloc::{AllocError, Global};

/// Whether a key is of a SID of the channel.
fn is_on(ch: u8, key: u32) -> bool
    ensures { result ≡ is_on ch key }
{
    key / (1 << 16) == u32::from(ch)
}

/// Whether a flow has a row: what is opened to everybody is no SID's.
fn has_row(kind: FlowKind) -> bool
    ensures { result ≡ has_row kind }
{
    match kind {
        FlowKind::Initial { .. } => false,
        FlowKind::BestEffort(_) => true,
        FlowKind::Ugs { .. } => true,
        FlowKind::Poll { .. } => true,
        FlowKind::Station { .. } => true,
    }
}

/// The leases of a channel's SIDs that have a row.
pub(crate) fn leases_on(
    alloc: Global,
    ch: u8,
    leases: &[LeaseRow],
) -> Result<Vec<LeaseRow>, AllocError>
    ensures rows { IfOk result (λ rows. rows.items ≡ leases_on ch leases.now) }
    ensures few { IfOk result (λ rows. length rows.items ≤ length leases.now) }
{
    let mut rows = Vec::new(alloc);
    for row in leases {
        if is_on(ch, row.key) && has_row(row.lease.kind) {
            rows.push(*row)?;
        }
    }
    Ok(rows)
}

/// The requests of a channel.
pub(crate) fn requests_on(
    alloc: Global,
    ch: u8,
    requests: &[RequestRow],
) -> Result<Vec<RequestRow>, AllocError>
    ensures rows { IfOk result (λ rows. rows.items ≡ requests_on ch requests.now) }
    ensures few { IfOk result (λ rows. length rows.items ≤ length requests.now) }
{
    let mut rows = Vec::new(alloc);
    for row in requests {
        if is_on(ch, row.key) {
            rows.push(*row)?;
        }
    }
    Ok(rows)
}

/// Whether an interval is the SID's of a lease, and begins in it, in a MAP that begins then.
pub(crate) fn is_granted(row: &LeaseRow, start: u64, interval: &Interval) -> bool
    requires { start < 2 ^ 63 }
    ensures { result ≡ is_granted row.now start interval.now }
{
    let from = start + u64::from(interval.from.get());
    let term = row.lease.term;
    u32::from(interval.sid.get()) == row.key % (1 << 16) && term.first <= from && from <= term.last
}

/// Whether a deed is a MAP of the channel.
fn is_map(ch: u8, deed: &Deed) -> bool
    ensures { result ≡ is_map ch deed.now }
{
    match deed {
        Deed::Map { ch: c, .. } => *c == ch,
        Deed::Channel(_) => false,
        Deed::Flow { .. } => false,
        Deed::Drop { .. } => false,
        Deed::Request { .. } => false,
        Deed::Other => false,
    }
}

/// The numbers of deeds that are MAPs of a channel.
pub(crate) fn maps_on(alloc: Global, ch: u8, deeds: &[Deed]) -> Result<Vec<usize>, AllocError>
    ensures rows { IfOk result (λ rows. rows.items ≡ maps_on ch deeds.now) }
    ensures few { IfOk result (λ rows. length rows.items ≤ length deeds.now) }
{
    let mut rows = Vec::new(alloc);
    for (i, deed) in deeds.iter().enumerate() {
        if is_map(ch, deed) {
            rows.push(i)?;
        }
    }
    Ok(rows)
}
