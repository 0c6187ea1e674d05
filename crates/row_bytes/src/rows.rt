//! Reading the rows of a channel, each behind how many there are.

ghost use Rattle.std.specs.Prelude.{⊤};
ghost use Rattle.row_bytes.specs.Reading.{HasItem, HasRow, Takes, TakesItems, byte_at, flow_at, flows_at, items_in};
ghost use Rattle.row_bytes.specs.Reading.{lease_at, leases_at, number_2_at, request_at, requests_at, whole_at};

use crate::fault::RowsFault;
use crate::fields::{take_byte, take_flow, take_lease, take_request, take_row, take_u16};
use flow_state::{Flow, Lease, Waiting};
use std::alloc::Global;

/// So many leases, of the SIDs from 1 on.
fn take_leases_of(alloc: Global, count: u16, rest: &mut &[u8]) -> Result<Vec<Lease>, RowsFault>
    ensures { TakesItems (HasItem lease_at 0 count rest.old.now) result rest.new.now (items_in lease_at 0 count rest.old.now) }
{
    let mut leases = Vec::new(alloc);
    for place in 0..count {
        leases.push(take_lease(place, rest)?)?;
    }
    Ok(leases)
}

/// So many flows of the channel.
fn take_flows_of(
    alloc: Global,
    ch: u8,
    leases: &[Lease],
    count: u16,
    rest: &mut &[u8],
) -> Result<Vec<Flow>, RowsFault>
    ensures { TakesItems (HasItem (λ place. flow_at ch leases.now) 0 count rest.old.now) result rest.new.now
        (items_in (λ place. flow_at ch leases.now) 0 count rest.old.now) }
{
    let mut flows = Vec::new(alloc);
    for _ in 0..count {
        flows.push(take_flow(ch, leases, rest)?)?;
    }
    Ok(flows)
}

/// So many waiting requests.
fn take_requests_of(alloc: Global, count: u16, rest: &mut &[u8]) -> Result<Vec<Waiting>, RowsFault>
    ensures { TakesItems (HasItem (λ place. request_at) 0 count rest.old.now) result rest.new.now (items_in (λ place. request_at) 0 count rest.old.now) }
{
    let mut waiting = Vec::new(alloc);
    for _ in 0..count {
        waiting.push(take_request(rest)?)?;
    }
    Ok(waiting)
}

/// The leases of a channel, behind how many there are.
#[tactic(auto, unfolding(crate::specs::Reading::leases_at))]
pub(crate) fn take_leases(alloc: Global, rest: &mut &[u8]) -> Result<Vec<Lease>, RowsFault>
    ensures { TakesItems ⊤ result rest.new.now (leases_at rest.old.now) }
{
    let count = take_u16(rest)?;
    take_leases_of(alloc, count, rest)
}

/// The flows of the channel, behind how many there are.
#[tactic(auto, unfolding(crate::specs::Reading::flows_at))]
pub(crate) fn take_flows(
    alloc: Global,
    ch: u8,
    leases: &[Lease],
    rest: &mut &[u8],
) -> Result<Vec<Flow>, RowsFault>
    ensures { TakesItems ⊤ result rest.new.now (flows_at ch leases.now rest.old.now) }
{
    let count = take_u16(rest)?;
    take_flows_of(alloc, ch, leases, count, rest)
}

/// The waiting requests of a channel, behind how many there are.
#[tactic(auto, unfolding(crate::specs::Reading::requests_at))]
pub(crate) fn take_requests(alloc: Global, rest: &mut &[u8]) -> Result<Vec<Waiting>, RowsFault>
    ensures { TakesItems ⊤ result rest.new.now (requests_at rest.old.now) }
{
    let count = take_byte(rest)?;
    take_requests_of(alloc, u16::from(count), rest)
}
