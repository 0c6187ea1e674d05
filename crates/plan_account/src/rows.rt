//! The rows of requests and of leases, in the order of their commands.

ghost use Rattle.std.specs.Prelude.{◌≡◌, List, IfOk, flat_map};
ghost use Rattle.plan_account.specs.declared.deed.Deed.{Deed};
ghost use Rattle.plan_account.specs.Accounts.{AreLeases, AreRequests, leases_in, requests_in};
ghost use Rattle.plan_account.specs.FlowsHeld.{HoldsFlows};

use crate::flows::{Flows, reach_in};
use crate::past::{LeaseRow, RequestRow};
use std::alloc::{AllocError, Global};

/// The rows of requests, by key.
fn requests_of(alloc: Global, flows: &Flows) -> Result<Vec<RequestRow>, AllocError>
    ensures { IfOk result (λ rows. rows.items ≡ flat_map (requests_in flows.now) flows.now.pasts.entries) }
{
    let mut rows = Vec::new(alloc);
    for (key, past) in &flows.pasts {
        let reach = reach_in(&flows.reaches, *key / (1 << 16));
        past.put_requests(&mut rows, reach)?;
    }
    Ok(rows)
}

/// The rows of leases, by key.
fn leases_of(alloc: Global, flows: &Flows) -> Result<Vec<LeaseRow>, AllocError>
    ensures { IfOk result (λ rows. rows.items ≡ flat_map (leases_in flows.now) flows.now.pasts.entries) }
{
    let mut rows = Vec::new(alloc);
    for (key, past) in &flows.pasts {
        let reach = reach_in(&flows.reaches, *key / (1 << 16));
        past.put_leases(&mut rows, reach)?;
    }
    Ok(rows)
}

/// The requests that were accepted, with what became of each, in the order of their commands.
pub fn request_rows(alloc: Global, flows: &Flows) -> Result<Vec<RequestRow>, AllocError>
    ensures { IfOk result (λ rows. (ds : List Deed) → HoldsFlows ds flows.now → AreRequests ds rows.items) }
{
    let _count = flows.pasts.len();
    let mut rows = requests_of(alloc, flows)?;
    rows.sort_by_key(|row| row.command)?;
    Ok(rows)
}

/// The leases of SIDs, with the windows of each, in the order of their commands.
pub fn lease_rows(alloc: Global, flows: &Flows) -> Result<Vec<LeaseRow>, AllocError>
    ensures { IfOk result (λ rows. (ds : List Deed) → HoldsFlows ds flows.now → AreLeases ds rows.items) }
{
    let _count = flows.pasts.len();
    let mut rows = leases_of(alloc, flows)?;
    rows.sort_by_key(|row| row.lease.command)?;
    Ok(rows)
}
