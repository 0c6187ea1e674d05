//! What is told of each lease of a SID.

ghost use Rattle.std.specs.Prelude.{IfOk};
ghost use Rattle.std.specs.List.{AllZip};
ghost use Rattle.map_stats.specs.FlowRows.{AreFlows, IsFlowRow};

use crate::summary::Summary;
use crate::sums::{SumsByKey, sums_of};
use plan_account::{LeaseRow, RequestRow};
use std::alloc::{AllocError, Global};

/// What is told of a lease of a SID, which is (channel * 2^16 + SID) * 2^64 + since. The SID's first lease is 0 since,
/// and a later one its first minislot.
#[derive(Clone, Copy)]
pub struct FlowRow {
    pub lease: u128,
    pub summary: Summary,
}

/// What is told of each lease, by channel and SID.
fn rows_of(alloc: Global, sums: &SumsByKey) -> Result<Vec<FlowRow>, AllocError>
    ensures { IfOk result (λ rows. AllZip IsFlowRow sums.now.entries rows.items) }
{
    let mut rows = Vec::new(alloc);
    for (lease, had) in sums {
        let summary = had.summary(alloc)?;
        rows.push(FlowRow {
            lease: *lease,
            summary,
        })?;
    }
    Ok(rows)
}

/// What is told of each lease, by channel, SID and lease: the sums over its rows. Where there is no memory, or a number
/// would pass 2^64 - 1, it is AllocError.
pub fn flow_rows(
    alloc: Global,
    requests: &[RequestRow],
    leases: &[LeaseRow],
) -> Result<Vec<FlowRow>, AllocError>
    ensures { IfOk result (λ rows. AreFlows requests.now leases.now rows.items) }
{
    let sums = sums_of(alloc, requests, leases)?;
    let _count = sums.len();
    rows_of(alloc, &sums)
}
