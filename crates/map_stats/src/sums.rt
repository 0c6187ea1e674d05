//! The sums over the rows of requests and of leases, by lease.

ghost use Rattle.std.specs.Prelude.{◌≡◌, ◌+◌, ℕ, None, fold, unwrap_or, IfOk, OnOk};
ghost use Rattle.std.specs.Ordering.{nat_cmp};
ghost use Rattle.std.specs.BTreeMap.{get};
ghost use Rattle.map_stats.specs.Sums.{lease_key, lease_step, request_step, sums_at};

use crate::summary::{Summary, Waits, delays_of};
use plan_account::{Fate, LeaseRow, RequestRow};
use std::alloc::{AllocError, Global};
use std::collections::BTreeMap;
use std::marker::Model;

/// The sums over the rows of a lease.
#[derive(Drop)]
pub struct FlowSums {
    asked: u64,
    delays: Vec<u64>,
    waits: Option<Waits>,
    windows: u64,
    missed: u64,
}

impl Model for FlowSums {
    ghost use Rattle.map_stats.specs.Sums.{Sums};

    ghost Value = { Sums };

    ghost view = { λ s. record {
      asked = s.asked;
      delays = s.delays.items;
      waits = s.waits;
      windows = s.windows;
      missed = s.missed;
    } };
}

/// Those of leases.
pub(crate) type SumsByKey = BTreeMap<u128, FlowSums>;

/// A lease of the SID of a key as one number.
fn lease_key(key: u32, since: u64) -> u128
    ensures { result ≡ lease_key key since }
{
    u128::from(key) * (1 << 64) + u128::from(since)
}

/// The sum of two counts, unless it is 2^64 or more.
fn both(a: u64, b: u64) -> Result<u64, AllocError>
    ensures { IfOk result (λ sum. sum ≡ a + b) }
{
    a.checked_add(b).ok_or(AllocError)
}

impl FlowSums {
    ghost use Rattle.std.specs.Prelude.{◌≡◌, IfOk, OnOk};
    ghost use Rattle.map_stats.specs.Summaries.{IsSummary};
    ghost use Rattle.map_stats.specs.Sums.{no_sums, with_lease, with_request};

    /// Over no rows.
    fn new(alloc: Global) -> FlowSums
        ensures { result ≡ no_sums }
    {
        FlowSums {
            asked: 0,
            delays: Vec::new(alloc),
            waits: None,
            windows: 0,
            missed: 0,
        }
    }

    fn add_request(&mut self, row: &RequestRow) -> Result<(), AllocError>
        ensures { OnOk result (self.new ≡ with_request self.old row.now) }
    {
        self.asked = both(self.asked, 1)?;
        match row.fate {
            Fate::Waits(why) => {
                let RequestRow { n, sent, .. } = *row;
                self.waits = Some(Waits { n, sent, why });
            }
            Fate::Gone => (),
            Fate::Granted { start, .. } => {
                self.delays.push(start.saturating_sub(row.sent))?;
            }
        }
        Ok(())
    }

    fn add_lease(&mut self, row: &LeaseRow) -> Result<(), AllocError>
        ensures { OnOk result (self.new ≡ with_lease self.old row.now) }
    {
        self.windows = both(self.windows, row.windows)?;
        self.missed = both(self.missed, row.missed)?;
        Ok(())
    }

    /// What is told of the lease.
    pub(crate) fn summary(&self, alloc: Global) -> Result<Summary, AllocError>
        ensures { IfOk result (IsSummary self.now) }
    {
        Ok(Summary {
            asked: self.asked,
            delays: delays_of(alloc, &self.delays)?,
            waits: self.waits,
            windows: self.windows,
            missed: self.missed,
        })
    }
}

fn put_request(alloc: Global, sums: &mut SumsByKey, row: &RequestRow) -> Result<(), AllocError>
    ensures { OnOk result ((q : ℕ) → get nat_cmp sums.new q ≡ request_step q (get nat_cmp sums.old q) row.now) }
{
    let lease = lease_key(row.key, row.since);
    if let Some(had) = sums.get_mut(&lease) {
        return had.add_request(row);
    }
    let mut first = FlowSums::new(alloc);
    first.add_request(row)?;
    sums.insert(lease, first)?;
    Ok(())
}

fn put_lease(alloc: Global, sums: &mut SumsByKey, row: &LeaseRow) -> Result<(), AllocError>
    ensures { OnOk result ((q : ℕ) → get nat_cmp sums.new q ≡ lease_step q (get nat_cmp sums.old q) row.now) }
{
    let lease = lease_key(row.key, row.since);
    if let Some(had) = sums.get_mut(&lease) {
        return had.add_lease(row);
    }
    let mut first = FlowSums::new(alloc);
    first.add_lease(row)?;
    sums.insert(lease, first)?;
    Ok(())
}

fn put_requests(alloc: Global, sums: &mut SumsByKey, rows: &[RequestRow]) -> Result<(), AllocError>
    ensures { OnOk result ((q : ℕ) → get nat_cmp sums.new q ≡ fold (request_step q) (get nat_cmp sums.old q) rows.now) }
{
    for row in rows {
        put_request(alloc, sums, row)?;
    }
    Ok(())
}

fn put_leases(alloc: Global, sums: &mut SumsByKey, rows: &[LeaseRow]) -> Result<(), AllocError>
    ensures { OnOk result ((q : ℕ) → get nat_cmp sums.new q ≡ fold (lease_step q) (get nat_cmp sums.old q) rows.now) }
{
    for row in rows {
        put_lease(alloc, sums, row)?;
    }
    Ok(())
}

/// The sums over rows, by lease.
pub(crate) fn sums_of(
    alloc: Global,
    requests: &[RequestRow],
    leases: &[LeaseRow],
) -> Result<SumsByKey, AllocError>
    ensures { IfOk result (λ sums. (q : ℕ) → get nat_cmp sums q ≡ sums_at requests.now leases.now q) }
{
    let mut sums = BTreeMap::new(alloc);
    put_requests(alloc, &mut sums, requests)?;
    put_leases(alloc, &mut sums, leases)?;
    Ok(sums)
}
