//! What is told of a lease: its requests, how long they waited, and its windows.

ghost use Rattle.std.specs.Prelude.{◌≡◌, ◌≤◌, IfOk, IfSome, sum, length};
ghost use Rattle.map_stats.specs.Summaries.{at_rank, rank_99, AreDelays};

use plan_account::Why;
use std::alloc::{AllocError, Global};

/// A request that waits.
#[derive(Clone, Copy)]
pub struct Waits {
    pub n: u16,
    pub sent: u64,
    pub why: Why,
}

/// How long requests waited: how many, the sum of their delays, the 99th percentile by nearest rank, and the longest.
#[derive(Clone, Copy)]
pub struct Delays {
    pub count: u64,
    pub sum: u64,
    pub most: u64,
    pub longest: u64,
}

/// What is told of a lease.
#[derive(Clone, Copy)]
pub struct Summary {
    pub asked: u64,
    pub delays: Delays,
    pub waits: Option<Waits>,
    pub windows: u64,
    pub missed: u64,
}

impl Summary {
    ghost use Rattle.std.specs.Prelude.{◌≡◌, ◌-◌};
    ghost use Rattle.map_stats.specs.FlowTexts.{how_many, gone};

    /// How many requests wait: 0 or 1.
    pub fn waiting(&self) -> u64
        ensures { result ≡ how_many self.now.waits }
    {
        match self.waits {
            Some(_) => 1,
            None => 0,
        }
    }

    /// How many of the accepted requests went with their flow: they were neither granted, nor do they wait.
    pub fn gone(&self) -> u64
        ensures { result ≡ gone self.now }
    {
        self.asked
            .saturating_sub(self.delays.count)
            .saturating_sub(self.waiting())
    }
}

/// The value at a rank, counted from 1; 0 where there is none.
fn at_rank(sorted: &[u64], rank: usize) -> u64
    ensures { result ≡ at_rank sorted.now rank }
{
    match sorted.get(rank.saturating_sub(1)) {
        Some(value) => *value,
        None => 0,
    }
}

/// The sum of delays, unless it is 2^64 or more.
fn sum_of(delays: &[u64]) -> Option<u64>
    ensures { IfSome result (λ whole. whole ≡ sum delays.now) }
{
    let mut whole: u64 = 0;
    for delay in delays {
        whole = whole.checked_add(*delay)?;
    }
    Some(whole)
}

/// What is told of delays.
pub(crate) fn delays_of(alloc: Global, delays: &Vec<u64>) -> Result<Delays, AllocError>
    ensures { IfOk result (λ told. AreDelays delays.now.items told) }
{
    let mut sorted = Vec::with_capacity(alloc, delays.len())?;
    sorted.extend_from_slice(delays)?;
    sorted.sort_unstable();
    let count = sorted.len();
    Ok(Delays {
        count: count as u64,
        sum: sum_of(delays).ok_or(AllocError)?,
        most: at_rank(&sorted, count - count / 100),
        longest: at_rank(&sorted, count),
    })
}
