//! The due times of flows by SID, in blocks of 64 SIDs, each with a time before which none of them is due.

ghost use Rattle.std.specs.Prelude.{◌≡◌, ◌≢◌, ℕ, ◌+◌, ◌*◌, ◌/◌, ◌<◌, ◌≤◌, length, slice_index, OnOk, IfSome, IfNone};
ghost use Rattle.flow_state.specs.Limits.{last_sid};
ghost use Rattle.flow_state.specs.StoredDues.{IsDueFrom, HasRoom, NoneDue, NoneBefore};

use std::alloc::{AllocError, Global};

/// So many SIDs are a block.
const BLOCK: usize = 64;

/// As many blocks have all SIDs.
const BLOCKS: usize = 128;

/// The time of a SID for which nothing is due.
const NEVER: u64 = u64::MAX;

/// A time for each SID, before which its flow isn't due, and one for each block, before which none of its flows is.
/// Blocks where nothing is due before an end are passed over.
#[derive(Drop)]
pub struct Dues {
    pub(crate) times: Vec<u64>,
    pub(crate) least: Vec<u64>,
}

/// Makes a list as long as this, or leaves it longer.
fn lengthen(times: &mut Vec<u64>, len: usize) -> Result<(), AllocError>
    ensures room { OnOk result (len ≤ length times.new.items) }
    ensures longer { length times.old.items ≤ length times.new.items }
    ensures kept { (place : ℕ) → place < length times.old.items → slice_index times.new.items place ≡ slice_index times.old.items place }
{
    if times.len() < len {
        times.resize(len, NEVER)?;
    }
    Ok(())
}

/// The first place from one on and before another whose time comes before an end.
fn first_in(times: &[u64], from: usize, to: usize, end: u64) -> Option<usize>
    ensures some { IfSome result (λ place. (from ≤ place) × (place < to) × NoneBefore times.now from place end) }
    ensures none { IfNone result (NoneBefore times.now from to end) }
{
    let to = to.min(times.len());
    for place in from..to {
        if times[place] < end {
            return Some(place);
        }
    }
    None
}

/// A time before which none of the block comes.
fn least_in(times: &[u64], block: usize) -> u64
    requires { block < 128 }
    ensures { (place : ℕ) → 64 * block ≤ place → place < 64 * block + 64 → place < length times.now → result ≤ slice_index times.now place }
{
    let from = block * BLOCK;
    let to = times.len().min(from + BLOCK);
    let mut least = NEVER;
    for place in from..to {
        least = least.min(times[place]);
    }
    least
}

impl Dues {
    /// No SID was given.
    pub(crate) fn new(alloc: Global) -> Dues {
        Dues {
            times: Vec::new(alloc),
            least: Vec::new(alloc),
        }
    }

    /// Makes room for a SID.
    pub(crate) fn make_room(&mut self, sid: u16) -> Result<(), AllocError>
        ensures room { OnOk result (HasRoom self.new sid) }
        ensures kept { (other due : ℕ) → IsDueFrom self.old other due → IsDueFrom self.new other due }
    {
        let sid = usize::from(sid);
        lengthen(&mut self.times, sid + 1)?;
        lengthen(&mut self.least, sid / BLOCK + 1)?;
        Ok(())
    }

    /// Notes the next due time of the flow of a SID.
    pub(crate) fn set(&mut self, sid: u16, due: u64)
        ensures set { HasRoom self.old sid → IsDueFrom self.new sid due }
        ensures kept { (other time : ℕ) → other ≢ sid → IsDueFrom self.old other time → IsDueFrom self.new other time }
    {
        let sid = usize::from(sid);
        let block = sid / BLOCK;
        if sid < self.times.len() && block < self.least.len() {
            self.times[sid] = due;
            self.least[block] = self.least[block].min(due);
        }
    }

    /// Notes that nothing is due for a SID any more.
    pub(crate) fn forget(&mut self, sid: u16)
        ensures { (other time : ℕ) → other ≢ sid → IsDueFrom self.old other time → IsDueFrom self.new other time }
    {
        let sid = usize::from(sid);
        if sid < self.times.len() {
            self.times[sid] = NEVER;
        }
    }

    /// No SID from this one on has a time.
    pub(crate) fn sids(&self) -> u16 {
        self.times.len().min(BLOCK * BLOCKS) as u16
    }

    /// The first SID from one on that may be due before an end.
    pub(crate) fn next_before(&self, from: usize, end: u64) -> Option<usize>
        ensures some { IfSome result (λ sid. (from ≤ sid) × (sid ≤ last_sid) × NoneDue self.now from sid end) }
        ensures none { IfNone result (NoneDue self.now from (last_sid + 1) end) }
    {
        for block in from / BLOCK..self.least.len().min(BLOCKS) {
            if self.least[block] < end {
                let first = from.max(block * BLOCK);
                if let Some(sid) = first_in(&self.times, first, block * BLOCK + BLOCK, end) {
                    return Some(sid);
                }
            }
        }
        None
    }

    /// Brings the times of blocks where something was due before an end up to what is due there now.
    pub(crate) fn settle(&mut self, end: u64)
        ensures { (sid due : ℕ) → IsDueFrom self.old sid due → IsDueFrom self.new sid due }
    {
        for block in 0..self.least.len().min(BLOCKS) {
            if self.least[block] < end {
                self.least[block] = least_in(&self.times, block);
            }
        }
    }
}
