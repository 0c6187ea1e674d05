//! Leases in blocks of 128 places, each block with a time before which none of its leases ends.

ghost use Rattle.std.specs.Prelude.{◌≡◌, ℕ, ◌+◌, ◌*◌, ◌/◌, ◌<◌, ◌≤◌, length, find, slice_get, Some, nat_lt, vec_len};
ghost use Rattle.std.specs.Prelude.{vec_capacity, IfNone, IfSome};
ghost use Rattle.flow_state.specs.Limits.{last_sid};
ghost use Rattle.flow_state.specs.StoredLeases.{IsBound, IsBoundBefore, AreBounds, IsFirstOver, put_at};

use crate::flow::Lease;

/// So many places are a block.
pub(crate) const BLOCK: usize = 128;

/// Puts an item at a place, over the one there or behind the others. There is room for it.
pub(crate) fn put_at<T: Drop>(items: &mut Vec<T>, place: usize, item: T)
    requires room { vec_len items.old < vec_capacity items.old }
    ensures { items.new.items ≡ put_at items.old.items place item }
{
    if place < items.len() {
        items[place] = item;
    } else {
        let put = items.push(item);
        prove!(put.is_ok());
    }
}

/// A time before which no lease of the block ends: the first one at which one does.
fn first_end_of(latest: &[Lease], block: usize) -> u64
    requires { block ≤ last_sid }
    ensures { IsBound latest.now block result }
{
    let from = block * BLOCK;
    let to = latest.len().min(from + BLOCK);
    let mut first = u64::MAX;
    for place in from..to {
        first = first.min(latest[place].last);
    }
    first
}

/// A time before which no lease of the block of a place ends, once a lease is put there. Behind the last one, as with a
/// new SID, the others aren't looked through: the block's time is one of theirs.
pub(crate) fn first_end_at(latest: &[Lease], first_ends: &[u64], place: usize) -> u64
    requires there { place < length latest.now }
    requires few { place ≤ last_sid }
    requires enough { place ≤ 128 * length first_ends.now }
    requires bounds { (bound : ℕ) → slice_get first_ends.now (place / 128) ≡ Some bound → IsBoundBefore latest.now place (place / 128) bound }
    ensures { IsBound latest.now (place / 128) result }
{
    let block = place / BLOCK;
    if place + 1 < latest.len() {
        return first_end_of(latest, block);
    }
    let end = latest[place].last;
    match first_ends.get(block) {
        Some(first) => end.min(*first),
        None => end,
    }
}

/// The first lease of the block that ends before a start.
fn over_in(latest: &[Lease], block: usize, start: u64) -> Option<Lease>
    requires { block ≤ last_sid }
    ensures none { IfNone result (IsBound latest.now block start) }
    ensures some { IfSome result (IsFirstOver latest.now block start) }
{
    let from = block * BLOCK;
    let to = latest.len().min(from + BLOCK);
    for place in from..to {
        let lease = latest[place];
        if lease.last < start {
            return Some(lease);
        }
    }
    None
}

/// The first lease that ends before a start. Blocks none of whose leases does are passed over.
pub(crate) fn first_over(latest: &[Lease], first_ends: &[u64], start: u64) -> Option<Lease>
    requires bounds { AreBounds latest.now first_ends.now }
    requires enough { length latest.now ≤ 128 * length first_ends.now }
    requires few { length first_ends.now ≤ last_sid }
    ensures { result ≡ find (λ l. nat_lt l.last start) latest.now }
{
    for block in 0..first_ends.len() {
        if first_ends[block] < start {
            if let Some(lease) = over_in(latest, block, start) {
                return Some(lease);
            }
        }
    }
    None
}
