//! The leases of a modem's SIDs, over slices.

ghost use Rattle.std.specs.Prelude.{◌≡◌, ℕ, ◌<◌, ◌≤◌, ◌^◌, IfSome, IsErr, OnErr, OnOk, false, true};
ghost use Rattle.modem.specs.State.{is_of, is_lease, covers, has_lease, is_own_at, is_own_from, is_recent, recent};
ghost use Rattle.modem.specs.State.{with_lease};
ghost use Rattle.modem.specs.Idle.{IsBefore, IsSameIn, CoverSame};

use crate::edges::sooner;
use crate::kept::REACH;
use crate::known::OwnLease;
use std::alloc::AllocError;

/// A lease of this SID of a channel.
pub(crate) fn is_of(lease: &OwnLease, ch: u8, sid: u16) -> bool
    ensures { result ≡ is_of ch sid lease.now }
{
    lease.channel == ch && lease.sid == sid
}

// Whether the lease is one of them.
fn has_lease(leases: &[OwnLease], lease: OwnLease) -> bool
    ensures { result ≡ has_lease leases.now lease }
{
    leases.iter().any(|l| is_of(l, lease.channel, lease.sid)
        && (l.first == lease.first && l.last == lease.last))
}

/// Whether the SID is the modem's at a minislot.
pub(crate) fn is_own_at(leases: &[OwnLease], ch: u8, sid: u16, at: u64) -> bool
    ensures { result ≡ is_own_at leases.now ch sid at }
{
    leases
        .iter()
        .any(|l| is_of(l, ch, sid) && (l.first <= at && at <= l.last))
}

/// Whether a lease of the SID ends at a minislot or later.
pub(crate) fn is_own_from(leases: &[OwnLease], ch: u8, sid: u16, clock: u64) -> bool
    ensures { result ≡ is_own_from leases.now ch sid clock }
{
    leases.iter().any(|l| is_of(l, ch, sid) && clock <= l.last)
}

// Whether it is of another channel, or ended at most REACH before the channel's clock, if at all.
fn is_recent(lease: &OwnLease, ch: u8, clock: u64) -> bool
    ensures { result ≡ is_recent ch clock lease.now }
{
    !(lease.channel == ch) || clock.saturating_sub(REACH) <= lease.last
}

/// Lets go of the channel's leases that ended more than REACH before its clock. It takes no memory.
pub(crate) fn keep_recent(leases: &mut Vec<OwnLease>, ch: u8, clock: u64)
    ensures { leases.new.items ≡ recent ch clock leases.old.items }
{
    leases.retain(|l| is_recent(l, ch, clock));
}

/// Keeps one more lease, once, and lets go of the old ones of its channel. It takes no memory for a lease that is there
/// or old.
pub(crate) fn add(leases: &mut Vec<OwnLease>, lease: OwnLease, clock: u64) -> Result<(), AllocError>
    ensures ok { OnOk result (leases.new.items ≡ recent lease.channel clock (with_lease leases.old.items lease)) }
    ensures err { OnErr result (leases.new.items ≡ leases.old.items) }
    ensures known { IsErr result → has_lease leases.old.items lease ≡ false }
    ensures young { IsErr result → is_recent lease.channel clock lease ≡ true }
{
    if !has_lease(leases.as_slice(), lease) && is_recent(&lease, lease.channel, clock) {
        leases.push(lease)?;
    }
    keep_recent(leases, lease.channel, clock);
    Ok(())
}

// The next minislot at which a lease begins, is in its last minislot, or is over.
fn edge_of(lease: OwnLease, ch: u8, at: u64) -> Option<u64>
    requires { at < 2 ^ 63 }
    ensures after { IfSome result (λ n. at < n) }
    ensures same { (x : ℕ) → at ≤ x → IsBefore result x → IsSameIn ch at x lease }
{
    if lease.channel != ch {
        return None;
    }
    let begins = if at < lease.first {
        Some(lease.first)
    } else {
        None
    };
    let ends = if at < lease.last {
        Some(lease.last)
    } else if at == lease.last {
        Some(at + 1)
    } else {
        None
    };
    sooner(begins, ends)
}

/// The next minislot at which a lease of a channel begins, is in its last minislot, or is over.
pub(crate) fn next_edge(leases: &[OwnLease], ch: u8, at: u64) -> Option<u64>
    requires { at < 2 ^ 63 }
    ensures after { IfSome result (λ n. at < n) }
    ensures same { (x : ℕ) → at ≤ x → IsBefore result x → CoverSame leases.now ch at x }
{
    let mut next: Option<u64> = None;
    for lease in leases {
        next = sooner(next, edge_of(*lease, ch, at));
    }
    next
}
