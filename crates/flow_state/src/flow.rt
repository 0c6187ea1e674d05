ghost use Rattle.std.specs.Prelude.{◌≡◌, None, IsTrue};
ghost use Rattle.flow_state.specs.Limits.{is_size as size_fits, is_schedule as schedule_fits, is_good_kind};
ghost use Rattle.flow_state.specs.Limits.{takes_no_requests, is_timed, due_time};
ghost use Rattle.flow_state.specs.Refusals.{is_repeated, is_old, first_refusal};
ghost use Rattle.flow_state.specs.View.{flow_view};

use crate::limits::{HIGHEST_PRIORITY, LARGEST_SIZE, LAST_TIME, LONGEST_INTERVAL};
use crate::refusal::Refusal;

/// How a service flow is scheduled (CM-SP-MULPIv3.1, Upstream Service Flow Scheduling Services).
/// Sizes and intervals are minislots, a base is a minislot time.
#[derive(Clone, Copy, Debug, PartialEq, Eq)]
pub enum FlowKind {
    /// On request, by priority, 0 to 7.
    BestEffort(u8),
    /// Unsolicited grants of a size, each due an interval after the one before, the first at the
    /// base. A grant begins from its due time to a jitter later.
    Ugs {
        size: u16,
        interval: u32,
        jitter: u32,
        base: u64,
    },
    /// Polls, each due an interval after the one before, the first at the base.
    Poll {
        interval: u32,
        jitter: u32,
        base: u64,
    },
    /// Intervals for the ranging of its SID, of a size, due as unsolicited grants (Station Maintenance).
    Station {
        size: u16,
        interval: u32,
        jitter: u32,
        base: u64,
    },
    /// Openings for the first ranging of everybody, of a size, due as unsolicited grants (Initial Maintenance).
    Initial {
        size: u16,
        interval: u32,
        jitter: u32,
        base: u64,
    },
}

/// Can a request, or what comes by itself, have so many minislots? 1 to 255.
pub(crate) fn is_size(n: u16) -> bool
    ensures { result ≡ size_fits n }
{
    1 <= n && n <= LARGEST_SIZE
}

/// Can something be due so? An interval is 1 to 1,000,000, a jitter below it, a base at most 2^62.
fn is_schedule(interval: u32, jitter: u32, base: u64) -> bool
    ensures { result ≡ schedule_fits interval jitter base }
{
    1 <= interval && interval <= LONGEST_INTERVAL && jitter < interval && base <= LAST_TIME
}

impl FlowKind {
    /// Are all values within the limits?
    pub fn is_good(self) -> bool
        ensures { result ≡ is_good_kind self }
    {
        match self {
            FlowKind::BestEffort(priority) => priority <= HIGHEST_PRIORITY,
            FlowKind::Ugs {
                size,
                interval,
                jitter,
                base,
            }
            | FlowKind::Station {
                size,
                interval,
                jitter,
                base,
            }
            | FlowKind::Initial {
                size,
                interval,
                jitter,
                base,
            } => is_size(size) && is_schedule(interval, jitter, base),
            FlowKind::Poll {
                interval,
                jitter,
                base,
            } => is_schedule(interval, jitter, base),
        }
    }

    /// Is no request of such a flow ever accepted, since it has minislots unasked alone?
    pub(crate) fn takes_no_requests(self) -> bool
        ensures { result ≡ takes_no_requests self }
    {
        match self {
            FlowKind::BestEffort(_) | FlowKind::Poll { .. } => false,
            FlowKind::Ugs { .. } | FlowKind::Station { .. } | FlowKind::Initial { .. } => true,
        }
    }

    /// Does something come by itself: unsolicited grants, polls, or intervals for ranging?
    pub(crate) fn is_timed(self) -> bool
        ensures { result ≡ is_timed self }
    {
        match self {
            FlowKind::BestEffort(_) => false,
            FlowKind::Ugs { .. }
            | FlowKind::Poll { .. }
            | FlowKind::Station { .. }
            | FlowKind::Initial { .. } => true,
        }
    }

    /// The first due time, 0 where it has none.
    fn first_due(self) -> u64
        ensures { result ≡ due_time self 0 }
    {
        match self {
            FlowKind::BestEffort(_) => 0,
            FlowKind::Ugs { base, .. }
            | FlowKind::Poll { base, .. }
            | FlowKind::Station { base, .. }
            | FlowKind::Initial { base, .. } => base,
        }
    }
}

/// A SID of a channel as it is a modem's, for a flow under a tag of its own: from the first minislot
/// of the lease to the last one.
#[derive(Clone, Copy, Debug, PartialEq, Eq)]
pub struct Lease {
    pub sid: u16,
    pub modem: u32,
    pub tag: u32,
    pub first: u64,
    pub last: u64,
}

/// A flow under its lease, with the minislot time at which it is due next (0 where it is never due)
/// and the one at which its last accepted request was sent.
#[derive(Clone, Copy, Debug, PartialEq, Eq)]
pub struct Flow {
    pub lease: Lease,
    pub kind: FlowKind,
    pub due: u64,
    pub last_sent: Option<u64>,
}

impl Flow {
    /// A flow as it is added under its lease.
    pub(crate) fn new(lease: Lease, kind: FlowKind) -> Flow
        ensures { result ≡ record { lease = lease; kind = kind; due = due_time kind 0; last_sent = None } }
    {
        Flow {
            lease,
            kind,
            due: kind.first_due(),
            last_sent: None,
        }
    }

    /// Nothing comes by itself for it before this: the next due time, or the last time of all where it has none.
    pub(crate) fn due_from(&self) -> u64
        ensures { IsTrue (is_timed self.now.kind) → result ≡ self.now.due }
    {
        if self.kind.is_timed() {
            self.due
        } else {
            u64::MAX
        }
    }

    /// The first refusal of a request for n minislots that was sent at a time, where a request of
    /// the flow may be accepted now or is busy.
    pub(crate) fn request_refusal(&self, n: u16, sent: u64, busy: bool) -> Option<Refusal>
        ensures { result ≡ first_refusal (flow_view self.now) n sent busy }
    {
        if !is_size(n)
            || sent > LAST_TIME
            || self.lease.last < sent
            || self.kind.takes_no_requests()
        {
            Some(Refusal::BadValue)
        } else if self.is_old(sent) {
            Some(Refusal::OldRequest)
        } else if busy {
            Some(Refusal::Busy)
        } else {
            None
        }
    }

    /// Was a request sent before the lease, or no later than the last accepted one?
    fn is_old(&self, sent: u64) -> bool
        ensures { result ≡ is_old (flow_view self.now) sent }
    {
        sent < self.lease.first || self.is_repeated(sent)
    }

    /// Was a request sent no later than the last accepted one?
    fn is_repeated(&self, sent: u64) -> bool
        ensures { result ≡ is_repeated self.now.last_sent sent }
    {
        match self.last_sent {
            Some(last) => sent <= last,
            None => false,
        }
    }
}

/// A request for n minislots, 1 to 255, that was sent at a minislot time and waits to be granted.
#[derive(Clone, Copy, Debug, PartialEq, Eq)]
pub struct Waiting {
    pub sid: u16,
    pub n: u16,
    pub sent: u64,
}
