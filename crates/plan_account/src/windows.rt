//! The windows of a flow's due times, as they pass.

ghost use Rattle.std.specs.Prelude.{◌≡◌, OnOk, IfOk};
ghost use Rattle.plan_account.specs.Windows.{windows_of, windows_past, is_past, grants_past, windows_missed};
ghost use Rattle.plan_account.specs.Windows.{count_past, count_missed};

use flow_state::FlowKind;

/// Due times, an interval apart, the first at the base. The window of each reaches from it to jitter later.
#[derive(Clone, Copy)]
pub struct Windows {
    pub interval: u32,
    pub jitter: u32,
    pub base: u64,
}

/// Those of a flow, if it has any. No MAP shows the SID of a flow that opens intervals to everybody, so it has none.
pub(crate) fn windows_of(kind: FlowKind) -> Option<Windows>
    ensures { result ≡ windows_of kind }
{
    match kind {
        FlowKind::BestEffort(_) | FlowKind::Initial { .. } => None,
        FlowKind::Ugs {
            interval,
            jitter,
            base,
            ..
        }
        | FlowKind::Station {
            interval,
            jitter,
            base,
            ..
        } => Some(Windows {
            interval,
            jitter,
            base,
        }),
        FlowKind::Poll {
            interval,
            jitter,
            base,
        } => Some(Windows {
            interval,
            jitter,
            base,
        }),
    }
}

impl Windows {
    /// How many windows end before this time.
    pub(crate) fn past(self, end: u64) -> u64
        ensures { result ≡ windows_past self end }
    {
        let left = end
            .saturating_sub(self.base)
            .saturating_sub(u64::from(self.jitter));
        if left == 0 || self.interval == 0 {
            return 0;
        }
        (left - 1) / u64::from(self.interval) + 1
    }

    /// Does the window in which a grant begins end before this time?
    pub(crate) fn is_past(self, end: u64, at: u64) -> bool
        ensures { result ≡ is_past self end at }
    {
        if self.interval == 0 {
            return false;
        }
        let due = at - at.saturating_sub(self.base) % u64::from(self.interval);
        u64::from(self.jitter) < end.saturating_sub(due)
    }

    /// How many grants, by their starts, are in windows that end before this time.
    pub(crate) fn grants_past(self, end: u64, starts: &[u64]) -> u64
        ensures { result ≡ grants_past self end starts.now }
    {
        let mut count: u64 = 0;
        for at in starts {
            if self.is_past(end, *at) {
                count += 1;
            }
        }
        count
    }

    /// How many windows end before this time without a grant.
    pub(crate) fn missed(self, end: u64, starts: &[u64]) -> u64
        ensures { result ≡ windows_missed self end starts.now }
    {
        self.past(end).saturating_sub(self.grants_past(end, starts))
    }
}

/// How many windows of a flow, which may have none, end before this time.
pub(crate) fn count_past(windows: Option<Windows>, end: u64) -> u64
    ensures { result ≡ count_past windows end }
{
    match windows {
        Some(windows) => windows.past(end),
        None => 0,
    }
}

/// How many of them end so without a grant.
pub(crate) fn count_missed(windows: Option<Windows>, end: u64, starts: &[u64]) -> u64
    ensures { result ≡ count_missed windows end starts.now }
{
    match windows {
        Some(windows) => windows.missed(end, starts),
        None => 0,
    }
}
