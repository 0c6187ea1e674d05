//! A whole table of a channel, as it is taken from elsewhere, and the tests that it is one that commands could leave.

ghost use Rattle.std.specs.Prelude.{◌≡◌, ◌==◌};
ghost use Rattle.std.specs.List.{find, list_all};
ghost use Rattle.flow_state.specs.Firm.{FitsChannel};
ghost use Rattle.flow_state.specs.Tests.{is_firm_row, is_firm_lease, are_in_order, are_firm_leases, is_same_lease};
ghost use Rattle.flow_state.specs.Tests.{stands_there, is_step, is_due_time, is_firm_flow, are_rising, are_firm_flows};
ghost use Rattle.flow_state.specs.Tests.{is_last, has_asked, is_firm_request, is_alone, are_firm_requests};
ghost use Rattle.flow_state.specs.Tests.{is_firm_whole};

use crate::by_sid::place_of;
use crate::channel::{Channel, ChannelRow};
use crate::flow::{Flow, FlowKind, Lease, Waiting, is_size};
use crate::limits::{LAST_SID, LAST_TIME, LONGEST_INTERVAL, MOST_WAITING};
use thiserror::Error;

/// All that is kept of a channel, as values: its row with its settings as they stand, the latest lease of each SID that
/// was given, from SID 1 on without a gap, its flows by SID with their next due times and last requests, and its
/// waiting requests by arrival.
#[derive(Debug, Drop)]
pub struct WholeTable {
    pub row: ChannelRow,
    pub leases: Vec<Lease>,
    pub flows: Vec<Flow>,
    pub waiting: Vec<Waiting>,
}

/// Why a whole table is not taken.
#[derive(Clone, Copy, Debug, PartialEq, Eq, Error)]
pub enum NotAdopted {
    /// No commands could leave it, or its channel is set already.
    #[error("NotFirm")]
    NotFirm,
    /// No memory was found for it.
    #[error("OutOfMemory")]
    OutOfMemory,
}

// A channel fits the types of its fields.
fn channel_fits(channel: Channel)
    ensures { FitsChannel channel }
{
    let _ = channel;
}

/// Is a channel's row within the limits?
fn is_firm_row(row: &ChannelRow) -> bool
    ensures { result ≡ is_firm_row row.now }
{
    row.channel.is_good() && row.next_start <= LAST_TIME && row.ack <= row.next_start
}

/// Is a lease within the limits, and has it begun when the channel's next MAP begins?
fn is_firm_lease(start: u64, lease: &Lease) -> bool
    ensures { result ≡ is_firm_lease start lease.now }
{
    1 <= lease.sid
        && lease.sid <= LAST_SID
        && lease.first <= start
        && lease.first <= lease.last
        && lease.last <= LAST_TIME
}

/// Are they the leases of SIDs 1, 2 and so on?
fn are_in_order(leases: &[Lease]) -> bool
    ensures { result ≡ are_in_order 1 leases.now }
{
    for place in 0..leases.len() {
        if usize::from(leases[place].sid) != place + 1 {
            return false;
        }
    }
    true
}

/// Is each within the limits, and has it begun when the channel's next MAP begins?
fn are_begun(start: u64, leases: &[Lease]) -> bool
    ensures { result ≡ list_all (is_firm_lease start) leases.now }
{
    leases.iter().all(
        |lease: &Lease| -> bool
            ensures { result ≡ is_firm_lease start lease.now }
        { is_firm_lease(start, lease) },
    )
}

/// Are they the latest leases of all SIDs that were given?
fn are_firm_leases(start: u64, leases: &[Lease]) -> bool
    ensures { result ≡ are_firm_leases start leases.now }
{
    leases.len() <= usize::from(LAST_SID) && are_in_order(leases) && are_begun(start, leases)
}

/// Is it the same lease?
fn is_same_lease(lease: &Lease, other: &Lease) -> bool
    ensures { result ≡ is_same_lease lease.now other.now }
{
    other.sid == lease.sid
        && other.modem == lease.modem
        && other.tag == lease.tag
        && other.first == lease.first
        && other.last == lease.last
}

/// Does the lease stand one below its SID?
fn stands_there(leases: &[Lease], lease: &Lease) -> bool
    ensures { result ≡ stands_there leases.now lease.now }
{
    match leases.get(place_of(lease.sid)) {
        Some(other) => is_same_lease(lease, other),
        None => false,
    }
}

/// Does a time lie some intervals behind a base?
fn is_step(interval: u32, base: u64, due: u64) -> bool
    ensures { result ≡ is_step interval base due }
{
    1 <= interval && base <= due && (due - base) % u64::from(interval) == 0
}

/// Is it one of the due times of such a flow?
fn is_due_time(kind: FlowKind, due: u64) -> bool
    ensures { result ≡ is_due_time kind due }
{
    match kind {
        FlowKind::BestEffort(_) => due == 0,
        FlowKind::Ugs { interval, base, .. }
        | FlowKind::Poll { interval, base, .. }
        | FlowKind::Station { interval, base, .. }
        | FlowKind::Initial { interval, base, .. } => is_step(interval, base, due),
    }
}

/// Is a flow within the limits, and under its SID's lease, which goes on?
fn is_firm_flow(start: u64, leases: &[Lease], flow: &Flow) -> bool
    ensures { result ≡ is_firm_flow start leases.now flow.now }
{
    flow.kind.is_good()
        && is_due_time(flow.kind, flow.due)
        && flow.due <= LAST_TIME + u64::from(LONGEST_INTERVAL)
        && start <= flow.lease.last
        && stands_there(leases, &flow.lease)
}

/// Do the SIDs of the flows rise?
fn are_rising(flows: &[Flow]) -> bool
    ensures { result ≡ are_rising 0 flows.now }
{
    let mut low = 0;
    for flow in flows {
        if flow.lease.sid <= low {
            return false;
        }
        low = flow.lease.sid;
    }
    true
}

/// Is each within the limits, and under its SID's lease, which goes on?
fn are_leased(start: u64, leases: &[Lease], flows: &[Flow]) -> bool
    ensures { result ≡ list_all (is_firm_flow start leases.now) flows.now }
{
    flows.iter().all(
        |flow: &Flow| -> bool
            ensures { result ≡ is_firm_flow start leases.entry.now flow.now }
        { is_firm_flow(start, leases, flow) },
    )
}

/// Are they flows by SID, each within the limits and under its SID's lease?
fn are_firm_flows(start: u64, leases: &[Lease], flows: &[Flow]) -> bool
    ensures { result ≡ are_firm_flows start leases.now flows.now }
{
    are_rising(flows) && are_leased(start, leases, flows)
}

/// Was the last request sent at this time?
fn is_last(last: Option<u64>, sent: u64) -> bool
    ensures { result ≡ is_last last sent }
{
    match last {
        Some(last) => last == sent,
        None => false,
    }
}

/// Is it the flow's last request, and may it wait?
fn has_asked(request: &Waiting, flow: &Flow) -> bool
    ensures { result ≡ has_asked request.now flow.now }
{
    is_size(request.n)
        && request.sent <= LAST_TIME
        && is_last(flow.last_sent, request.sent)
        && flow.lease.first <= request.sent
        && request.sent <= flow.lease.last
        && !flow.kind.takes_no_requests()
}

/// The flow of a SID.
fn flow_of(flows: &[Flow], sid: u16) -> Option<Flow>
    ensures { result ≡ find (λ f. f.lease.sid == sid) flows.now }
{
    flows.iter().find(|flow| flow.lease.sid == sid).copied()
}

/// Is it the last request of one of the flows?
fn is_firm_request(flows: &[Flow], request: &Waiting) -> bool
    ensures { result ≡ is_firm_request flows.now request.now }
{
    match flow_of(flows, request.sid) {
        Some(flow) => has_asked(request, &flow),
        None => false,
    }
}

/// Is no other request of its SID among these?
fn is_alone(requests: &[Waiting], request: &Waiting) -> bool
    ensures { result ≡ is_alone requests.now request.now }
{
    let mut found: usize = 0;
    for other in requests {
        if other.sid == request.sid {
            found += 1;
        }
    }
    found <= 1
}

/// Is each the only one of its SID?
fn are_alone(requests: &[Waiting]) -> bool
    ensures { result ≡ list_all (is_alone requests.now) requests.now }
{
    requests.iter().all(
        |request: &Waiting| -> bool
            ensures { result ≡ is_alone requests.entry.now request.now }
        { is_alone(requests, request) },
    )
}

/// Is each the last one of a flow?
fn are_asked(flows: &[Flow], requests: &[Waiting]) -> bool
    ensures { result ≡ list_all (is_firm_request flows.now) requests.now }
{
    requests.iter().all(
        |request: &Waiting| -> bool
            ensures { result ≡ is_firm_request flows.entry.now request.now }
        { is_firm_request(flows, request) },
    )
}

/// Are they as many as may wait, one of a SID, each a flow's last one?
fn are_firm_requests(flows: &[Flow], requests: &[Waiting]) -> bool
    ensures { result ≡ are_firm_requests flows.now requests.now }
{
    requests.len() <= MOST_WAITING && are_alone(requests) && are_asked(flows, requests)
}

impl WholeTable {
    /// Is it one that commands could leave?
    pub(crate) fn is_firm(&self) -> bool
        ensures test { result ≡ is_firm_whole self.now }
        ensures fits { FitsChannel self.now.row.channel }
    {
        channel_fits(self.row.channel);
        let start = self.row.next_start;
        is_firm_row(&self.row)
            && are_firm_leases(start, &self.leases)
            && are_firm_flows(start, &self.leases, &self.flows)
            && are_firm_requests(&self.flows, &self.waiting)
    }
}
