ghost use Rattle.std.specs.Prelude.{◌≡◌, ℕ, ◌+◌, List, [], map, length, option_to_list, ◌∷◌, ◌++◌, ◌==◌, not, filter};
ghost use Rattle.std.specs.Prelude.{if◌then◌else◌, is_some, slice_get, Some, None, IsOk, IsTrue, IsSome, OnErr, IfOk};
ghost use Rattle.std.specs.Prelude.{OnOk, IfErr, IfSome, IfNone, nat_eq, nat_le, ◌<◌, ◌≤◌};
ghost use Rattle.std.specs.Fn.{CalledAt};
ghost use Rattle.std.specs.List.Retain.{IsFiltered};
ghost use Rattle.std.specs.Map.{lookup};
ghost use Rattle.std.specs.Option.{option_copied, option_map};
ghost use Rattle.std.specs.List.{AllByRecursion};
ghost use Rattle.flow_state.specs.Limits.{IsDueTime, is_good_kind, last_sid, most_waiting};
ghost use Rattle.flow_state.specs.Sound.{IsSound, Rise};
ghost use Rattle.flow_state.specs.Rows.{FlowRow, lent_flow, due_flows, flow_of, waits, without_request, free_sid};
ghost use Rattle.flow_state.specs.Rows.{lease_of};
ghost use Rattle.flow_state.specs.Refusals.{Refuses, is_good_last, table_change_refusal, table_flow_refusal};
ghost use Rattle.flow_state.specs.Refusals.{table_drop_refusal, table_request_refusal, is_busy};
ghost use Rattle.flow_state.specs.Reasons.{why_change, why_flow, why_drop, why_busy, why_request};
ghost use Rattle.flow_state.specs.StoredTable.{is_ended_in, EndFrom, AreNoted, is_due_stored, MayBePut, with_lease};
ghost use Rattle.flow_state.specs.StoredTable.{with_flow_row};
ghost use Rattle.flow_state.specs.View.{flow_view};
ghost use Rattle.flow_state.specs.StoredDues.{IsDueFrom};
ghost use Rattle.flow_state.specs.Changes.{new_table, change_in_table, lease_for, flow_in_table, add_to_table};
ghost use Rattle.flow_state.specs.Changes.{drop_in_table, request_in_table, waiting_in_table, due_in_table};
ghost use Rattle.flow_state.specs.Changes.{close_table};

use crate::by_sid::FlowsBySid;
use crate::channel::{Channel, ChannelRow};
use crate::dues::Dues;
use crate::flow::{Flow, FlowKind, Lease, Waiting};
use crate::leases::Leases;
use crate::limits::{LAST_TIME, MOST_WAITING};
use crate::reason::{self, Reason, if_so};
use crate::refusal::Refusal;
use crate::settings::ChannelSettings;
use std::alloc::{AllocError, Global};
use std::marker::Model;

/// All that is kept of a channel: its flows stand one below their SIDs, and `dues` has a time for each SID before
/// which nothing is due for its flow. No flow's lease ends before `first_end`.
#[derive(Drop)]
pub struct ChannelTable {
    row: ChannelRow,
    leases: Leases,
    flows: FlowsBySid,
    first_end: u64,
    dues: Dues,
    waiting: Vec<Waiting>,
}

impl Model for ChannelTable {
    ghost use Rattle.flow_state.specs.Rows.{Table};

    ghost Value = { Table };

    ghost use Rattle.flow_state.specs.View.{table_view};
    ghost use Rattle.flow_state.specs.StoredTable.{IsStored};

    ghost view = { table_view };

    ghost invariant = { IsStored };
}

impl ChannelTable {
    /// A channel as it is set.
    pub(crate) fn new(alloc: Global, channel: Channel) -> ChannelTable
        ensures { result ≡ new_table channel }
    {
        let row = ChannelRow {
            channel,
            next_start: channel.base,
            ack: 0,
        };
        ChannelTable::of_row(alloc, row)
    }

    /// A channel of which no SID was given.
    pub(crate) fn of_row(alloc: Global, row: ChannelRow) -> ChannelTable
        ensures { result ≡ record { row = row; leases = []; flows = []; waiting = [] } }
    {
        ChannelTable {
            row,
            leases: Leases::new(alloc),
            flows: FlowsBySid::new(alloc),
            first_end: LAST_TIME,
            dues: Dues::new(alloc),
            waiting: Vec::new(alloc),
        }
    }

    /// Gives the channel these settings.
    pub(crate) fn change(&mut self, settings: ChannelSettings) -> Result<(), Refusal>
        ensures ok { OnOk result ((table_change_refusal self.old settings ≡ None) × (self.new ≡ change_in_table self.old settings)) }
        ensures err { IfErr result (λ refusal. (table_change_refusal self.old settings ≡ Some refusal) × (self.new ≡ self.old)) }
    {
        if !(settings.are_good() && settings.is_good_count(self.row.channel)) {
            return Err(Refusal::BadValue);
        }
        self.row.channel = settings.given_to(self.row.channel);
        Ok(())
    }

    /// The channel's row.
    pub fn row(&self) -> &ChannelRow
        ensures row { result.now ≡ self.now.row }
        ensures sound { IsSound self.now }
    {
        &self.row
    }

    /// The latest lease of each SID that was given, by SID, from 1 on. It takes no memory.
    pub fn leases(&self) -> &[Lease]
        ensures { result.now ≡ self.now.leases }
    {
        self.leases.all()
    }

    /// Copies all flows, by SID, over what is there. It takes time for the SIDs that were given.
    pub fn copy_flows(&self, copied: &mut Vec<Flow>) -> Result<(), AllocError>
        ensures { OnOk result (copied.new.items ≡ map lent_flow self.now.flows) }
    {
        self.flows.copy_all(copied)
    }

    /// Flow number k, by SID.
    pub(crate) fn flow(&self, k: usize) -> Option<&Flow>
        ensures row { option_copied result ≡ option_map lent_flow (slice_get self.now.flows k) }
        ensures good { IfSome result (λ flow. IsTrue (is_good_kind flow.now.kind)) }
        ensures unicast { IfSome result (λ flow. (1 ≤ flow.now.lease.sid) × (flow.now.lease.sid ≤ last_sid)) }
    {
        self.flows.nth(k)
    }

    /// The flow that has the SID.
    pub fn flow_of(&self, sid: u16) -> Option<&Flow>
        ensures { option_copied result ≡ option_map lent_flow (flow_of self.now sid) }
    {
        self.flows.get(sid)
    }

    /// Copies the flows of unsolicited grants or polls that are due before an end, by SID, over what is there. It
    /// takes time for those that are due, and for the SIDs near them.
    pub fn copy_due(&self, end: u64, copied: &mut Vec<Flow>) -> Result<(), AllocError>
        ensures { OnOk result (copied.new.items ≡ map lent_flow (due_flows end self.now.flows)) }
    {
        copy_due(&self.dues, &self.flows, end, copied)
    }

    /// The waiting requests, by arrival, at most 118.
    pub fn requests(&self) -> &[Waiting]
        ensures row { result.now ≡ self.now.waiting }
        ensures few { length result.now ≤ most_waiting }
    {
        &self.waiting
    }

    /// Waiting request number k, by arrival.
    pub(crate) fn waiting(&self, k: usize) -> Option<&Waiting>
        ensures row { option_copied result ≡ slice_get self.now.waiting k }
        ensures few { IfSome result (λ _. k < most_waiting) }
    {
        self.waiting.get(k)
    }

    /// Adds a flow under a lease of a free SID. Room is made everywhere before anything is written.
    fn insert_flow(&mut self, lease: Lease, kind: FlowKind) -> Result<(), AllocError>
        requires free { free_sid self.old ≡ Some lease.sid }
        requires goes_on { self.old.row.next_start ≤ lease.last }
        requires good { IsTrue (is_good_kind kind) }
        ensures ok { OnOk result (self.new ≡ add_to_table self.old lease kind) }
        ensures err { OnErr result (self.new ≡ self.old) }
    {
        self.flows.reserve()?;
        self.dues.make_room(lease.sid)?;
        self.leases.put(lease)?;
        self.first_end = self.first_end.min(lease.last);
        let flow = Flow::new(lease, kind);
        self.dues.set(lease.sid, flow.due_from());
        self.flows.add(lease.sid, flow);
        Ok(())
    }

    /// Puts the lease of the next SID behind the others.
    pub(crate) fn put_lease(&mut self, lease: Lease) -> Result<(), AllocError>
        requires next { lease.sid ≡ length self.old.leases + 1 }
        requires unicast { lease.sid ≤ last_sid }
        ensures { OnOk result (self.new ≡ with_lease self.old lease) }
    {
        self.flows.make_place(lease.sid)?;
        self.leases.put(lease)?;
        Ok(())
    }

    /// Puts a flow behind the others, under the lease of its SID. It is due next at one of its due times.
    pub(crate) fn put_flow(&mut self, flow: Flow) -> Result<(), AllocError>
        requires may { MayBePut self.old flow }
        requires behind { AllByRecursion (λ f. f.sid < flow.lease.sid) self.old.flows }
        ensures { OnOk result (self.new ≡ with_flow_row self.old (flow_view flow)) }
    {
        let sid = flow.lease.sid;
        self.flows.reserve()?;
        self.dues.make_room(sid)?;
        self.first_end = self.first_end.min(flow.lease.last);
        self.dues.set(sid, flow.due_from());
        self.flows.add(sid, flow);
        Ok(())
    }

    /// Gives a channel on which nothing waits its waiting requests.
    pub(crate) fn put_requests(&mut self, requests: &[Waiting]) -> Result<(), AllocError>
        requires none { self.old.waiting ≡ [] }
        requires few { length requests.now ≤ most_waiting }
        ensures { OnOk result (self.new ≡ waiting_in_table self.old requests.now) }
    {
        self.waiting.extend_from_slice(requests)
    }

    /// May a new lease end so?
    fn is_good_last(&self, last: u64) -> bool
        ensures { result ≡ is_good_last self.now last }
    {
        last <= LAST_TIME && self.row.next_start <= last
    }

    /// Adds a flow, and answers the lease of its SID, or the one of modem and tag that isn't over.
    pub(crate) fn add_flow(
        &mut self,
        modem: u32,
        tag: u32,
        last: u64,
        kind: FlowKind,
    ) -> Result<Lease, Refusal>
        ensures ok { OnOk result ((table_flow_refusal self.old modem tag last kind ≡ None) × (self.new ≡ flow_in_table self.old modem tag last kind)) }
        ensures lease { IfOk result (λ lease. lease ≡ lease_for self.old modem tag last) }
        ensures known { IsSome (lease_of self.old modem tag) → IsOk result }
        ensures err { IfErr result (λ refusal. Refuses (table_flow_refusal self.old modem tag last kind) refusal × (self.new ≡ self.old)) }
    {
        let start = self.row.next_start;
        if let Some(lease) = self.leases.lease_of(modem, tag, start) {
            return Ok(lease);
        }
        if !(kind.is_good() && self.is_good_last(last)) {
            return Err(Refusal::BadValue);
        }
        match self.leases.free_sid(start) {
            Some(sid) => {
                let first = self.leases.first_of(sid, start);
                let lease = Lease {
                    sid,
                    modem,
                    tag,
                    first,
                    last,
                };
                self.insert_flow(lease, kind)?;
                Ok(lease)
            }
            None => Err(Refusal::SidsSpent),
        }
    }

    /// Drops a flow and its waiting request.
    pub(crate) fn drop_flow(&mut self, sid: u16) -> Result<(), Refusal>
        ensures ok { OnOk result ((table_drop_refusal self.old sid ≡ None) × (self.new ≡ drop_in_table self.old sid)) }
        ensures err { IfErr result (λ refusal. (table_drop_refusal self.old sid ≡ Some refusal) × (self.new ≡ self.old)) }
    {
        if !self.flows.remove(sid) {
            return Err(Refusal::NoFlow);
        }
        self.dues.forget(sid);
        self.waiting.retain(|w| w.sid != sid);
        Ok(())
    }

    /// The first refusal of a request for n minislots that was sent at a time.
    fn request_refusal(&self, sid: u16, n: u16, sent: u64) -> Option<Refusal>
        ensures { result ≡ table_request_refusal self.now sid n sent }
    {
        match self.flows.get(sid) {
            Some(flow) => flow.request_refusal(n, sent, self.is_busy(sid)),
            None => Some(Refusal::NoFlow),
        }
    }

    /// Does a request of the SID wait, or may no more wait?
    fn is_busy(&self, sid: u16) -> bool
        ensures { result ≡ is_busy self.now sid }
    {
        self.waits(sid) || self.waiting.len() >= MOST_WAITING
    }

    /// Why a change to these settings is refused.
    pub(crate) fn why_change(&self, settings: ChannelSettings) -> Option<Reason>
        ensures { result ≡ why_change self.now settings }
    {
        reason::why_settings(self.row.channel, settings)
    }

    /// Why a flow may not be added so.
    pub(crate) fn why_flow(&self, modem: u32, tag: u32, last: u64, kind: FlowKind) -> Option<Reason>
        ensures { result ≡ why_flow self.now modem tag last kind }
    {
        let start = self.row.next_start;
        if self.leases.lease_of(modem, tag, start).is_some() {
            return None;
        }
        let ch = self.row.channel.id;
        let spent = if_so(
            self.leases.free_sid(start).is_none(),
            Reason::SidsSpent { ch },
        );
        reason::why_kind(kind)
            .or(reason::why_last(start, last))
            .or(spent)
    }

    /// Why the flow of a SID may not be dropped.
    pub(crate) fn why_drop(&self, sid: u16) -> Option<Reason>
        ensures { result ≡ why_drop self.now sid }
    {
        let ch = self.row.channel.id;
        if_so(self.flow_of(sid).is_none(), Reason::NoFlow { ch, sid })
    }

    /// Why no request of a SID may be accepted now.
    fn why_busy(&self, sid: u16) -> Option<Reason>
        ensures { result ≡ why_busy self.now sid }
    {
        let full = Reason::Full {
            ch: self.row.channel.id,
        };
        if_so(self.waits(sid), Reason::Waits { sid }).or(if_so(
            self.waiting.len() >= MOST_WAITING,
            full,
        ))
    }

    /// Why a request is refused.
    pub(crate) fn why_request(&self, sid: u16, n: u16, sent: u64) -> Option<Reason>
        ensures { result ≡ why_request self.now sid n sent }
    {
        match self.flows.get(sid) {
            Some(flow) => reason::why_not_asked(flow, n, sent).or(self.why_busy(flow.lease.sid)),
            None => Some(Reason::NoFlow {
                ch: self.row.channel.id,
                sid,
            }),
        }
    }

    /// Accepts a request for n minislots that was sent at a time.
    pub(crate) fn request(&mut self, sid: u16, n: u16, sent: u64) -> Result<(), Refusal>
        ensures ok { OnOk result ((table_request_refusal self.old sid n sent ≡ None) × (self.new ≡ request_in_table self.old sid n sent)) }
        ensures err { IfErr result (λ refusal. Refuses (table_request_refusal self.old sid n sent) refusal × (self.new ≡ self.old)) }
    {
        if let Some(refusal) = self.request_refusal(sid, n, sent) {
            return Err(refusal);
        }
        self.waiting.push(Waiting { sid, n, sent })?;
        self.flows.note_sent(sid, sent);
        Ok(())
    }

    /// Sets the flow's next due time, which is one of its due times. False where there is no such flow.
    pub(crate) fn set_due(&mut self, sid: u16, due: u64) -> bool
        requires { (f : FlowRow) → flow_of self.old sid ≡ Some f → IsDueTime f.kind due }
        ensures found { result ≡ is_some (flow_of self.old sid) }
        ensures table { self.new ≡ due_in_table self.old sid due }
    {
        self.dues.set(sid, due);
        self.flows.note_due(sid, due)
    }

    /// Does a request of the SID wait?
    fn waits(&self, sid: u16) -> bool
        ensures { result ≡ waits self.now sid }
    {
        self.waiting.iter().any(|w| w.sid == sid)
    }

    /// Takes the SID's waiting request out. False where there is none.
    pub(crate) fn granted(&mut self, sid: u16) -> bool
        ensures found { result ≡ waits self.old sid }
        ensures table { self.new ≡ without_request self.old sid }
    {
        let found = self.waits(sid);
        self.waiting.retain(|w| w.sid != sid);
        found
    }

    /// Keeps the waiting requests that are accepted, in one pass.
    pub(crate) fn keep_waiting<F: FnMut(&Waiting) -> bool>(&mut self, keep: F)
        requires { F.IsAlwaysCallable keep }
        ensures { (kept : List Waiting) × IsFiltered (CalledAt F.FnMut) keep self.old.waiting kept × (self.new ≡ waiting_in_table self.old kept) }
    {
        self.waiting.retain(keep);
    }

    /// The MAPs reach to end, and this is the Ack Time. The flows whose leases end before are gone, with
    /// their waiting requests.
    pub(crate) fn close_cut(&mut self, end: u64, ack: u64)
        ensures { self.new ≡ close_table self.old end ack }
    {
        self.first_end = forget_all_ended(
            &mut self.waiting,
            &mut self.dues,
            &mut self.flows,
            self.first_end,
            end,
        );
        self.dues.settle(end);
        self.row.next_start = end;
        self.row.ack = ack;
    }
}

/// Copies the flow of a SID, where something comes by itself for it before an end.
fn copy_if_due(
    flows: &FlowsBySid,
    sid: u16,
    end: u64,
    copied: &mut Vec<Flow>,
) -> Result<(), AllocError>
    ensures { OnOk result (copied.new.items ≡ copied.old.items ++ filter (is_due_stored end) (option_to_list (lookup (nat_eq sid) flows.now.entries))) }
{
    if let Some(flow) = flows.get(sid) {
        if flow.kind.is_timed() && flow.due < end {
            copied.push(*flow)?;
        }
    }
    Ok(())
}

/// Copies the flows for which something comes by itself before an end, in order, over what is there.
fn copy_due(
    dues: &Dues,
    flows: &FlowsBySid,
    end: u64,
    copied: &mut Vec<Flow>,
) -> Result<(), AllocError>
    requires noted { AreNoted dues.now flows.now.entries }
    requires rising { Rise 0 (map (λ e. e.0) flows.now.entries) last_sid }
    ensures { OnOk result (copied.new.items ≡ filter (is_due_stored end) (map (λ e. e.1) flows.now.entries)) }
{
    copied.clear();
    let mut from = 0;
    while let Some(sid) = dues.next_before(from, end) {
        copy_if_due(flows, sid as u16, end, copied)?;
        from = sid + 1;
    }
    Ok(())
}

/// Forgets the due times of SIDs that have no flow.
fn forget_absent(dues: &mut Dues, flows: &FlowsBySid)
    ensures { (sid due : ℕ) → IsSome (lookup (nat_eq sid) flows.now.entries) → IsDueFrom dues.old sid due → IsDueFrom dues.new sid due }
{
    for sid in 0..dues.sids() {
        if flows.get(sid).is_none() {
            dues.forget(sid);
        }
    }
}

/// Has the flow of this SID a lease that ends before this time?
fn has_ended(flows: &FlowsBySid, sid: u16, end: u64) -> bool
    ensures { result ≡ is_ended_in flows.now.entries end sid }
{
    match flows.get(sid) {
        Some(flow) => flow.lease.last < end,
        None => false,
    }
}

/// Forgets the waiting requests of flows whose leases end before this time.
fn forget_ended_requests(waiting: &mut Vec<Waiting>, flows: &FlowsBySid, end: u64)
    ensures { waiting.new.items ≡ filter (λ w. not (is_ended_in flows.now.entries end w.sid)) waiting.old.items }
{
    waiting.retain(
        |w: &Waiting| -> bool
            ensures { result ≡ not (is_ended_in flows.entry.now.entries end w.now.sid) }
        { !has_ended(flows, w.sid, end) },
    );
}

/// Forgets the flows whose leases end before this time, with what is kept of them. None ends before
/// the given time, and then before the result, so that they aren't looked at where none ends.
fn forget_all_ended(
    waiting: &mut Vec<Waiting>,
    dues: &mut Dues,
    flows: &mut FlowsBySid,
    first_end_before: u64,
    end: u64,
) -> u64
    requires { EndFrom first_end_before flows.old.entries }
    ensures requests { waiting.new.items ≡ filter (λ w. not (is_ended_in flows.old.entries end w.sid)) waiting.old.items }
    ensures dues { (sid due : ℕ) → IsSome (lookup (nat_eq sid) flows.new.entries) → IsDueFrom dues.old sid due → IsDueFrom dues.new sid due }
    ensures kept { flows.new.entries ≡ filter (λ e. nat_le end e.1.lease.last) flows.old.entries }
    ensures sids { flows.new.sids ≡ flows.old.sids }
    ensures ends { EndFrom result flows.new.entries }
{
    if end <= first_end_before {
        return first_end_before;
    }
    forget_ended_requests(waiting, flows, end);
    flows.forget_ended(end);
    forget_absent(dues, flows);
    flows.first_end()
}
