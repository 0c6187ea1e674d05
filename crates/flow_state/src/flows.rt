use crate::at_channel;
use crate::channel::{Channel, ChannelRow};
use crate::flow::{Flow, FlowKind, Lease, Waiting};
use crate::reason::{Reason, if_so, why_bad_channel};
use crate::refusal::Refusal;
use crate::settings::ChannelSettings;
use crate::table::ChannelTable;
use crate::whole::{NotAdopted, WholeTable};
use indexmap::IndexMap;
use std::alloc::Global;
use std::marker::Model;

/// The rows of all channels: what is set, the service flows and the waiting requests. A refusal
/// changes nothing.
#[derive(Drop)]
pub struct Flows {
    tables: IndexMap<u8, ChannelTable>,
}

impl Model for Flows {
    ghost use Rattle.flow_state.specs.Rows.{Rows};

    ghost Value = { Rows };

    ghost use Rattle.flow_state.specs.Entries.{rows_of};
    ghost use Rattle.flow_state.specs.Kept.{IsKept};

    ghost view = { λ a. rows_of a.tables.entries };

    ghost invariant = { IsKept };
}

impl Flows {
    ghost use Rattle.std.specs.Prelude.{◌≡◌, List, [], ◌∷◌, ◌++◌, length, slice_get, Some, is_some, IsTrue, IsOk, OnOk};
    ghost use Rattle.std.specs.Prelude.{OnErr, IfOk, IfErr, IfSome, ◌<◌, ◌≤◌};
    ghost use Rattle.std.specs.Fn.{CalledAt};
    ghost use Rattle.std.specs.List.{AllByRecursion};
    ghost use Rattle.std.specs.List.Retain.{IsFiltered};
    ghost use Rattle.std.specs.Option.{option_copied, option_map};
    ghost use Rattle.flow_state.specs.Limits.{IsDueTime, is_good_kind, last_sid, most_waiting};
    ghost use Rattle.flow_state.specs.Sound.{IsSound};
    ghost use Rattle.flow_state.specs.Firm.{AreFirm, table_in, IsAdoptable, Declines};
    ghost use Rattle.flow_state.specs.Rows.{FlowRow, Table, table_of, lent_flow, channel_at, flow_at, waiting_at};
    ghost use Rattle.flow_state.specs.Refusals.{Refuses, set_channel_refusal, change_channel_refusal, add_flow_refusal};
    ghost use Rattle.flow_state.specs.Refusals.{drop_flow_refusal, request_refusal};
    ghost use Rattle.flow_state.specs.Reasons.{reason_refusal, why_set_channel, why_on, why_change, why_flow, why_drop};
    ghost use Rattle.flow_state.specs.Reasons.{why_request};
    ghost use Rattle.flow_state.specs.Changes.{with_channel, with_settings_on, is_known, lease_given, with_flow};
    ghost use Rattle.flow_state.specs.Changes.{without_flow, with_request, is_waiting, without_waiting, with_waiting};
    ghost use Rattle.flow_state.specs.Changes.{waiting_of, flow_row, with_due, with_cut_closed, TellsDue};
    ghost use Rattle.flow_state.specs.Changes.{with_cut_finished};

    /// No channel is set.
    pub fn new(alloc: Global) -> Flows
        ensures { result ≡ [] }
    {
        Flows {
            tables: IndexMap::new(alloc),
        }
    }

    /// Sets a channel, which stays: its first MAP begins at its base, its Ack Time is 0. Refused are
    /// values outside the limits and then a channel that is set.
    pub fn set_channel(&mut self, channel: Channel) -> Result<(), Refusal>
        ensures ok { OnOk result ((set_channel_refusal self.old channel ≡ None) × (self.new ≡ with_channel self.old channel)) }
        ensures err { IfErr result (λ refusal. Refuses (set_channel_refusal self.old channel) refusal × (self.new ≡ self.old)) }
    {
        at_channel::set_channel(&mut self.tables, channel)
    }

    /// Puts a whole table of a channel behind the others, as commands could have left it: its row with the settings as
    /// they stand, its leases, flows and waiting requests. Refused is one that no commands could leave (a value outside
    /// the limits, a lease that begins behind the next start or ends before it begins, a gap in the leases, a flow
    /// without its lease, a next due time that is none of the flow's, a waiting request that isn't its flow's last one,
    /// two of one SID, or more than 118), and one of a channel that is set.
    pub fn adopt(&mut self, table: &WholeTable) -> Result<(), NotAdopted>
        ensures ok { OnOk result (IsAdoptable self.old table.now × (self.new ≡ self.old ++ table_in table.now ∷ [])) }
        ensures err { OnErr result (self.new ≡ self.old) }
        ensures refused { IfErr result (Declines (IsAdoptable self.old table.now)) }
        ensures firm { OnOk result (AreFirm self.old → AreFirm self.new) }
    {
        at_channel::adopt(&mut self.tables, table)
    }

    /// Gives a channel that is set another UCD Count, PHY, size of short grants and back-offs. All else of it goes on:
    /// where its next MAP begins, its Ack Time, leases, flows, due times and waiting requests. It takes no memory.
    /// Refused are a channel that isn't set, and then values outside the limits, a count that is neither the channel's
    /// nor the next one, and under the channel's count another PHY or size of short grants.
    pub fn change_channel(&mut self, ch: u8, settings: ChannelSettings) -> Result<(), Refusal>
        ensures ok { OnOk result ((change_channel_refusal self.old ch settings ≡ None) × (self.new ≡ with_settings_on self.old ch settings)) }
        ensures err { IfErr result (λ refusal. (change_channel_refusal self.old ch settings ≡ Some refusal) × (self.new ≡ self.old)) }
    {
        at_channel::change_channel(&mut self.tables, ch, settings)
    }

    /// Adds a flow, and answers the lease of its SID, which ends with the last minislot that is asked
    /// for: that of the least SID which was never given or whose latest lease is over, from minislot 0
    /// on where it was never given, and else from that of the channel's next MAP on. Where modem and tag
    /// have a lease that isn't over, it is answered again, which changes nothing and takes no memory.
    /// Refused are a channel that isn't set, then values outside the limits (a last minislot above 2^62
    /// or before the next MAP too), then a channel whose SIDs are all leased.
    pub fn add_flow(
        &mut self,
        ch: u8,
        modem: u32,
        tag: u32,
        last: u64,
        kind: FlowKind,
    ) -> Result<Lease, Refusal>
        ensures ok { OnOk result ((add_flow_refusal self.old ch modem tag last kind ≡ None) × (self.new ≡ with_flow self.old ch modem tag last kind)) }
        ensures lease { IfOk result (λ lease. lease ≡ lease_given self.old ch modem tag last) }
        ensures known { IsTrue (is_known self.old ch modem tag) → IsOk result }
        ensures err { IfErr result (λ refusal. Refuses (add_flow_refusal self.old ch modem tag last kind) refusal × (self.new ≡ self.old)) }
    {
        at_channel::add_flow(&mut self.tables, ch, modem, tag, last, kind)
    }

    /// Drops a flow and its waiting request. The lease of its SID goes on to its end. It takes no memory.
    pub fn drop_flow(&mut self, ch: u8, sid: u16) -> Result<(), Refusal>
        ensures ok { OnOk result ((drop_flow_refusal self.old ch sid ≡ None) × (self.new ≡ without_flow self.old ch sid)) }
        ensures err { IfErr result (λ refusal. (drop_flow_refusal self.old ch sid ≡ Some refusal) × (self.new ≡ self.old)) }
    {
        at_channel::drop_flow(&mut self.tables, ch, sid)
    }

    /// Accepts a request for n minislots, 1 to 255, that was sent at a minislot time within the flow's lease
    /// (CM-SP-MULPIv3.1, Request). Refused are, in this order, a channel that isn't set, a SID
    /// without a flow, values outside the limits (a time behind the lease too) or an unsolicited grant
    /// flow, a request sent before the lease or no later than the last accepted one of it, and a SID of
    /// which one waits or a channel on which 118 wait.
    pub fn request(&mut self, ch: u8, sid: u16, n: u16, sent: u64) -> Result<(), Refusal>
        ensures ok { OnOk result ((request_refusal self.old ch sid n sent ≡ None) × (self.new ≡ with_request self.old ch sid n sent)) }
        ensures err { IfErr result (λ refusal. Refuses (request_refusal self.old ch sid n sent) refusal × (self.new ≡ self.old)) }
    {
        at_channel::request(&mut self.tables, ch, sid, n, sent)
    }

    /// The channel's row. What holds of every table holds of the channel's.
    pub fn channel(&self, ch: u8) -> Option<&ChannelRow>
        ensures row { option_copied result ≡ channel_at self.now ch }
        ensures sound { IfSome (table_of self.now ch) IsSound }
    {
        match self.tables.get(&ch) {
            Some(table) => Some(table.row()),
            None => None,
        }
    }

    /// The channel's flow number k, by SID, from 0. Its kind is within the limits. It takes time for the SIDs below.
    pub fn flow(&self, ch: u8, k: usize) -> Option<&Flow>
        ensures row { option_copied result ≡ flow_at self.now ch k }
        ensures good { IfSome result (λ flow. IsTrue (is_good_kind flow.now.kind)) }
        ensures unicast { IfSome result (λ flow. (1 ≤ flow.now.lease.sid) × (flow.now.lease.sid ≤ last_sid)) }
    {
        match self.tables.get(&ch) {
            Some(table) => table.flow(k),
            None => None,
        }
    }

    /// The channel's table, for reading. What holds of every table holds of it.
    pub fn table(&self, ch: u8) -> Option<&ChannelTable>
        ensures { option_copied result ≡ table_of self.now ch }
    {
        self.tables.get(&ch)
    }

    /// How many channels are set, 256 at most.
    pub fn channels(&self) -> usize
        ensures { result ≡ length self.now }
    {
        self.tables.len()
    }

    /// Table number k, in the order in which channels were set, from 0, for reading. What holds of every table holds
    /// of it.
    pub fn table_at(&self, k: usize) -> Option<&ChannelTable>
        ensures { option_copied result ≡ slice_get self.now k }
    {
        match self.tables.get_index(k) {
            Some((_, table)) => Some(table),
            None => None,
        }
    }

    /// The channel's flow that has the SID.
    pub fn flow_of(&self, ch: u8, sid: u16) -> Option<&Flow>
        ensures { option_copied result ≡ option_map lent_flow (flow_row self.now ch sid) }
    {
        match self.tables.get(&ch) {
            Some(table) => table.flow_of(sid),
            None => None,
        }
    }

    /// The channel's waiting request number k, by arrival, from 0. At most 118 wait.
    pub fn waiting(&self, ch: u8, k: usize) -> Option<&Waiting>
        ensures row { option_copied result ≡ waiting_at self.now ch k }
        ensures few { IfSome result (λ _. k < most_waiting) }
    {
        match self.tables.get(&ch) {
            Some(table) => table.waiting(k),
            None => None,
        }
    }

    /// Why a channel may not be set: the first limit that refuses. None exactly where `set_channel` refuses nothing. It
    /// takes no memory, as the others.
    pub fn why_set_channel(&self, channel: Channel) -> Option<Reason>
        ensures why { result ≡ why_set_channel self.now channel }
        ensures refusal { option_map reason_refusal result ≡ set_channel_refusal self.now channel }
    {
        let there = Reason::ChannelThere { ch: channel.id };
        why_bad_channel(channel).or(if_so(self.tables.contains_key(&channel.id), there))
    }

    /// Why a channel may not be given these settings, as `change_channel` refuses.
    pub fn why_change(&self, ch: u8, settings: ChannelSettings) -> Option<Reason>
        ensures why { result ≡ why_on self.now ch (λ t. why_change t settings) }
        ensures refusal { option_map reason_refusal result ≡ change_channel_refusal self.now ch settings }
    {
        match self.tables.get(&ch) {
            Some(table) => table.why_change(settings),
            None => Some(Reason::NoChannel { ch }),
        }
    }

    /// Why a flow may not be added, as `add_flow` refuses.
    pub fn why_flow(
        &self,
        ch: u8,
        modem: u32,
        tag: u32,
        last: u64,
        kind: FlowKind,
    ) -> Option<Reason>
        ensures why { result ≡ why_on self.now ch (λ t. why_flow t modem tag last kind) }
        ensures refusal { option_map reason_refusal result ≡ add_flow_refusal self.now ch modem tag last kind }
    {
        match self.tables.get(&ch) {
            Some(table) => table.why_flow(modem, tag, last, kind),
            None => Some(Reason::NoChannel { ch }),
        }
    }

    /// Why a flow may not be dropped, as `drop_flow` refuses.
    pub fn why_drop(&self, ch: u8, sid: u16) -> Option<Reason>
        ensures why { result ≡ why_on self.now ch (λ t. why_drop t sid) }
        ensures refusal { option_map reason_refusal result ≡ drop_flow_refusal self.now ch sid }
    {
        match self.tables.get(&ch) {
            Some(table) => table.why_drop(sid),
            None => Some(Reason::NoChannel { ch }),
        }
    }

    /// Why a request is refused, as `request` refuses it.
    pub fn why_request(&self, ch: u8, sid: u16, n: u16, sent: u64) -> Option<Reason>
        ensures why { result ≡ why_on self.now ch (λ t. why_request t sid n sent) }
        ensures refusal { option_map reason_refusal result ≡ request_refusal self.now ch sid n sent }
    {
        match self.tables.get(&ch) {
            Some(table) => table.why_request(sid, n, sent),
            None => Some(Reason::NoChannel { ch }),
        }
    }

    /// Takes the SID's waiting request out. False where there is none. It takes no memory.
    pub fn granted(&mut self, ch: u8, sid: u16) -> bool
        ensures found { result ≡ is_waiting self.old ch sid }
        ensures rows { self.new ≡ without_waiting self.old ch sid }
    {
        at_channel::granted(&mut self.tables, ch, sid)
    }

    /// Keeps those of the channel's waiting requests that are accepted, in one pass by arrival, and
    /// changes nothing else. It takes no memory.
    pub fn keep_waiting<F: FnMut(&Waiting) -> bool>(&mut self, ch: u8, keep: F)
        requires { F.IsAlwaysCallable keep }
        ensures { (kept : List Waiting) × IsFiltered (CalledAt F.FnMut) keep (waiting_of (table_of self.old ch)) kept
            × (self.new ≡ with_waiting self.old ch kept) }
    {
        at_channel::keep_waiting(&mut self.tables, ch, keep);
    }

    /// Sets the flow's next due time, which is one of its due times. False where there is no such
    /// flow. It takes no memory.
    pub fn set_due(&mut self, ch: u8, sid: u16, due: u64) -> bool
        requires { (row : FlowRow) → flow_row self.old ch sid ≡ Some row → IsDueTime row.kind due }
        ensures found { result ≡ is_some (flow_row self.old ch sid) }
        ensures rows { self.new ≡ with_due self.old ch sid due }
    {
        at_channel::set_due(&mut self.tables, ch, sid, due)
    }

    /// Sets the start of the channel's next MAP and its Ack Time. The flows whose leases end before that
    /// start are gone, with their waiting requests. False where there is no such channel. It takes no
    /// memory.
    pub fn close_cut(&mut self, ch: u8, end: u64, ack: u64) -> bool
        ensures found { result ≡ is_some (table_of self.old ch) }
        ensures rows { self.new ≡ with_cut_closed self.old ch end ack }
    {
        at_channel::close_cut(&mut self.tables, ch, end, ack)
    }

    /// Finishes a cut of the channel: sets the next due times of flows, which are among their due times, keeps
    /// those of the waiting requests that are accepted, by arrival, and then sets the start of the channel's next
    /// MAP and its Ack Time, as `close_cut` does. False where there is no such channel. It takes no memory.
    pub fn finish_cut<F: FnMut(&Waiting) -> bool>(
        &mut self,
        ch: u8,
        served: &[Flow],
        keep: F,
        end: u64,
        ack: u64,
    ) -> bool
        requires callable { F.IsAlwaysCallable keep }
        requires dues { (t : Table) → table_of self.old ch ≡ Some t → AllByRecursion (TellsDue t) served.now }
        ensures found { result ≡ is_some (table_of self.old ch) }
        ensures rows { (kept : List Waiting) × IsFiltered (CalledAt F.FnMut) keep (waiting_of (table_of self.old ch)) kept
            × (self.new ≡ with_cut_finished self.old ch served.now kept end ack) }
    {
        at_channel::finish_cut(&mut self.tables, ch, served, keep, end, ack)
    }
}
