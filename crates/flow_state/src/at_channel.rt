//! Calls on the table of a channel, found by the channel's id.

ghost use Rattle.std.specs.Prelude.{◌≡◌, ◌≤◌, [], ◌∷◌, ◌++◌, List, map, length, None, Some, OnErr, nat_eq, is_some};
ghost use Rattle.std.specs.Prelude.{false, IsOk, OnOk, IfOk, IfErr, IsTrue};
ghost use Rattle.std.specs.Fn.{CalledAt};
ghost use Rattle.std.specs.List.{AllByRecursion, range_with_len};
ghost use Rattle.std.specs.List.Retain.{IsFiltered};
ghost use Rattle.std.specs.Option.{option_map_or};
ghost use Rattle.indexmap.specs.IndexMap.{get, IsUnique};
ghost use Rattle.flow_state.specs.Entries.{AreIds, rows_of, change_entry, on_entry, entry_refusal};
ghost use Rattle.flow_state.specs.Limits.{IsDueTime, last_sid};
ghost use Rattle.flow_state.specs.StoredTable.{MayBePut};
ghost use Rattle.flow_state.specs.View.{flow_view};
ghost use Rattle.flow_state.specs.Tests.{is_firm_whole};
ghost use Rattle.flow_state.specs.Firm.{RisingFrom, FitsChannel, table_in, IsAdoptable, Declines};
ghost use Rattle.flow_state.specs.Rows.{Table, FlowRow, flow_of, lease_of, waits, without_request};
ghost use Rattle.flow_state.specs.Refusals.{Refuses, table_change_refusal, table_flow_refusal, table_drop_refusal};
ghost use Rattle.flow_state.specs.Refusals.{table_request_refusal};
ghost use Rattle.flow_state.specs.Changes.{new_table, change_in_table, lease_on, flow_in_table, drop_in_table};
ghost use Rattle.flow_state.specs.Changes.{request_in_table, waiting_in_table, waiting_of, due_in_table, close_table};
ghost use Rattle.flow_state.specs.Changes.{TellsDue, told_in_table, finish_table};

use crate::channel::Channel;
use crate::flow::{Flow, FlowKind, Lease, Waiting};
use crate::refusal::Refusal;
use crate::settings::ChannelSettings;
use crate::table::ChannelTable;
use crate::whole::{NotAdopted, WholeTable};
use indexmap::IndexMap;
use std::alloc::{AllocError, Global};

/// Sets a channel.
pub(crate) fn set_channel(
    tables: &mut IndexMap<u8, ChannelTable>,
    channel: Channel,
) -> Result<(), Refusal>
    ensures ok { OnOk result ((entry_refusal tables.old.entries channel ≡ None)
        × (tables.new.entries ≡ tables.old.entries ++ (channel.id, new_table channel) ∷ [])) }
    ensures err { IfErr result (λ refusal. Refuses (entry_refusal tables.old.entries channel) refusal × (tables.new.entries ≡ tables.old.entries)) }
    ensures unique { IsUnique nat_eq tables.old → IsUnique nat_eq tables.new }
{
    if !channel.is_good() {
        return Err(Refusal::BadValue);
    }
    if tables.contains_key(&channel.id) {
        return Err(Refusal::ChannelThere);
    }
    let table = ChannelTable::new(*tables.allocator(), channel);
    tables.insert(channel.id, table)?;
    Ok(())
}

/// Puts leases, which are those of SIDs 1, 2 and so on, into a table of which no SID was given.
fn put_leases(table: &mut ChannelTable, leases: &[Lease]) -> Result<(), AllocError>
    requires none { table.old.leases ≡ [] }
    requires order { map (λ l. l.sid) leases.now ≡ range_with_len 1 (length leases.now) }
    requires few { length leases.now ≤ last_sid }
    ensures { OnOk result (table.new ≡ record table.old { leases = leases.now }) }
{
    for lease in leases {
        table.put_lease(*lease)?;
    }
    Ok(())
}

/// Puts flows, by SID and under the leases of their SIDs, into a table that has none.
fn put_flows(table: &mut ChannelTable, flows: &[Flow]) -> Result<(), AllocError>
    requires none { table.old.flows ≡ [] }
    requires rising { RisingFrom 1 (map flow_view flows.now) }
    requires stored { AllByRecursion (MayBePut table.old) flows.now }
    ensures { OnOk result (table.new ≡ record table.old { flows = map flow_view flows.now }) }
{
    for flow in flows {
        table.put_flow(*flow)?;
    }
    Ok(())
}

/// The table that a whole table is.
fn table_of_whole(alloc: Global, whole: &WholeTable) -> Result<ChannelTable, AllocError>
    requires firm { IsTrue (is_firm_whole whole.now) }
    requires fits { FitsChannel whole.now.row.channel }
    ensures { IfOk result (λ table. table ≡ table_in whole.now) }
{
    let mut table = ChannelTable::of_row(alloc, whole.row);
    put_leases(&mut table, &whole.leases)?;
    put_flows(&mut table, &whole.flows)?;
    table.put_requests(&whole.waiting)?;
    Ok(table)
}

/// Puts a whole table behind the others.
pub(crate) fn adopt(
    tables: &mut IndexMap<u8, ChannelTable>,
    whole: &WholeTable,
) -> Result<(), NotAdopted>
    requires ids { AreIds tables.old.entries }
    requires unique { IsUnique nat_eq tables.old }
    ensures ok { OnOk result (IsAdoptable (rows_of tables.old.entries) whole.now
        × (tables.new.entries ≡ tables.old.entries ++ (whole.now.row.channel.id, table_in whole.now) ∷ [])) }
    ensures err { OnErr result (tables.new.entries ≡ tables.old.entries) }
    ensures refused { IfErr result (Declines (IsAdoptable (rows_of tables.old.entries) whole.now)) }
    ensures unique { IsUnique nat_eq tables.new }
{
    let id = whole.row.channel.id;
    if !whole.is_firm() {
        return Err(NotAdopted::NotFirm);
    }
    if tables.contains_key(&id) {
        return Err(NotAdopted::NotFirm);
    }
    let Ok(table) = table_of_whole(*tables.allocator(), whole) else {
        return Err(NotAdopted::OutOfMemory);
    };
    let Ok(_) = tables.insert(id, table) else {
        return Err(NotAdopted::OutOfMemory);
    };
    Ok(())
}

/// Gives the channel these settings.
#[tactic(auto, using(std::proofs::lemmas::Map::Steps::set_value_same))]
pub(crate) fn change_channel(
    tables: &mut IndexMap<u8, ChannelTable>,
    ch: u8,
    settings: ChannelSettings,
) -> Result<(), Refusal>
    ensures ok { OnOk result ((on_entry tables.old.entries ch (λ t. table_change_refusal t settings) ≡ None)
        × (tables.new.entries ≡ change_entry tables.old.entries ch (λ t. change_in_table t settings))) }
    ensures err { IfErr result (λ refusal. (on_entry tables.old.entries ch (λ t. table_change_refusal t settings) ≡ Some refusal)
        × (tables.new.entries ≡ tables.old.entries)) }
    ensures unique { IsUnique nat_eq tables.old → IsUnique nat_eq tables.new }
{
    match tables.get_mut(&ch) {
        Some(table) => table.change(settings),
        None => Err(Refusal::NoChannel),
    }
}

/// Adds a flow to the channel.
#[tactic(auto, using(std::proofs::lemmas::Map::Steps::set_value_same))]
pub(crate) fn add_flow(
    tables: &mut IndexMap<u8, ChannelTable>,
    ch: u8,
    modem: u32,
    tag: u32,
    last: u64,
    kind: FlowKind,
) -> Result<Lease, Refusal>
    ensures ok { OnOk result ((on_entry tables.old.entries ch (λ t. table_flow_refusal t modem tag last kind) ≡ None)
        × (tables.new.entries ≡ change_entry tables.old.entries ch (λ t. flow_in_table t modem tag last kind))) }
    ensures lease { IfOk result (λ lease. lease ≡ lease_on (get nat_eq tables.old ch) modem tag last) }
    ensures known { IsTrue (option_map_or (λ t. is_some (lease_of t modem tag)) (get nat_eq tables.old ch) false) → IsOk result }
    ensures err { IfErr result (λ refusal. Refuses (on_entry tables.old.entries ch (λ t. table_flow_refusal t modem tag last kind)) refusal
        × (tables.new.entries ≡ tables.old.entries)) }
    ensures unique { IsUnique nat_eq tables.old → IsUnique nat_eq tables.new }
{
    match tables.get_mut(&ch) {
        Some(table) => table.add_flow(modem, tag, last, kind),
        None => Err(Refusal::NoChannel),
    }
}

/// Drops a flow of the channel.
#[tactic(auto, using(std::proofs::lemmas::Map::Steps::set_value_same))]
pub(crate) fn drop_flow(
    tables: &mut IndexMap<u8, ChannelTable>,
    ch: u8,
    sid: u16,
) -> Result<(), Refusal>
    ensures ok { OnOk result ((on_entry tables.old.entries ch (λ t. table_drop_refusal t sid) ≡ None)
        × (tables.new.entries ≡ change_entry tables.old.entries ch (λ t. drop_in_table t sid))) }
    ensures err { IfErr result (λ refusal. (on_entry tables.old.entries ch (λ t. table_drop_refusal t sid) ≡ Some refusal)
        × (tables.new.entries ≡ tables.old.entries)) }
    ensures unique { IsUnique nat_eq tables.old → IsUnique nat_eq tables.new }
{
    match tables.get_mut(&ch) {
        Some(table) => table.drop_flow(sid),
        None => Err(Refusal::NoChannel),
    }
}

/// Accepts a request on the channel.
#[tactic(auto, using(std::proofs::lemmas::Map::Steps::set_value_same))]
pub(crate) fn request(
    tables: &mut IndexMap<u8, ChannelTable>,
    ch: u8,
    sid: u16,
    n: u16,
    sent: u64,
) -> Result<(), Refusal>
    ensures ok { OnOk result ((on_entry tables.old.entries ch (λ t. table_request_refusal t sid n sent) ≡ None)
        × (tables.new.entries ≡ change_entry tables.old.entries ch (λ t. request_in_table t sid n sent))) }
    ensures err { IfErr result (λ refusal. Refuses (on_entry tables.old.entries ch (λ t. table_request_refusal t sid n sent)) refusal
        × (tables.new.entries ≡ tables.old.entries)) }
    ensures unique { IsUnique nat_eq tables.old → IsUnique nat_eq tables.new }
{
    match tables.get_mut(&ch) {
        Some(table) => table.request(sid, n, sent),
        None => Err(Refusal::NoChannel),
    }
}

/// Takes a waiting request of the channel out.
pub(crate) fn granted(tables: &mut IndexMap<u8, ChannelTable>, ch: u8, sid: u16) -> bool
    ensures found { result ≡ option_map_or (λ t. waits t sid) (get nat_eq tables.old ch) false }
    ensures written { tables.new.entries ≡ change_entry tables.old.entries ch (λ t. without_request t sid) }
    ensures unique { IsUnique nat_eq tables.old → IsUnique nat_eq tables.new }
{
    match tables.get_mut(&ch) {
        Some(table) => table.granted(sid),
        None => false,
    }
}

/// Keeps the channel's waiting requests that are accepted.
pub(crate) fn keep_waiting<F: FnMut(&Waiting) -> bool>(
    tables: &mut IndexMap<u8, ChannelTable>,
    ch: u8,
    keep: F,
)
    requires { F.IsAlwaysCallable keep }
    ensures written { (kept : List Waiting) × IsFiltered (CalledAt F.FnMut) keep (waiting_of (get nat_eq tables.old ch)) kept
        × (tables.new.entries ≡ change_entry tables.old.entries ch (λ t. waiting_in_table t kept)) }
    ensures unique { IsUnique nat_eq tables.old → IsUnique nat_eq tables.new }
{
    if let Some(table) = tables.get_mut(&ch) {
        table.keep_waiting(keep);
    }
}

/// Sets the next due time of a flow of the channel.
pub(crate) fn set_due(tables: &mut IndexMap<u8, ChannelTable>, ch: u8, sid: u16, due: u64) -> bool
    requires { (t : Table) (f : FlowRow) → get nat_eq tables.old ch ≡ Some t → flow_of t sid ≡ Some f → IsDueTime f.kind due }
    ensures found { result ≡ option_map_or (λ t. is_some (flow_of t sid)) (get nat_eq tables.old ch) false }
    ensures written { tables.new.entries ≡ change_entry tables.old.entries ch (λ t. due_in_table t sid due) }
    ensures unique { IsUnique nat_eq tables.old → IsUnique nat_eq tables.new }
{
    match tables.get_mut(&ch) {
        Some(table) => table.set_due(sid, due),
        None => false,
    }
}

/// Sets the start of the channel's next MAP and its Ack Time.
pub(crate) fn close_cut(tables: &mut IndexMap<u8, ChannelTable>, ch: u8, end: u64, ack: u64) -> bool
    ensures found { result ≡ is_some (get nat_eq tables.old ch) }
    ensures written { tables.new.entries ≡ change_entry tables.old.entries ch (λ t. close_table t end ack) }
    ensures unique { IsUnique nat_eq tables.old → IsUnique nat_eq tables.new }
{
    match tables.get_mut(&ch) {
        Some(table) => {
            table.close_cut(end, ack);
            true
        }
        None => false,
    }
}

/// Sets the next due times of flows.
fn set_due_times(table: &mut ChannelTable, served: &[Flow])
    requires { AllByRecursion (TellsDue table.old) served.now }
    ensures { table.new ≡ told_in_table table.old served.now }
{
    for flow in served {
        table.set_due(flow.lease.sid, flow.due);
    }
}

/// Sets the next due times of the channel's flows, keeps its waiting requests that are accepted, and sets the start of
/// its next MAP and its Ack Time.
pub(crate) fn finish_cut<F: FnMut(&Waiting) -> bool>(
    tables: &mut IndexMap<u8, ChannelTable>,
    ch: u8,
    served: &[Flow],
    keep: F,
    end: u64,
    ack: u64,
) -> bool
    requires callable { F.IsAlwaysCallable keep }
    requires dues { (t : Table) → get nat_eq tables.old ch ≡ Some t → AllByRecursion (TellsDue t) served.now }
    ensures found { result ≡ is_some (get nat_eq tables.old ch) }
    ensures written { (kept : List Waiting) × IsFiltered (CalledAt F.FnMut) keep (waiting_of (get nat_eq tables.old ch)) kept
        × (tables.new.entries ≡ change_entry tables.old.entries ch (λ t. finish_table t served.now kept end ack)) }
    ensures unique { IsUnique nat_eq tables.old → IsUnique nat_eq tables.new }
{
    match tables.get_mut(&ch) {
        Some(table) => {
            set_due_times(table, served);
            table.keep_waiting(keep);
            table.close_cut(end, ack);
            true
        }
        None => false,
    }
}
