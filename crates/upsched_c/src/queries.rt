//! Rows of a scheduler, as C asks for them: a channel, a waiting request, a flow.

ghost use Rattle.std.specs.Prelude.{◌≡◌};
ghost use Rattle.upsched_c.specs.Handles.{held};
ghost use Rattle.upsched_c.specs.Machines.{AsMachine};
ghost use Rattle.upsched_c.specs.Queries.{channel_fields as channel_fields_lem, waiting_fields as waiting_fields_lem};
ghost use Rattle.upsched_c.specs.Queries.{flow_fields as flow_fields_lem, service_number as service_number_lem};
ghost use Rattle.upsched_c.specs.Queries.{AsksForRow, TellsChannel, TellsWaiting, TellsFlow};
ghost use Rattle.upsched_c.specs.Statuses.{Answers};

use crate::handle::{Handle, Held};
use crate::status::Status;
use flow_state::{ChannelTable, Flow, FlowKind, Waiting};
use std::alloc::Global;

/// A channel: where its next MAP begins, its Ack Time, and how many requests wait.
#[repr(C)]
#[derive(Clone, Copy)]
pub struct ChannelFields {
    pub next_start: u64,
    pub ack: u64,
    pub waiting: u32,
}

/// A request that waits: when it was sent, by which SID, and for how many minislots.
#[repr(C)]
#[derive(Clone, Copy)]
pub struct WaitingFields {
    pub sent: u64,
    pub sid: u16,
    pub minislots: u16,
}

/// A flow: when it is due next, the lease of its SID, and the number of its service.
#[repr(C)]
#[derive(Clone, Copy)]
pub struct FlowFields {
    pub due: u64,
    pub first: u64,
    pub last: u64,
    pub modem: u32,
    pub tag: u32,
    pub sid: u16,
    pub service: u8,
}

fn channel_fields(table: &ChannelTable) -> ChannelFields
    ensures { result ≡ channel_fields_lem table.now }
{
    let row = table.row();
    ChannelFields {
        next_start: row.next_start,
        ack: row.ack,
        waiting: table.requests().len() as u32,
    }
}

fn waiting_fields(waiting: &Waiting) -> WaitingFields
    ensures { result ≡ waiting_fields_lem waiting.now }
{
    WaitingFields {
        sent: waiting.sent,
        sid: waiting.sid,
        minislots: waiting.n,
    }
}

/// The number by which a command names the service.
fn service_number(kind: FlowKind) -> u8
    ensures { result ≡ service_number_lem kind }
{
    match kind {
        FlowKind::BestEffort(_) => 0,
        FlowKind::Ugs { .. } => 1,
        FlowKind::Poll { .. } => 2,
        FlowKind::Station { .. } => 3,
        FlowKind::Initial { .. } => 4,
    }
}

fn flow_fields(flow: &Flow) -> FlowFields
    ensures { result ≡ flow_fields_lem flow.now }
{
    let lease = flow.lease;
    FlowFields {
        due: flow.due,
        first: lease.first,
        last: lease.last,
        modem: lease.modem,
        tag: lease.tag,
        sid: lease.sid,
        service: service_number(flow.kind),
    }
}

fn tell_channel(value: &Held, ch: u8, channel: &mut ChannelFields) -> Status
    ensures { AsMachine (TellsChannel ch) value.now channel.old value.now channel.new result }
{
    let Held::Machine(scheduler) = value else {
        return Status::OtherKind;
    };
    let Some(table) = scheduler.flows().table(ch) else {
        return Status::Absent;
    };
    *channel = channel_fields(table);
    Status::Done
}

fn tell_channel_by(
    alloc: Global,
    handle: &mut Handle,
    ch: u8,
    channel: &mut ChannelFields,
) -> Status
    ensures { AsksForRow (TellsChannel ch) (held handle.old) channel.old (held handle.new) channel.new result }
{
    let Some(value) = handle.take(alloc) else {
        return Status::Closed;
    };
    let status = tell_channel(&value, ch, channel);
    handle.put(value);
    status
}

/// A channel that is set.
#[unsafe(no_mangle)]
pub extern "C" fn upsched_c_machine_channel(
    alloc: Global,
    handle: &mut Handle,
    ch: u8,
    channel: &mut ChannelFields,
) -> i32
    ensures { Answers result (AsksForRow (TellsChannel ch) (held handle.old) channel.old (held handle.new) channel.new) }
{
    tell_channel_by(alloc, handle, ch, channel).number()
}

fn tell_waiting(value: &Held, ch: u8, k: u32, waiting: &mut WaitingFields) -> Status
    ensures { AsMachine (TellsWaiting ch k) value.now waiting.old value.now waiting.new result }
{
    let Held::Machine(scheduler) = value else {
        return Status::OtherKind;
    };
    let Some(found) = scheduler.flows().waiting(ch, k as usize) else {
        return Status::Absent;
    };
    *waiting = waiting_fields(found);
    Status::Done
}

fn tell_waiting_by(
    alloc: Global,
    handle: &mut Handle,
    ch: u8,
    k: u32,
    waiting: &mut WaitingFields,
) -> Status
    ensures { AsksForRow (TellsWaiting ch k) (held handle.old) waiting.old (held handle.new) waiting.new result }
{
    let Some(value) = handle.take(alloc) else {
        return Status::Closed;
    };
    let status = tell_waiting(&value, ch, k, waiting);
    handle.put(value);
    status
}

/// The channel's waiting request number k, by arrival, from 0.
#[unsafe(no_mangle)]
pub extern "C" fn upsched_c_machine_waiting(
    alloc: Global,
    handle: &mut Handle,
    ch: u8,
    k: u32,
    waiting: &mut WaitingFields,
) -> i32
    ensures { Answers result (AsksForRow (TellsWaiting ch k) (held handle.old) waiting.old (held handle.new) waiting.new) }
{
    tell_waiting_by(alloc, handle, ch, k, waiting).number()
}

fn tell_flow(value: &Held, ch: u8, sid: u16, flow: &mut FlowFields) -> Status
    ensures { AsMachine (TellsFlow ch sid) value.now flow.old value.now flow.new result }
{
    let Held::Machine(scheduler) = value else {
        return Status::OtherKind;
    };
    let Some(found) = scheduler.flows().flow_of(ch, sid) else {
        return Status::Absent;
    };
    *flow = flow_fields(found);
    Status::Done
}

fn tell_flow_by(
    alloc: Global,
    handle: &mut Handle,
    ch: u8,
    sid: u16,
    flow: &mut FlowFields,
) -> Status
    ensures { AsksForRow (TellsFlow ch sid) (held handle.old) flow.old (held handle.new) flow.new result }
{
    let Some(value) = handle.take(alloc) else {
        return Status::Closed;
    };
    let status = tell_flow(&value, ch, sid, flow);
    handle.put(value);
    status
}

/// The channel's flow that has a SID.
#[unsafe(no_mangle)]
pub extern "C" fn upsched_c_machine_flow(
    alloc: Global,
    handle: &mut Handle,
    ch: u8,
    sid: u16,
    flow: &mut FlowFields,
) -> i32
    ensures { Answers result (AsksForRow (TellsFlow ch sid) (held handle.old) flow.old (held handle.new) flow.new) }
{
    tell_flow_by(alloc, handle, ch, sid, flow).number()
}
