//! What comes by itself for the flows of a channel.

ghost use Rattle.std.specs.Prelude.{◌≡◌, ◌<◌, ◌≤◌, map, IfOk, OnOk, IfSome};
ghost use Rattle.std.specs.List.{AllByRecursion};
ghost use Rattle.map_body.specs.Iucs as iucs;
ghost use Rattle.flow_state.specs.Limits.{due_time, due_index};
ghost use Rattle.flow_state.specs.View.{flow_view};
ghost use Rattle.grant_machine_parts.specs.Cutting.{grant_iuc, unsolicited_iuc, run_flow, pass};
ghost use Rattle.grant_machine_parts.specs.Filling.{last_due};
ghost use Rattle.grant_machine_parts.specs.Lent.{IsLent, given, given_to, use_given, schedule_of};

use crate::due_times::Periodic;
use crate::placing::Filling;
use flow_state::{Channel, Flow, FlowKind, Phy};
use map_body::{Iuc, Sid};
use std::alloc::AllocError;

/// Which flows are served.
#[derive(Clone, Copy, Debug)]
pub enum Service {
    /// Unsolicited grants.
    Grants,
    Polls,
    /// Intervals of station maintenance and of initial maintenance.
    Maintenance,
}

/// The use of a grant of n minislots to a request, and of a request for n that waits.
pub fn grant_iuc(channel: &Channel, n: u16) -> Iuc
    ensures same { result ≡ grant_iuc channel.now n }
    ensures used { result < iucs.expansion }
{
    let is_short = n <= channel.short_max;
    match (channel.phy, is_short) {
        (Phy::Tdma, true) => Iuc::SHORT_DATA_GRANT,
        (Phy::Tdma, false) => Iuc::LONG_DATA_GRANT,
        (Phy::Advanced, true) => Iuc::ADVANCED_SHORT_DATA_GRANT,
        (Phy::Advanced, false) => Iuc::ADVANCED_LONG_DATA_GRANT,
    }
}

/// The use of an unsolicited grant of n minislots.
fn unsolicited_iuc(channel: &Channel, n: u16) -> Iuc
    ensures same { result ≡ unsolicited_iuc channel.now n }
    ensures used { result < iucs.expansion }
{
    match channel.phy {
        Phy::Tdma => grant_iuc(channel, n),
        Phy::Advanced => Iuc::ADVANCED_UNSOLICITED_GRANT,
    }
}

/// The use of what a service gives flows of a kind, if anything.
fn use_given(service: Service, channel: &Channel, kind: FlowKind) -> Option<Iuc>
    ensures same { result ≡ use_given service channel.now kind }
    ensures used { IfSome result (λ iuc. iuc < iucs.expansion) }
{
    match (service, kind) {
        (Service::Grants, FlowKind::Ugs { size, .. }) => Some(unsolicited_iuc(channel, size)),
        (Service::Polls, FlowKind::Poll { .. }) => Some(Iuc::REQUEST),
        (Service::Maintenance, FlowKind::Station { .. }) => Some(Iuc::STATION_MAINTENANCE),
        (Service::Maintenance, FlowKind::Initial { .. }) => Some(Iuc::INITIAL_MAINTENANCE),
        _ => None,
    }
}

/// How many minislots are due at a time for flows of a kind, the interval of due times, the jitter and the base, where
/// something comes by itself.
fn schedule_of(kind: FlowKind) -> Option<(u16, u32, u32, u64)>
    ensures { result ≡ schedule_of kind }
{
    match kind {
        FlowKind::BestEffort(_) => None,
        FlowKind::Poll {
            interval,
            jitter,
            base,
        } => Some((1, interval, jitter, base)),
        FlowKind::Ugs {
            size,
            interval,
            jitter,
            base,
        }
        | FlowKind::Station {
            size,
            interval,
            jitter,
            base,
        }
        | FlowKind::Initial {
            size,
            interval,
            jitter,
            base,
        } => Some((size, interval, jitter, base)),
    }
}

/// What a service gives a flow, if anything.
fn periodic_of(service: Service, channel: &Channel, flow: &Flow) -> Option<Periodic>
    requires { IsLent flow.now }
    ensures same { result ≡ given service channel.now flow.now.lease.sid flow.now.lease.last flow.now.kind }
    ensures used { IfSome result (λ p. p.iuc < iucs.expansion) }
{
    let Some(iuc) = use_given(service, channel, flow.kind) else {
        return None;
    };
    let Some((size, interval, jitter, base)) = schedule_of(flow.kind) else {
        return None;
    };
    Some(Periodic {
        sid: Sid::new(flow.lease.sid).unwrap(),
        iuc,
        size,
        interval,
        jitter,
        base,
        last: flow.lease.last,
    })
}

/// Places what a service gives a flow before the MAP's end. The flow's next due time.
fn next_due(
    service: Service,
    channel: &Channel,
    filling: &mut Filling,
    flow: &Flow,
) -> Result<u64, AllocError>
    requires { IsLent flow.now }
    ensures span { filling.new.span ≡ filling.old.span }
    ensures placed { OnOk result (filling.new.placements
        ≡ (run_flow filling.old.span (given service channel.now flow.now.lease.sid flow.now.lease.last flow.now.kind)
        (due_index flow.now.kind flow.now.due) filling.old.placements).placements) }
    ensures index { IfOk result (λ due. due_index flow.now.kind due
        ≡ (run_flow filling.old.span (given service channel.now flow.now.lease.sid flow.now.lease.last flow.now.kind)
        (due_index flow.now.kind flow.now.due) filling.old.placements).index) }
    ensures is_due { IfOk result (λ due. due ≡ due_time flow.now.kind (due_index flow.now.kind due)) }
    ensures early { IfOk result (λ due. due ≤ last_due) }
{
    match periodic_of(service, channel, flow) {
        None => Ok(flow.due),
        Some(periodic) => {
            let first = (flow.due - periodic.base) / u64::from(periodic.interval);
            let next = periodic.run(filling, first)?;
            Ok(periodic.due_at(next))
        }
    }
}

/// Places what a service gives the flows of a channel, by SID, and sets their next due times.
pub fn serve(
    service: Service,
    channel: &Channel,
    filling: &mut Filling,
    flows: &mut [Flow],
) -> Result<(), AllocError>
    requires { AllByRecursion IsLent flows.old }
    ensures span { filling.new.span ≡ filling.old.span }
    ensures placed { OnOk result (filling.new.placements
        ≡ (pass filling.old.span (given_to service channel.now) (map flow_view flows.old) filling.old.placements).placements) }
    ensures flows { OnOk result (map flow_view flows.new
        ≡ (pass filling.old.span (given_to service channel.now) (map flow_view flows.old) filling.old.placements).flows) }
    ensures lent { OnOk result (AllByRecursion IsLent flows.new) }
{
    for flow in flows.iter_mut() {
        flow.due = next_due(service, channel, filling, flow)?;
    }
    Ok(())
}
