//! Requests that wait, by priority.

ghost use Rattle.std.specs.Prelude.{◌≡◌, ℕ, OnOk, IfOk, IsFalse, false};
ghost use Rattle.std.specs.List.{list_any, AllByRecursion};
ghost use Rattle.grant_machine_parts.specs.Cutting.{kind_priority, is_cause_sent, is_grant_of, place_requests};
ghost use Rattle.flow_state.specs.declared.flow.Waiting.{Waiting};
ghost use Rattle.grant_machine_parts.specs.Lent.{IsUnicast};
ghost use Rattle.grant_machine_parts.specs.Ranks.{requests_in, IsOfLast};
ghost use Rattle.grant_machine_parts.specs.Granted.{AreNumbered};
ghost use Rattle.grant_machine_parts.specs.Placing.{free_minislots};

use crate::placing::{Cause, Filling, Placement};
use crate::services::grant_iuc;
use flow_state::{Channel, FlowKind, Waiting};
use map_body::{Offset, Sid};
use std::alloc::AllocError;

/// A request with its flow's priority and the last minislot of its flow's lease.
#[derive(Clone, Copy, Debug)]
pub struct Ranked {
    pub priority: u8,
    pub last: u64,
    pub request: Waiting,
}

/// The priority of a flow's requests. A polled flow's come first.
pub fn kind_priority(kind: FlowKind) -> u8
    ensures { result ≡ kind_priority kind }
{
    match kind {
        FlowKind::BestEffort(priority) => priority,
        FlowKind::Ugs { .. } | FlowKind::Station { .. } | FlowKind::Initial { .. } => 0,
        FlowKind::Poll { .. } => 7,
    }
}

/// Places each request whole at its first fit within its lease, where there is one and so many minislots stay free.
pub fn place_requests(
    filling: &mut Filling,
    channel: &Channel,
    keep: u16,
    ranked: &[Ranked],
) -> Result<(), AllocError>
    requires { AllByRecursion IsUnicast ranked.now }
    ensures span { filling.new.span ≡ filling.old.span }
    ensures placed { OnOk result ((last : ℕ → ℕ) → AllByRecursion (IsOfLast last) ranked.now
        → filling.new.placements ≡ place_requests filling.old.span channel.now keep last (requests_in ranked.now) filling.old.placements) }
{
    let mut free = filling.free();
    for one in ranked {
        free = place_request(filling, channel, keep, one, free)?;
    }
    Ok(())
}

ghost use Rattle.std.specs.Prelude.{◌-◌, ◌∷◌, []};
ghost use Rattle.grant_machine_parts.specs.Cutting.{end_of};

/// Places a request whole at its first fit within its lease, where there is one and so many of the free minislots stay
/// free. How many are free then.
fn place_request(
    filling: &mut Filling,
    channel: &Channel,
    keep: u16,
    ranked: &Ranked,
    free: u16,
) -> Result<u16, AllocError>
    requires unicast { IsUnicast ranked.now }
    requires counted { free ≡ free_minislots filling.old.span filling.old.placements }
    ensures span { filling.new.span ≡ filling.old.span }
    ensures placed { OnOk result ((last : ℕ → ℕ) → IsOfLast last ranked.now
        → filling.new.placements ≡ place_requests filling.old.span channel.now keep last (ranked.now.request ∷ []) filling.old.placements) }
    ensures left { IfOk result (λ left. left ≡ free_minislots filling.new.span filling.new.placements) }
{
    let request = ranked.request;
    let n = request.n;
    if free < keep || free - keep < n {
        return Ok(free);
    }
    let hi = filling.end().saturating_sub(u64::from(n));
    let Some(x) = filling.first_fit(n, filling.start(), hi, ranked.last) else {
        return Ok(free);
    };
    filling.place(Placement {
        sid: Sid::new(request.sid).unwrap(),
        iuc: grant_iuc(channel, n),
        offset: Offset::new(x as u16).unwrap(),
        size: n,
        cause: Cause::Sent(request.sent),
    })?;
    Ok(free - n)
}

/// Was the request sent at this time the cause?
fn is_cause_sent(cause: Cause, time: u64) -> bool
    ensures { result ≡ is_cause_sent cause time }
{
    match cause {
        Cause::Window(_) => false,
        Cause::Sent(sent) => sent == time,
    }
}

/// Is it a request?
fn is_sent(cause: Cause) -> bool
    ensures { IsFalse result → (time : ℕ) → is_cause_sent cause time ≡ false }
{
    matches!(cause, Cause::Sent(_))
}

/// Is the request granted by one of the placements?
fn is_granted(placements: &[Placement], request: &Waiting) -> bool
    ensures { result ≡ list_any (is_grant_of request.now) placements.now }
{
    let sid = request.sid;
    let sent = request.sent;
    placements
        .iter()
        .any(|p| p.sid.get() == sid && is_cause_sent(p.cause, sent))
}

/// Is the placement the request's grant?
fn is_grant(placement: &Placement, request: &Waiting) -> bool
    ensures { result ≡ is_grant_of request.now placement.now }
{
    placement.sid.get() == request.sid && is_cause_sent(placement.cause, request.sent)
}

/// Where a request's grant is looked for first among some placements: for the SIDs of each remainder by 256 the number,
/// from 1, of one that serves a request of such a SID, and 0 where none does.
#[derive(Clone, Copy)]
pub struct Grants {
    pub(crate) numbers: [u8; 256],
}

impl Grants {
    /// The numbers of these placements.
    pub fn of(placements: &[Placement]) -> Grants
        ensures { AreNumbered result placements.now }
    {
        let mut numbers = [0u8; 256];
        for i in 0..placements.len() {
            let placement = placements[i];
            if is_sent(placement.cause) {
                numbers[usize::from(placement.sid.get() % 256)] = i.min(254) as u8 + 1;
            }
        }
        Grants { numbers }
    }

    /// Is the request granted by one of the placements that these are the numbers of?
    pub fn have(&self, placements: &[Placement], request: &Waiting) -> bool
        requires { AreNumbered self.now placements.now }
        ensures { result ≡ list_any (is_grant_of request.now) placements.now }
    {
        let number = usize::from(self.numbers[usize::from(request.sid % 256)]);
        if number == 0 {
            return false;
        }
        if let Some(placement) = placements.get(number - 1) {
            if is_grant(placement, request) {
                return true;
            }
        }
        is_granted(placements, request)
    }
}
