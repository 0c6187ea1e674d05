//! Lanes of nodes and modems, from the left.

ghost use Rattle.std.specs.Prelude.{◌≡◌, ◌≤◌, ◌<◌, ◌^◌, ◌+◌, slice_get, IfSome};
ghost use Rattle.run_picture.specs.Lanes.{lane_width, lane_x, lanes_end, node_lane, modem_lane, addressee_lane};
ghost use Rattle.run_picture.specs.Lanes.{lane_of, mark_x};

use ballots::Letter;
use world_events::Event;

/// How wide each of so many lanes is.
pub(crate) fn lane_width(lanes: u64) -> u64
    ensures value { result ≡ lane_width lanes }
    ensures small { result ≤ 136 }
{
    if lanes < 4 {
        136
    } else if lanes < 6 {
        118
    } else {
        104
    }
}

/// The middle of lane `k` of so many.
#[tactic(auto, using(crate::proofs::Sizes::lane_fits))]
pub(crate) fn lane_x(lanes: u64, k: u64) -> u64
    requires { k < 2 ^ 40 }
    ensures value { result ≡ lane_x lanes k }
    ensures small { result < 2 ^ 50 }
{
    let wide = lane_width(lanes);
    212 + (wide / 2 + k * wide)
}

/// Where the gutter on the right begins.
#[tactic(auto, using(crate::proofs::Sizes::lane_fits))]
pub(crate) fn lanes_end(lanes: u64) -> u64
    requires { lanes < 2 ^ 40 }
    ensures value { result ≡ lanes_end lanes }
    ensures small { result < 2 ^ 50 }
{
    246 + lanes * lane_width(lanes)
}

/// The lane of a node, if there is one.
fn node_lane(members: u64, k: u64) -> Option<u64>
    ensures value { result ≡ node_lane members k }
    ensures small { IfSome result (λ k. k < members) }
{
    (k < members).then_some(k)
}

/// The lane of a modem, if there is one, behind those of the nodes.
fn modem_lane(members: u64, modems: u64, m: u64) -> Option<u64>
    requires members { members < 2 ^ 32 }
    requires modems { modems < 2 ^ 32 }
    ensures value { result ≡ modem_lane members modems m }
    ensures small { IfSome result (λ k. k < members + modems) }
{
    if m < modems {
        return Some(members + m);
    }
    None
}

/// The lane of a letter's addressee, if there is one.
fn addressee_lane(members: u64, letters: &[Letter], i: usize) -> Option<u64>
    ensures value { result ≡ addressee_lane members (slice_get letters.now i) }
    ensures small { IfSome result (λ k. k < members) }
{
    if i >= letters.len() {
        return None;
    }
    node_lane(members, u64::from(letters[i].to.number()))
}

/// Whose event it is: the lane of its node or modem, of a delivery that of the addressee.
pub(crate) fn lane_of(members: u64, modems: u64, letters: &[Letter], event: &Event) -> Option<u64>
    requires members { members < 2 ^ 32 }
    requires modems { modems < 2 ^ 32 }
    ensures value { result ≡ lane_of members modems letters.now event.now }
    ensures small { IfSome result (λ k. k < 2 ^ 40) }
{
    match event {
        Event::Lead(k) => node_lane(members, *k as u64),
        Event::Offer(k, _) => node_lane(members, *k as u64),
        Event::Tell(k, _, _) => node_lane(members, *k as u64),
        Event::Deliver(i) => addressee_lane(members, letters, *i),
        Event::DeliverThenCrash(i) => addressee_lane(members, letters, *i),
        Event::Crash(k) => node_lane(members, *k as u64),
        Event::Restart(k) => node_lane(members, *k as u64),
        Event::Release(k, _) => node_lane(members, *k as u64),
        Event::Hear(m, _, _) => modem_lane(members, modems, *m as u64),
        Event::Want(m, _, _, _) => modem_lane(members, modems, *m as u64),
        Event::Tick(m, _, _, _) => modem_lane(members, modems, *m as u64),
    }
}

/// Where an event of this lane is marked, or one of none.
pub(crate) fn mark_x(lanes: u64, lane: Option<u64>) -> u64
    requires { IfSome lane (λ k. k < 2 ^ 40) }
    ensures value { result ≡ mark_x lanes lane }
    ensures small { result < 2 ^ 50 }
{
    match lane {
        Some(k) => lane_x(lanes, k),
        None => 200,
    }
}
