//! A channel's MAPs, leases and requests, as they are told.

use flow_state::FlowKind;

/// What a MAP left to requests: its longest run of free minislots, its placements, which are grants, polls and openings,
/// and how many minislots its cut kept free.
#[derive(Clone, Copy)]
pub struct Left {
    pub gap: u16,
    pub placed: u64,
    pub keep: u16,
}

/// A channel's MAPs: how many, where the last one begins and ends, and what it left.
#[derive(Clone, Copy)]
pub struct Reach {
    pub maps: u64,
    pub start: u64,
    pub end: u64,
    pub left: Left,
}

/// A lease, from its first minislot to its last one.
#[derive(Clone, Copy)]
pub struct Term {
    pub first: u64,
    pub last: u64,
}

/// A flow of a modem, by the command of this number, under a lease.
#[derive(Clone, Copy)]
pub struct Lease {
    pub command: u64,
    pub modem: u32,
    pub term: Term,
    pub kind: FlowKind,
}

/// A request for n minislots of the command of this number, sent at a time, that was accepted behind so many MAPs of
/// its channel.
#[derive(Clone, Copy)]
pub struct Ask {
    pub command: u64,
    pub n: u16,
    pub sent: u64,
    pub maps: u64,
}
