//! What a modem does next.

use map_body::Iuc;

/// What a modem does at a minislot.
#[derive(Clone, Copy, Debug, PartialEq, Eq)]
pub enum Action {
    /// It uses a grant of a SID by an IUC, which it keeps from a first minislot to a last one.
    Grant {
        sid: u16,
        iuc: Iuc,
        first: u64,
        last: u64,
    },
    /// It sends the SID's request for `n` minislots at a poll.
    Poll {
        sid: u16,
        n: u16,
    },
    /// The SID's request for `n` minislots takes part where all may request: it is sent, or its number falls by 1.
    Contention {
        sid: u16,
        n: u16,
    },
    /// The SID's want goes, as its last lease ends.
    LeaseEnd {
        sid: u16,
    },
    /// It uses a ranging opportunity of a SID, which it keeps from a first minislot to a last one.
    Ranging {
        sid: u16,
        first: u64,
        last: u64,
    },
}

/// The next minislot of a channel at which a modem does something.
#[derive(Clone, Copy, Debug, PartialEq, Eq)]
pub struct NextEvent {
    /// A minislot below 2^63.
    pub slot: u64,
    pub action: Action,
}
