//! What a modem knows of a channel, the leases of its SIDs and its wants. Crates above see channels by the functions of
//! `specs/` alone.

/// A channel that the modem knows: its UCD Count, its clock (a minislot) and the latest data back-offs, start
/// and end.
#[derive(Clone, Copy)]
pub(crate) struct Channel {
    pub id: u8,
    pub ucd: u8,
    pub clock: u64,
    pub backoff: (u8, u8),
}

/// A lease: a SID of a channel is the modem's from the minislot `first` to the minislot `last`.
#[derive(Clone, Copy, Debug, PartialEq, Eq)]
pub struct OwnLease {
    pub channel: u8,
    pub sid: u16,
    pub first: u64,
    pub last: u64,
}

/// How far a want has come.
#[derive(Clone, Copy, Debug, PartialEq, Eq)]
pub enum Progress {
    /// Not sent; the request minislots that it still lets pass, once drawn.
    Unsent(Option<u16>),
    /// Sent at this minislot.
    Sent(u64),
}

/// A request that the modem wants to send, or has sent: `n` minislots for a SID of a channel, after so many tries.
#[derive(Clone, Copy, Debug, PartialEq, Eq)]
pub struct Want {
    pub channel: u8,
    pub sid: u16,
    pub n: u16,
    pub tries: u8,
    pub progress: Progress,
}
