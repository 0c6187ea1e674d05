//! What deeds tell of flows.

ghost use Rattle.std.specs.Prelude.{◌≡◌, ◌+◌, ◌*◌, ◌^◌};
ghost use Rattle.plan_account.specs.Happenings.{gap_of, is_free, key_of, left_by, placed_in};

use crate::reach::Left;
use flow_state::FlowKind;
use map_body::{Interval, Iuc, Sid};

/// What happens to the flow of a SID, or to its channel.
#[derive(Clone, Copy)]
pub enum Happening {
    /// A flow of this kind is added for a modem by the command of this number, under a lease from its first minislot
    /// to its last one, or this lease is told again.
    Leased {
        command: u64,
        modem: u32,
        first: u64,
        last: u64,
        kind: FlowKind,
    },
    /// A request for n minislots of the command of this number, sent at this time, is accepted.
    Asked {
        command: u64,
        n: u16,
        sent: u64,
    },
    /// The flow is dropped.
    Dropped,
    /// An interval of the SID begins at this time. Its use may answer a request, or not.
    Given {
        at: u64,
        answers: bool,
    },
    /// The channel's last MAP tells that the SID's request waits.
    Waits,
    /// A MAP of the channel from a time to another, and what it left.
    Mapped {
        start: u64,
        end: u64,
        left: Left,
    },
}

/// A SID of a channel as one number.
pub(crate) fn key_of(ch: u8, sid: u16) -> u32
    ensures { result ≡ key_of ch sid }
{
    u32::from(ch) * (1 << 16) + u32::from(sid)
}

/// Whether an interval is free: everybody may ask in it. An opening for first ranging is none.
fn is_free(interval: &Interval) -> bool
    ensures { result ≡ is_free interval.now }
{
    interval.sid == Sid::EVERYBODY && interval.iuc == Iuc::REQUEST
}

/// The longest run of free minislots.
fn gap_of(found: &[Interval]) -> u16
    ensures { result ≡ gap_of found.now }
{
    let mut gap: u16 = 0;
    for interval in found {
        if is_free(interval) {
            gap = gap.max(interval.to.get().saturating_sub(interval.from.get()));
        }
    }
    gap
}

/// How many intervals are placed: all but the free ones.
fn placed_in(found: &[Interval]) -> u64
    ensures { result ≡ placed_in found.now }
{
    let mut placed: u64 = 0;
    for interval in found {
        if !is_free(interval) {
            placed += 1;
        }
    }
    placed
}

/// What a MAP with these intervals left, of which its cut kept so many minislots free.
pub(crate) fn left_by(keep: u16, found: &[Interval]) -> Left
    ensures { result ≡ left_by keep found.now }
{
    Left {
        gap: gap_of(found),
        placed: placed_in(found),
        keep,
    }
}
