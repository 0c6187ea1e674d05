//! Why a call on the rows is refused: which value it is, and what it may be.

ghost use Rattle.std.specs.Prelude.{◌≡◌};
ghost use Rattle.flow_state.specs.Reasons.{if_so, reason_refusal, outside, why_backoff, why_values, why_bad_channel};
ghost use Rattle.flow_state.specs.Reasons.{why_schedule, why_sized, why_kind, why_count, why_settings, why_last};
ghost use Rattle.flow_state.specs.Reasons.{why_bad_request, why_repeated, why_old, why_not_asked};
ghost use Rattle.flow_state.specs.View.{flow_view};

use crate::channel::Channel;
use crate::flow::{Flow, FlowKind};
use crate::limits::{HIGHEST_PRIORITY, LARGEST_SIZE, LAST_BACKOFF, LAST_TIME, LONGEST_INTERVAL};
use crate::refusal::Refusal;
use crate::settings::ChannelSettings;

/// A value of a command that has a least and a most.
#[derive(Clone, Copy, Debug, PartialEq, Eq)]
pub enum Field {
    /// Up to so many minislots a grant is a short one.
    ShortMax,
    /// The end of the ranging back-off.
    Ranging,
    /// The end of the data back-off.
    Data,
    /// The minislot of a channel's first MAP, or of a flow's first due time.
    Base,
    Priority,
    Size,
    Interval,
    /// The last minislot of a lease.
    Last,
    /// How many minislots a request asks for.
    Minislots,
    /// When a request was sent.
    Sent,
    /// How many minislots a MAP has.
    Len,
    NotBefore,
    Ack,
    /// How many minislots requests leave.
    Keep,
    /// Where a MAP ends.
    End,
}

/// Why a call is refused.
#[derive(Clone, Copy, Debug, PartialEq, Eq)]
pub enum Reason {
    /// The channel isn't set.
    NoChannel {
        ch: u8,
    },
    /// The channel is set already.
    ChannelThere {
        ch: u8,
    },
    /// The channel has no flow of the SID.
    NoFlow {
        ch: u8,
        sid: u16,
    },
    /// Every unicast SID of the channel is leased.
    SidsSpent {
        ch: u8,
    },
    /// A request of the SID waits.
    Waits {
        sid: u16,
    },
    /// On the channel no more requests may wait.
    Full {
        ch: u8,
    },
    /// A request was sent before its lease begins.
    BeforeLease {
        sent: u64,
        first: u64,
    },
    /// A request was sent no later than the last accepted one of its flow.
    Repeated {
        sent: u64,
        last: u64,
    },
    /// A value is less than the least that it may be, or more than the most.
    Outside {
        field: Field,
        value: u64,
        least: u64,
        most: u64,
    },
    /// A jitter isn't below its interval.
    JitterTooLong {
        jitter: u32,
        interval: u32,
    },
    /// A back-off's start comes after its end.
    BackoffTurned {
        field: Field,
        start: u8,
        end: u8,
    },
    /// A lease would end before the channel's next MAP begins.
    LastTooEarly {
        last: u64,
        next_start: u64,
    },
    /// A request was sent after its lease ends.
    BehindLease {
        sent: u64,
        last: u64,
    },
    /// The flow has minislots unasked alone.
    TakesNoRequests {
        sid: u16,
    },
    /// A UCD Count that is neither the channel's nor the next one.
    WrongCount {
        ucd: u8,
        own: u8,
    },
    /// Another PHY under the channel's own UCD Count.
    OtherPhy,
    /// Another size of short grants under the channel's own UCD Count.
    OtherShortMax {
        short_max: u16,
        own: u16,
    },
}

/// The reason, where a test holds.
pub(crate) fn if_so(test: bool, reason: Reason) -> Option<Reason>
    ensures { result ≡ if_so test reason }
{
    if test { Some(reason) } else { None }
}

impl Reason {
    /// The refusal that it is a reason of.
    pub fn refusal(self) -> Refusal
        ensures { result ≡ reason_refusal self }
    {
        match self {
            Reason::NoChannel { .. } => Refusal::NoChannel,
            Reason::ChannelThere { .. } => Refusal::ChannelThere,
            Reason::NoFlow { .. } => Refusal::NoFlow,
            Reason::SidsSpent { .. } => Refusal::SidsSpent,
            Reason::Waits { .. } | Reason::Full { .. } => Refusal::Busy,
            Reason::BeforeLease { .. } | Reason::Repeated { .. } => Refusal::OldRequest,
            Reason::Outside { .. }
            | Reason::JitterTooLong { .. }
            | Reason::BackoffTurned { .. }
            | Reason::LastTooEarly { .. }
            | Reason::BehindLease { .. }
            | Reason::TakesNoRequests { .. }
            | Reason::WrongCount { .. }
            | Reason::OtherPhy
            | Reason::OtherShortMax { .. } => Refusal::BadValue,
        }
    }

    /// Why a value may not be so, by the least and the most that it may be.
    pub fn outside(field: Field, value: u64, least: u64, most: u64) -> Option<Reason>
        ensures { result ≡ outside field value least most }
    {
        let reason = Reason::Outside {
            field,
            value,
            least,
            most,
        };
        if_so(!(least <= value && value <= most), reason)
    }

    /// Why a back-off may not be so.
    pub fn backoff(field: Field, start: u8, end: u8) -> Option<Reason>
        ensures { result ≡ why_backoff field start end }
    {
        let turned = if_so(!(start <= end), Reason::BackoffTurned { field, start, end });
        turned.or(Reason::outside(field, u64::from(end), 0, u64::from(LAST_BACKOFF)))
    }
}

/// Why back-offs and a size of short grants may not be so.
fn why_values(ranging: (u8, u8), sending: (u8, u8), short_max: u16) -> Option<Reason>
    ensures { result ≡ why_values ranging sending short_max }
{
    Reason::backoff(Field::Ranging, ranging.0, ranging.1)
        .or(Reason::backoff(Field::Data, sending.0, sending.1))
        .or(if_so(
            !(0 < short_max),
            Reason::Outside {
                field: Field::ShortMax,
                value: u64::from(short_max),
                least: 1,
                most: 65535,
            },
        ))
}

/// Why no channel may be set so.
pub(crate) fn why_bad_channel(channel: Channel) -> Option<Reason>
    ensures { result ≡ why_bad_channel channel }
{
    why_values(
        channel.ranging_backoff,
        channel.data_backoff,
        channel.short_max,
    )
    .or(Reason::outside(Field::Base, channel.base, 0, LAST_TIME))
}

/// Why nothing may be due so.
fn why_schedule(interval: u32, jitter: u32, base: u64) -> Option<Reason>
    ensures { result ≡ why_schedule interval jitter base }
{
    Reason::outside(
        Field::Interval,
        u64::from(interval),
        1,
        u64::from(LONGEST_INTERVAL),
    )
    .or(if_so(
        !(jitter < interval),
        Reason::JitterTooLong { jitter, interval },
    ))
    .or(Reason::outside(Field::Base, base, 0, LAST_TIME))
}

/// Why nothing of a size may be due so.
fn why_sized(size: u16, interval: u32, jitter: u32, base: u64) -> Option<Reason>
    ensures { result ≡ why_sized size interval jitter base }
{
    Reason::outside(Field::Size, u64::from(size), 1, u64::from(LARGEST_SIZE)).or(why_schedule(
        interval, jitter, base,
    ))
}

/// Why no flow may be of a kind.
pub(crate) fn why_kind(kind: FlowKind) -> Option<Reason>
    ensures { result ≡ why_kind kind }
{
    match kind {
        FlowKind::BestEffort(priority) => Reason::outside(
            Field::Priority,
            u64::from(priority),
            0,
            u64::from(HIGHEST_PRIORITY),
        ),
        FlowKind::Ugs {
            size,
            interval,
            jitter,
            base,
        }
        | FlowKind::Station {
            size,
            interval,
            jitter,
            base,
        }
        | FlowKind::Initial {
            size,
            interval,
            jitter,
            base,
        } => why_sized(size, interval, jitter, base),
        FlowKind::Poll {
            interval,
            jitter,
            base,
        } => why_schedule(interval, jitter, base),
    }
}

/// Why a channel may not be given a UCD Count with these settings.
fn why_count(channel: Channel, settings: ChannelSettings) -> Option<Reason>
    ensures { result ≡ why_count channel settings }
{
    if settings.ucd == channel.ucd {
        if_so(!(settings.phy == channel.phy), Reason::OtherPhy).or(if_so(
            !(settings.short_max == channel.short_max),
            Reason::OtherShortMax {
                short_max: settings.short_max,
                own: channel.short_max,
            },
        ))
    } else {
        if_so(
            !(settings.ucd == channel.ucd.wrapping_add(1)),
            Reason::WrongCount {
                ucd: settings.ucd,
                own: channel.ucd,
            },
        )
    }
}

/// Why a channel may not be given these settings.
pub(crate) fn why_settings(channel: Channel, settings: ChannelSettings) -> Option<Reason>
    ensures { result ≡ why_settings channel settings }
{
    why_values(
        settings.ranging_backoff,
        settings.data_backoff,
        settings.short_max,
    )
    .or(why_count(channel, settings))
}

/// Why a lease may not end so, on a channel whose next MAP begins at a start.
pub(crate) fn why_last(next_start: u64, last: u64) -> Option<Reason>
    ensures { result ≡ why_last next_start last }
{
    Reason::outside(Field::Last, last, 0, LAST_TIME).or(if_so(
        !(next_start <= last),
        Reason::LastTooEarly { last, next_start },
    ))
}

/// Why no request of a flow may be so, or the flow takes none.
fn why_bad_request(flow: &Flow, n: u16, sent: u64) -> Option<Reason>
    ensures { result ≡ why_bad_request (flow_view flow.now) n sent }
{
    let behind = Reason::BehindLease {
        sent,
        last: flow.lease.last,
    };
    let none = Reason::TakesNoRequests {
        sid: flow.lease.sid,
    };
    Reason::outside(Field::Minislots, u64::from(n), 1, u64::from(LARGEST_SIZE))
        .or(Reason::outside(Field::Sent, sent, 0, LAST_TIME))
        .or(if_so(flow.lease.last < sent, behind).or(if_so(flow.kind.takes_no_requests(), none)))
}

/// Why a request is no later than one may be.
fn why_repeated(last: Option<u64>, sent: u64) -> Option<Reason>
    ensures { result ≡ why_repeated last sent }
{
    match last {
        Some(last) => if_so(sent <= last, Reason::Repeated { sent, last }),
        None => None,
    }
}

/// Why a request is old.
fn why_old(flow: &Flow, sent: u64) -> Option<Reason>
    ensures { result ≡ why_old (flow_view flow.now) sent }
{
    let first = flow.lease.first;
    if_so(sent < first, Reason::BeforeLease { sent, first }).or(why_repeated(flow.last_sent, sent))
}

/// Why a request of a flow may not be so, or is old.
pub(crate) fn why_not_asked(flow: &Flow, n: u16, sent: u64) -> Option<Reason>
    ensures { result ≡ why_not_asked (flow_view flow.now) n sent }
{
    why_bad_request(flow, n, sent).or(why_old(flow, sent))
}
