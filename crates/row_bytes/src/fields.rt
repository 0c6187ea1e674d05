//! Reading fields from left to right. Each function takes one off the front of the bytes.

ghost use Rattle.std.specs.Prelude.{◌≡◌, ◌+◌, ◌<◌, ◌^◌};
ghost use Rattle.row_bytes.specs.Reading.{Takes, backoff_at, byte_at, channel_at, fields_by, flow_at, front_at};
ghost use Rattle.row_bytes.specs.Reading.{kind_at, lease_at, lease_of_sid};
ghost use Rattle.row_bytes.specs.Reading.{number_2_at, number_4_at, number_8_at, phy_at, request_at, row_at, sent_at};
ghost use Rattle.row_bytes.specs.Reading.{sized_at, timing_at};
ghost use Rattle.flow_state.specs.declared.flow.FlowKind.TheVariants.{Ugs, Station, Initial};

use crate::fault::RowsFault;
use byteorder::{BigEndian, ByteOrder};
use flow_state::{Channel, ChannelRow, Flow, FlowKind, LARGEST_SIZE, Lease, Phy, Waiting};

pub(crate) fn take_byte(rest: &mut &[u8]) -> Result<u8, RowsFault>
    ensures { Takes ⊥ result rest.new.now (byte_at rest.old.now) }
{
    let [first, behind @ ..] = *rest else {
        return Err(RowsFault::Short);
    };
    *rest = behind;
    Ok(*first)
}

#[tactic(auto, unfolding(crate::specs::Reading::number_2_at))]
pub(crate) fn take_u16(rest: &mut &[u8]) -> Result<u16, RowsFault>
    ensures { Takes ⊥ result rest.new.now (number_2_at rest.old.now) }
{
    if rest.len() < 2 {
        return Err(RowsFault::Short);
    }
    let (number, behind) = rest.split_at(2);
    *rest = behind;
    Ok(BigEndian::read_u16(number))
}

#[tactic(auto, unfolding(crate::specs::Reading::number_4_at))]
fn take_u32(rest: &mut &[u8]) -> Result<u32, RowsFault>
    ensures { Takes ⊥ result rest.new.now (number_4_at rest.old.now) }
{
    if rest.len() < 4 {
        return Err(RowsFault::Short);
    }
    let (number, behind) = rest.split_at(4);
    *rest = behind;
    Ok(BigEndian::read_u32(number))
}

#[tactic(auto, unfolding(crate::specs::Reading::number_8_at))]
fn take_u64(rest: &mut &[u8]) -> Result<u64, RowsFault>
    ensures { Takes ⊥ result rest.new.now (number_8_at rest.old.now) }
{
    if rest.len() < 8 {
        return Err(RowsFault::Short);
    }
    let (number, behind) = rest.split_at(8);
    *rest = behind;
    Ok(BigEndian::read_u64(number))
}

fn take_phy(rest: &mut &[u8]) -> Result<Phy, RowsFault>
    ensures { Takes ⊥ result rest.new.now (phy_at rest.old.now) }
{
    match take_byte(rest)? {
        1 => Ok(Phy::Tdma),
        6 => Ok(Phy::Advanced),
        _ => Err(RowsFault::NoChannel),
    }
}

fn take_backoff(rest: &mut &[u8]) -> Result<(u8, u8), RowsFault>
    ensures { Takes ⊥ result rest.new.now (backoff_at rest.old.now) }
{
    let start = take_byte(rest)?;
    let end = take_byte(rest)?;
    Ok((start, end))
}

/// A channel's PHY, id, UCD Count and size of short grants.
#[tactic(auto, unfolding(crate::specs::Reading::front_at))]
fn take_front(rest: &mut &[u8]) -> Result<(Phy, u8, u8, u16), RowsFault>
    ensures { Takes ⊥ result rest.new.now (front_at rest.old.now) }
{
    let phy = take_phy(rest)?;
    let id = take_byte(rest)?;
    let ucd = take_byte(rest)?;
    let short_max = take_u16(rest)?;
    Ok((phy, id, ucd, short_max))
}

#[tactic(auto, unfolding(crate::specs::Reading::channel_at))]
fn take_channel(rest: &mut &[u8]) -> Result<Channel, RowsFault>
    ensures { Takes ⊥ result rest.new.now (channel_at rest.old.now) }
{
    let (phy, id, ucd, short_max) = take_front(rest)?;
    let ranging_backoff = take_backoff(rest)?;
    let data_backoff = take_backoff(rest)?;
    let base = take_u64(rest)?;
    Ok(Channel {
        id,
        ucd,
        phy,
        short_max,
        ranging_backoff,
        data_backoff,
        base,
    })
}

/// A channel within the limits, with where its next MAP begins and its Ack Time.
#[tactic(auto, unfolding(crate::specs::Reading::row_at))]
pub(crate) fn take_row(rest: &mut &[u8]) -> Result<ChannelRow, RowsFault>
    ensures { Takes ⊥ result rest.new.now (row_at rest.old.now) }
{
    let channel = take_channel(rest)?;
    if !channel.is_good() {
        return Err(RowsFault::NoChannel);
    }
    let next_start = take_u64(rest)?;
    let ack = take_u64(rest)?;
    Ok(ChannelRow {
        channel,
        next_start,
        ack,
    })
}

/// The lease of the SID that is one above a place.
#[tactic(auto, unfolding(crate::specs::Reading::lease_at))]
pub(crate) fn take_lease(place: u16, rest: &mut &[u8]) -> Result<Lease, RowsFault>
    requires { place + 1 < 2 ^ 16 }
    ensures { Takes ⊥ result rest.new.now (lease_at place rest.old.now) }
{
    let modem = take_u32(rest)?;
    let tag = take_u32(rest)?;
    let first = take_u64(rest)?;
    let last = take_u64(rest)?;
    Ok(Lease {
        sid: place + 1,
        modem,
        tag,
        first,
        last,
    })
}

/// When what comes by itself is due: interval, jitter and base.
#[tactic(auto, unfolding(crate::specs::Reading::timing_at))]
fn take_timing(rest: &mut &[u8]) -> Result<(u32, u32, u64), RowsFault>
    ensures { Takes ⊥ result rest.new.now (timing_at rest.old.now) }
{
    let interval = take_u32(rest)?;
    let jitter = take_u32(rest)?;
    let base = take_u64(rest)?;
    Ok((interval, jitter, base))
}

fn take_ugs(rest: &mut &[u8]) -> Result<FlowKind, RowsFault>
    ensures { Takes ⊥ result rest.new.now (sized_at Ugs rest.old.now) }
{
    let size = take_u16(rest)?;
    let (interval, jitter, base) = take_timing(rest)?;
    Ok(FlowKind::Ugs {
        size,
        interval,
        jitter,
        base,
    })
}

fn take_station(rest: &mut &[u8]) -> Result<FlowKind, RowsFault>
    ensures { Takes ⊥ result rest.new.now (sized_at Station rest.old.now) }
{
    let size = take_u16(rest)?;
    let (interval, jitter, base) = take_timing(rest)?;
    Ok(FlowKind::Station {
        size,
        interval,
        jitter,
        base,
    })
}

fn take_initial(rest: &mut &[u8]) -> Result<FlowKind, RowsFault>
    ensures { Takes ⊥ result rest.new.now (sized_at Initial rest.old.now) }
{
    let size = take_u16(rest)?;
    let (interval, jitter, base) = take_timing(rest)?;
    Ok(FlowKind::Initial {
        size,
        interval,
        jitter,
        base,
    })
}

/// What follows a kind's byte.
fn take_fields(byte: u8, rest: &mut &[u8]) -> Result<FlowKind, RowsFault>
    ensures { Takes ⊥ result rest.new.now (fields_by byte rest.old.now) }
{
    match byte {
        0 => Ok(FlowKind::BestEffort(take_byte(rest)?)),
        1 => take_ugs(rest),
        2 => {
            let (interval, jitter, base) = take_timing(rest)?;
            Ok(FlowKind::Poll {
                interval,
                jitter,
                base,
            })
        }
        3 => take_station(rest),
        4 => take_initial(rest),
        _ => Err(RowsFault::NoFlow),
    }
}

/// A kind within the limits.
#[tactic(auto, unfolding(crate::specs::Reading::kind_at))]
fn take_kind(rest: &mut &[u8]) -> Result<FlowKind, RowsFault>
    ensures { Takes ⊥ result rest.new.now (kind_at rest.old.now) }
{
    let byte = take_byte(rest)?;
    let kind = take_fields(byte, rest)?;
    if !kind.is_good() {
        return Err(RowsFault::NoFlow);
    }
    Ok(kind)
}

/// When the last accepted request was sent, if there is one.
#[tactic(auto, unfolding(crate::specs::Reading::sent_at))]
fn take_sent(rest: &mut &[u8]) -> Result<Option<u64>, RowsFault>
    ensures { Takes ⊥ result rest.new.now (sent_at rest.old.now) }
{
    match take_byte(rest)? {
        0 => Ok(None),
        1 => Ok(Some(take_u64(rest)?)),
        _ => Err(RowsFault::NoFlow),
    }
}

/// The lease of a SID, where these have it.
fn lease_of_sid(leases: &[Lease], sid: u16) -> Option<Lease>
    ensures { result ≡ lease_of_sid leases.now sid }
{
    if sid == 0 {
        return None;
    }
    leases.get(usize::from(sid - 1)).copied()
}

/// A flow of the channel, under the lease of its SID.
#[tactic(auto, unfolding(crate::specs::Reading::flow_at))]
pub(crate) fn take_flow(ch: u8, leases: &[Lease], rest: &mut &[u8]) -> Result<Flow, RowsFault>
    ensures { Takes ⊥ result rest.new.now (flow_at ch leases.now rest.old.now) }
{
    let sid = take_u16(rest)?;
    let Some(lease) = lease_of_sid(leases, sid) else {
        return Err(RowsFault::NotFirm(ch));
    };
    let kind = take_kind(rest)?;
    let due = take_u64(rest)?;
    let last_sent = take_sent(rest)?;
    Ok(Flow {
        lease,
        kind,
        due,
        last_sent,
    })
}

/// A request of a size within the limits.
#[tactic(auto, unfolding(crate::specs::Reading::request_at))]
pub(crate) fn take_request(rest: &mut &[u8]) -> Result<Waiting, RowsFault>
    ensures { Takes ⊥ result rest.new.now (request_at rest.old.now) }
{
    let sid = take_u16(rest)?;
    let n = take_u16(rest)?;
    if n < 1 || LARGEST_SIZE < n {
        return Err(RowsFault::NoRequest);
    }
    let sent = take_u64(rest)?;
    Ok(Waiting { sid, n, sent })
}
