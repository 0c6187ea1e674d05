//! What a modem answers where no script shows it: to outputs that aren't for it or can't be read, and as its leases
//! begin and end.

use grant_machine::{MapBytes, Output};
use minislot_time::Slot;
use modem::{Heard, Modem, Sending, TimeBack, WantFault};
use std::alloc::{AllocError, Global};
use std::test::Fail;

/// A MAP of channel 1 and UCD Count 7, which starts at a minislot and acknowledges what was sent before one, with the
/// words of its elements.
#[derive(Clone, Copy)]
pub struct Map {
    pub start: u64,
    pub ack: u32,
    pub words: &'static [u32],
}

/// The body of a MAP.
fn body(alloc: Global, map: Map) -> Result<Vec<u8>, AllocError> {
    let mut bytes = Vec::new(alloc);
    bytes.extend_from_slice(&[1, 7, (map.words.len() % 256) as u8, 0])?;
    bytes.extend_from_slice(&((map.start % 0x1_0000_0000) as u32).to_be_bytes())?;
    bytes.extend_from_slice(&map.ack.to_be_bytes())?;
    bytes.extend_from_slice(&[2, 5, 3, 8])?;
    for word in map.words {
        bytes.extend_from_slice(&word.to_be_bytes())?;
    }
    Ok(bytes)
}

/// What a modem makes of an output near a minislot.
pub fn heard(modem: &mut Modem, output: &Output, near: u64) -> Result<Heard, Fail> {
    Ok(modem.hear(output, Slot::new(near).ok_or("slot")?)?)
}

/// What it makes of the body of a MAP that starts at a minislot.
fn heard_body(modem: &mut Modem, start: u64, body: Vec<u8>, near: u64) -> Result<Heard, Fail> {
    let output = Output::Map {
        ch: 1,
        start: Slot::new(start).ok_or("slot")?,
        len: 0,
        bytes: MapBytes::new(body),
    };
    heard(modem, &output, near)
}

/// What it makes of a MAP.
pub fn heard_map(modem: &mut Modem, alloc: Global, map: Map, near: u64) -> Result<Heard, Fail> {
    heard_body(modem, map.start, body(alloc, map)?, near)
}

/// What it makes of a MAP without its last byte.
fn heard_cut(modem: &mut Modem, alloc: Global, map: Map, near: u64) -> Result<Heard, Fail> {
    let mut bytes = body(alloc, map)?;
    bytes.pop();
    heard_body(modem, map.start, bytes, near)
}

/// A modem that has heard of channel 1, and that its SID 1 is the modem's from one minislot to another.
pub fn modem_of(alloc: Global, id: u32, first: u64, last: u64) -> Result<Modem, Fail> {
    let mut modem = Modem::new(alloc, id);
    let assigned = Output::Assigned {
        modem: id,
        ch: 1,
        sid: 1,
        first,
        last,
    };
    heard(&mut modem, &Output::ChannelSet { ch: 1, ucd: 7 }, 0)?;
    heard(&mut modem, &assigned, 0)?;
    Ok(modem)
}

/// What is done with a modem, and what it answers.
#[derive(Clone, Copy)]
enum Act {
    /// It hears a MAP near a minislot.
    Hear(Map, u64, Heard),
    /// It hears that MAP without its last byte.
    HearCut(Map, u64, Heard),
    /// It hears that channel 1 has a UCD Count.
    Set(u8, Heard),
    /// It hears that SID 2 is this modem's for good.
    Assigned(u32, Heard),
    /// It hears of a command that was refused.
    Refused(u8, Heard),
    /// It wants 5 minislots of SID 1.
    Want(Result<(), WantFault>),
    /// It comes to a minislot of channel 1.
    Tick(u64, Result<Option<Sending>, TimeBack>),
}

fn ticked(modem: &mut Modem, at: u64) -> Result<Result<Option<Sending>, TimeBack>, Fail> {
    Ok(modem.tick(1, Slot::new(at).ok_or("slot")?, 0))
}

/// Does a modem answer so?
fn is_right(modem: &mut Modem, alloc: Global, act: Act) -> Result<bool, Fail> {
    match act {
        Act::Hear(map, near, want) => Ok(heard_map(modem, alloc, map, near)? == want),
        Act::HearCut(map, near, want) => Ok(heard_cut(modem, alloc, map, near)? == want),
        Act::Set(ucd, want) => Ok(heard(modem, &Output::ChannelSet { ch: 1, ucd }, 0)? == want),
        Act::Assigned(id, want) => {
            let output = Output::Assigned {
                modem: id,
                ch: 1,
                sid: 2,
                first: 0,
                last: 1 << 62,
            };
            Ok(heard(modem, &output, 0)? == want)
        }
        Act::Refused(number, want) => Ok(heard(modem, &Output::Refused(number), 0)? == want),
        Act::Want(want) => Ok(modem.want(1, 1, 5) == want),
        Act::Tick(at, want) => Ok(ticked(modem, at)? == want),
    }
}

/// How many acts a modem with this lease of SID 1 answers so, up to the first that it doesn't.
fn right(alloc: Global, lease: (u32, u64, u64), acts: &[Act]) -> Result<usize, Fail> {
    let mut modem = modem_of(alloc, lease.0, lease.1, lease.2)?;
    let mut count: usize = 0;
    for act in acts {
        if !is_right(&mut modem, alloc, *act)? {
            return Ok(count);
        }
        count = count.saturating_add(1);
    }
    Ok(count)
}

/// The MAP of minislots 1000 to 1039 that gives SID 1 the first 20.
const FIRST: Map = Map {
    start: 1000,
    ack: 0,
    words: &[0x0005_8000, 0xFFFC_4014, 0x0001_C028],
};

/// The MAP of minislots 1080 to 1119 that gives SID 1 the first 16.
const THIRD: Map = Map {
    start: 1080,
    ack: 0,
    words: &[0x0005_4000, 0xFFFC_4010, 0x0001_C028],
};

const NO_NULL: Map = Map {
    start: 1000,
    ack: 0,
    words: &[0xFFFC_4000],
};

/// The modem and the lease of its SID, and what is done.
const ROWS: [((u32, u64, u64), &[Act]); 6] = [
    // what isn't for it, and what can't be read
    (
        (50, 0, 1 << 62),
        &[
            Act::Refused(3, Heard::NotMine),
            Act::Assigned(51, Heard::NotMine),
            Act::Hear(NO_NULL, 1000, Heard::Unreadable),
            Act::Set(8, Heard::Taken),
            Act::Hear(FIRST, 1000, Heard::OtherUcd),
        ],
    ),
    // a body that is cut changes nothing, its clock neither
    (
        (50, 0, 1 << 62),
        &[
            Act::HearCut(FIRST, 1000, Heard::Unreadable),
            Act::Tick(999, Ok(None)),
            Act::Tick(1000, Ok(None)),
        ],
    ),
    // a later lease takes no earlier grant
    (
        (51, 1080, 2000),
        &[
            Act::Hear(FIRST, 1000, Heard::Taken),
            Act::Tick(1000, Ok(None)),
            Act::Hear(THIRD, 1040, Heard::Taken),
            Act::Tick(1080, Ok(Some(Sending::Unicast(1)))),
        ],
    ),
    // a lease that is over takes no later grant
    (
        (50, 0, 1049),
        &[
            Act::Hear(THIRD, 1080, Heard::Taken),
            Act::Tick(1080, Ok(None)),
            Act::Want(Err(WantFault::NotMine)),
        ],
    ),
    // a grant is kept up to the lease's last minislot
    (
        (50, 0, 1010),
        &[
            Act::Hear(FIRST, 1000, Heard::Taken),
            Act::Tick(1010, Ok(Some(Sending::Unicast(1)))),
            Act::Tick(1011, Ok(None)),
        ],
    ),
    // a want goes with the last of its leases
    (
        (50, 0, 1049),
        &[
            Act::Want(Ok(())),
            Act::Tick(1048, Ok(None)),
            Act::Want(Err(WantFault::Waiting)),
            Act::Tick(1049, Ok(None)),
            Act::Want(Err(WantFault::NotMine)),
        ],
    ),
];

/// How many leases of SID 1, of 1,000 minislots each, a modem keeps that hears of so many. It hears of each when the
/// one before begins.
fn leases_kept(alloc: Global, count: u64) -> Result<usize, Fail> {
    let mut modem = modem_of(alloc, 50, 0, 999)?;
    for i in 1..count {
        let first = i.saturating_mul(1000);
        let renewed = Output::Assigned {
            modem: 50,
            ch: 1,
            sid: 1,
            first,
            last: first.saturating_add(999),
        };
        let now = first.saturating_sub(1000);
        heard(&mut modem, &renewed, now)?;
        ticked(&mut modem, now)??;
    }
    Ok(modem.leases().len())
}

#[test]
fn renewed_leases(rt: HostRuntime) -> Result<(), Fail> {
    for (count, want) in [(1, 1), (10, 10), (1000, 20)] {
        assert_eq!(rt; leases_kept(rt.alloc(), count)?, want, "{count}");
    }
    Ok(())
}

#[test]
fn answers_of_modems(rt: HostRuntime) -> Result<(), Fail> {
    for (lease, acts) in ROWS {
        assert_eq!(rt; right(rt.alloc(), lease, acts)?, acts.len());
    }
    Ok(())
}
