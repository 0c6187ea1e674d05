//! What a modem does in intervals of Station Maintenance, in which it ranges, and of Initial Maintenance, in which nobody
//! sends.

use crate::modems::{Map, heard, heard_map};
use grant_machine::Output;
use minislot_time::Slot;
use modem::{Action, Heard, Modem, NextEvent, Sending};
use std::alloc::Global;
use std::test::Fail;

/// What is done with a modem on channel 1, and what it answers.
#[derive(Clone, Copy)]
enum Act {
    /// It takes a MAP near a minislot.
    Hear(Map, u64),
    /// It wants so many minislots of a SID.
    Want(u16, u16),
    /// It comes to a minislot, with a random number.
    Tick(u64, u64, Option<Sending>),
    /// Its first want was lost so often.
    Tries(u8),
    /// From a minislot on, it next ranges by a SID from a first minislot to a last one.
    NextRanging(u64, u16, u64, u64),
}

/// A modem that has heard of channel 1, and that these SIDs are its own for good.
fn modem_of(alloc: Global, id: u32, sids: &[u16]) -> Result<Modem, Fail> {
    let mut modem = Modem::new(alloc, id);
    heard(&mut modem, &Output::ChannelSet { ch: 1, ucd: 7 }, 0)?;
    for sid in sids {
        let assigned = Output::Assigned {
            modem: id,
            ch: 1,
            sid: *sid,
            first: 0,
            last: 1 << 62,
        };
        heard(&mut modem, &assigned, 0)?;
    }
    Ok(modem)
}

fn has_tried(modem: &Modem, tries: u8) -> bool {
    match modem.wants().first() {
        Some(want) => want.tries == tries,
        None => false,
    }
}

/// A ranging opportunity that comes next, and is used from its first minislot on.
fn ranging_at(sid: u16, first: u64, last: u64) -> NextEvent {
    NextEvent {
        slot: first,
        action: Action::Ranging { sid, first, last },
    }
}

/// Does a modem answer so?
fn is_right(modem: &mut Modem, alloc: Global, act: Act) -> Result<bool, Fail> {
    match act {
        Act::Hear(map, near) => Ok(heard_map(modem, alloc, map, near)? == Heard::Taken),
        Act::Want(sid, n) => Ok(modem.want(1, sid, n).is_ok()),
        Act::Tick(at, random, want) => {
            Ok(modem.tick(1, Slot::new(at).ok_or("slot")?, random) == Ok(want))
        }
        Act::Tries(tries) => Ok(has_tried(modem, tries)),
        Act::NextRanging(from, sid, first, last) => {
            let next = modem.next_event(1, Slot::new(from).ok_or("slot")?);
            Ok(next == Some(ranging_at(sid, first, last)))
        }
    }
}

/// How many acts a modem with these SIDs answers so, up to the first that it doesn't.
fn right(alloc: Global, id: u32, sids: &[u16], acts: &[Act]) -> Result<usize, Fail> {
    let mut modem = modem_of(alloc, id, sids)?;
    let mut count: usize = 0;
    for act in acts {
        if !is_right(&mut modem, alloc, *act)? {
            return Ok(count);
        }
        count = count.saturating_add(1);
    }
    Ok(count)
}

/// Minislots 1000 to 1079, with two polls of SID 3, grants of SID 4, an opening at 1006 to 1015, in which modems may
/// range for the first time, and SID 2's ranging opportunity behind it.
const MANY_KINDS: Map = Map {
    start: 1000,
    ack: 995,
    words: &[
        0xFFFC_4000,
        0x000C_4001,
        0x0011_4002,
        0xFFFC_C006,
        0x0009_0010,
        0xFFFC_4012,
        0x0011_402A,
        0xFFFC_402E,
        0x000C_4033,
        0xFFFC_4034,
        0x0001_C050,
        0x0015_8050,
    ],
};

/// Minislots 1000 to 1039, all of them open to all.
const OPEN_TO_ALL: Map = Map {
    start: 1000,
    ack: 0,
    words: &[0xFFFC_4000, 0x0001_C028],
};

/// Minislots 1100 to 1109, with SID 1's ranging opportunity in the first two.
const RANGING: Map = Map {
    start: 1100,
    ack: 1050,
    words: &[0x0005_0000, 0xFFFC_4002, 0x0001_C00A],
};

/// A modem, its SIDs, and what is done.
const ROWS: [(u32, &[u16], &[Act]); 3] = [
    // each by the interval that counts, and nothing in the opening
    (
        50,
        &[2, 3, 4, 5],
        &[
            Act::Hear(MANY_KINDS, 1000),
            Act::Want(3, 7),
            Act::Want(5, 9),
            Act::Tick(1000, 9, None),
            Act::Tick(1001, 0, Some(Sending::Polled(3, 7))),
            Act::Tick(1002, 0, Some(Sending::Unicast(4))),
            Act::Tick(1006, 0, None),
            Act::NextRanging(1007, 2, 1016, 1017),
            Act::Tick(1015, 0, None),
            Act::Tick(1016, 0, Some(Sending::Ranging(2))),
            Act::Tick(1017, 0, Some(Sending::Ranging(2))),
            Act::Tick(1018, 0, Some(Sending::Request(5, 9))),
            Act::Tick(1019, 0, None),
        ],
    ),
    // whose flow has the opening sends nothing in it either
    (
        0,
        &[1],
        &[
            Act::Hear(MANY_KINDS, 1000),
            Act::Tick(1006, 0, None),
            Act::Tick(1007, 0, None),
            Act::Tick(1015, 0, None),
        ],
    ),
    // a ranging opportunity doesn't answer a request, which is lost: it then draws below 16
    (
        50,
        &[1],
        &[
            Act::Hear(OPEN_TO_ALL, 1000),
            Act::Want(1, 20),
            Act::Tick(1000, 0, Some(Sending::Request(1, 20))),
            Act::Hear(RANGING, 1050),
            Act::Tries(1),
            Act::Tick(1100, 0, Some(Sending::Ranging(1))),
            Act::Tick(1101, 0, Some(Sending::Ranging(1))),
            Act::Tick(1102, 8, None),
        ],
    ),
];

#[test]
fn modems_range(rt: HostRuntime) -> Result<(), Fail> {
    for (id, sids, acts) in ROWS {
        assert_eq!(rt; right(rt.alloc(), id, sids, acts)?, acts.len());
    }
    Ok(())
}
