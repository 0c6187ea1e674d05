//! Calls at their limits, which may want memory, and find ample.

use command_log::Log;
use flow_state::{Channel, FlowKind, LAST_TIME, Phy};
use grant_machine::{Command, Machine, Output};
use map_body::{Element, Head, Iuc, MapBody, MapFault, Offset, Sid, decode, encode};
use std::alloc::Global;
use std::test::Fail;

const HEAD: Head = Head {
    channel: 1,
    ucd: 7,
    start: 1000,
    ack: 995,
    ranging_backoff: (2, 5),
    data_backoff: (3, 8),
};

/// An element of the greatest unicast SID.
fn element(iuc: u8, offset: u16) -> Result<Element, Fail> {
    Ok(Element {
        sid: Sid::new(8191).ok_or("SID")?,
        iuc: Iuc::new(iuc).ok_or("IUC")?,
        offset: Offset::new(offset).ok_or("offset")?,
    })
}

/// So many elements 64 minislots apart, and a Null at the greatest offset.
fn elements(alloc: Global, before: u16) -> Result<Vec<Element>, Fail> {
    let mut elements = Vec::new(alloc);
    for i in 0..before {
        elements.push(element(5, i.saturating_mul(64))?)?;
    }
    elements.push(element(7, 16_383)?)?;
    Ok(elements)
}

/// How many bytes a body of so many elements before its Null has, and how many elements are read from them.
fn written(alloc: Global, before: u16) -> Result<(usize, usize), Fail> {
    let body = MapBody::new(HEAD, elements(alloc, before)?)?;
    let bytes = encode(alloc, &body)?;
    let read = decode(alloc, &bytes)?;
    Ok((bytes.len(), read.elements().len()))
}

#[test]
fn elements_of_a_body(rt: HostRuntime) -> Result<(), Fail> {
    for (before, want) in [(0, (20, 1)), (240, (980, 241)), (254, (1036, 255))] {
        assert_eq!(rt; written(rt.alloc(), before)?, want, "{before}");
    }
    let long = MapBody::new(HEAD, elements(rt.alloc(), 255)?);
    assert!(rt; matches!(&long, Err(MapFault::TooMany)));
    Ok(())
}

const CHANNEL: Command = Command::Channel(Channel {
    id: 1,
    ucd: 7,
    phy: Phy::Tdma,
    short_max: 16,
    ranging_backoff: (2, 5),
    data_backoff: (3, 8),
    base: 1000,
});

/// A flow with this tag whose lease ends so.
const fn flow(tag: u32, last: u64) -> Command {
    Command::Flow {
        ch: 1,
        modem: 50,
        tag,
        last,
        kind: FlowKind::BestEffort(0),
    }
}

/// A request of a SID for the most minislots.
fn request(sid: u16, sent: u64) -> Command {
    Command::Request {
        ch: 1,
        sid,
        n: 255,
        sent,
    }
}

/// The number of the refusal of a command, 0 where it isn't refused.
fn refusal(machine: &mut Machine, command: Command) -> Result<u8, Fail> {
    match machine.apply(&command)? {
        Output::Refused(number) => Ok(number),
        _ => Ok(0),
    }
}

/// Gives a machine channel 1 and a flow of each SID, of which the last 117 wait.
fn fill(machine: &mut Machine) -> Result<(), Fail> {
    machine.apply(&CHANNEL)?;
    for tag in 1..=8191u32 {
        machine.apply(&flow(tag, LAST_TIME))?;
    }
    for sid in 8075..=8191u16 {
        machine.apply(&request(sid, 990))?;
    }
    Ok(())
}

/// A flow that finds no SID, one SID's last request in time and its repeat, the last request that may wait, one more,
/// and a drop.
fn at_the_limits() -> [(Command, u8); 6] {
    let dropped = Command::Drop { ch: 1, sid: 8191 };
    [
        (flow(0, LAST_TIME), 4),
        (request(8191, LAST_TIME), 5),
        (request(8191, 990), 6),
        (request(1, LAST_TIME), 0),
        (request(2, LAST_TIME), 5),
        (dropped, 0),
    ]
}

/// How many of these a machine answers so once it is full, up to the first that it doesn't.
fn right(machine: &mut Machine, rows: &[(Command, u8)]) -> Result<usize, Fail> {
    fill(machine)?;
    let mut count: usize = 0;
    for (command, want) in rows {
        if refusal(machine, *command)? != *want {
            return Ok(count);
        }
        count = count.saturating_add(1);
    }
    Ok(count)
}

/// The same of a new machine.
fn right_anew(alloc: Global, rows: &[(Command, u8)]) -> Result<usize, Fail> {
    right(&mut Machine::new(alloc), rows)
}

#[test]
fn all_sids_and_waiting_requests(rt: HostRuntime) -> Result<(), Fail> {
    let rows = at_the_limits();
    assert_eq!(rt; right_anew(rt.alloc(), &rows)?, rows.len());
    Ok(())
}

/// The last minislot of the lease of a new flow, 0 where it is refused.
fn leased(machine: &mut Machine, last: u64) -> Result<u64, Fail> {
    machine.apply(&CHANNEL)?;
    match machine.apply(&flow(1, last))? {
        Output::Assigned { last, .. } => Ok(last),
        _ => Ok(0),
    }
}

/// The same of a new machine.
fn leased_anew(alloc: Global, last: u64) -> Result<u64, Fail> {
    leased(&mut Machine::new(alloc), last)
}

#[test]
fn the_longest_lease(rt: HostRuntime) -> Result<(), Fail> {
    for (last, want) in [
        (1 << 62, 1 << 62),
        ((1 << 62) - 1, (1 << 62) - 1),
        ((1 << 62) + 1, 0),
    ] {
        assert_eq!(rt; leased_anew(rt.alloc(), last)?, want, "{last}");
    }
    Ok(())
}

/// The number of the fault of learning so many bytes at a place, 0 where they are learned.
fn learned(log: &mut Log, place: u64, value: &[u8]) -> u8 {
    match log.learn(place, value) {
        Ok(()) => 0,
        Err(fault) => fault.number(),
    }
}

const LONGEST: [u8; 64] = [0; 64];

/// A place, the bytes learned at it one row after another, and the number of the fault.
const LEARNED: [(u64, &[u8], u8); 5] = [
    (1_000_000, &LONGEST, 0),
    (1_000_000, &LONGEST, 0),
    (1_000_000, &[0], 1),
    (1_000_001, &[0], 2),
    (0, &[0], 2),
];

/// How many rows a log learns so, up to the first that it doesn't.
fn rows_learned(log: &mut Log) -> usize {
    let mut count: usize = 0;
    for (place, value, want) in LEARNED {
        if learned(log, place, value) != want {
            return count;
        }
        count = count.saturating_add(1);
    }
    count
}

/// The same of a new log.
fn rows_learned_anew(alloc: Global) -> usize {
    rows_learned(&mut Log::new(alloc))
}

#[test]
fn the_last_place_of_a_log(rt: HostRuntime) {
    assert_eq!(rt; rows_learned_anew(rt.alloc()), LEARNED.len());
}
