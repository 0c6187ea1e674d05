//! Tables that are written as bytes, read, adopted, and gone on from.

use flow_state::{
    Channel, ChannelRow, Flow, FlowKind, Flows, LAST_TIME, Lease, NotAdopted, Phy, Waiting,
    WholeTable,
};
use grant_machine::{Command, Machine};
use row_bytes::{RowsFault, read_rows, write_rows};
use std::alloc::{AllocError, Global};
use std::test::Fail;

const CHANNEL: Channel = Channel {
    id: 1,
    ucd: 7,
    phy: Phy::Advanced,
    short_max: 16,
    ranging_backoff: (2, 5),
    data_backoff: (3, 8),
    base: 1000,
};

fn cut(ack: u64) -> Command {
    Command::Cut {
        ch: 1,
        len: 100,
        not_before: 0,
        ack,
        keep: 0,
        ranging: (255, 255),
        data: (255, 255),
    }
}

/// A flow of modem 50 whose lease has no end.
fn flow(tag: u32, kind: FlowKind) -> Command {
    Command::Flow {
        ch: 1,
        modem: 50,
        tag,
        last: LAST_TIME,
        kind,
    }
}

const GRANTS: FlowKind = FlowKind::Ugs {
    size: 4,
    interval: 40,
    jitter: 8,
    base: 1000,
};

/// A channel, unsolicited grants, a best-effort flow, a MAP, and a request that waits behind it.
fn first_commands() -> [Command; 5] {
    let request = Command::Request {
        ch: 1,
        sid: 2,
        n: 20,
        sent: 1010,
    };
    let best_effort = flow(2, FlowKind::BestEffort(3));
    [
        Command::Channel(CHANNEL),
        flow(1, GRANTS),
        best_effort,
        cut(995),
        request,
    ]
}

/// The same flow again, a new one, and a MAP.
fn next_commands() -> [Command; 3] {
    let again = flow(2, FlowKind::BestEffort(3));
    [again, flow(3, FlowKind::BestEffort(0)), cut(1050)]
}

/// The tables that the first commands leave, by their format: the channel, which goes on at 1100 with Ack Time 995; the
/// leases of two SIDs; a flow that is due at 1120, and one that asked at 1010; and that request.
const ROWS: [u8; 151] = [
    0, 1, 6, 1, 7, 0, 16, 2, 5, 3, 8, 0, 0, 0, 0, 0, 0, 3, 232, 0, 0, 0, 0, 0, 0, 4, 76, 0, 0, 0,
    0, 0, 0, 3, 227, 0, 2, 0, 0, 0, 50, 0, 0, 0, 1, 0, 0, 0, 0, 0, 0, 0, 0, 64, 0, 0, 0, 0, 0, 0,
    0, 0, 0, 0, 50, 0, 0, 0, 2, 0, 0, 0, 0, 0, 0, 0, 0, 64, 0, 0, 0, 0, 0, 0, 0, 0, 2, 0, 1, 1, 0,
    4, 0, 0, 0, 40, 0, 0, 0, 8, 0, 0, 0, 0, 0, 0, 3, 232, 0, 0, 0, 0, 0, 0, 4, 96, 0, 0, 2, 0, 3,
    0, 0, 0, 0, 0, 0, 0, 0, 1, 0, 0, 0, 0, 0, 0, 3, 242, 1, 0, 2, 0, 20, 0, 0, 0, 0, 0, 0, 3, 242,
];

fn apply_first(machine: &mut Machine) -> Result<(), AllocError> {
    for command in first_commands() {
        machine.apply(&command)?;
    }
    Ok(())
}

/// The scheduler behind the first commands.
fn machine_behind(alloc: Global) -> Result<Machine, AllocError> {
    let mut machine = Machine::new(alloc);
    apply_first(&mut machine)?;
    Ok(machine)
}

fn rows_of(alloc: Global, machine: &Machine) -> Result<Vec<u8>, AllocError> {
    let mut bytes = Vec::new(alloc);
    write_rows(machine.flows(), &mut bytes)?;
    Ok(bytes)
}

/// Whether two schedulers give the same outputs of the next commands.
fn go_on_alike(one: &mut Machine, other: &mut Machine) -> Result<bool, AllocError> {
    for command in next_commands() {
        if !one.apply(&command)?.is_same(&other.apply(&command)?) {
            return Ok(false);
        }
    }
    Ok(true)
}

#[test]
fn tables_to_bytes_and_back(rt: HostRuntime) -> Result<(), Fail> {
    let alloc = rt.alloc();
    let mut machine = machine_behind(alloc)?;
    assert!(rt; rows_of(alloc, &machine)?.as_slice() == ROWS.as_slice());
    let mut opened = Machine::opened(alloc, read_rows(alloc, &ROWS)?);
    assert!(rt; go_on_alike(&mut machine, &mut opened)?);
    assert!(rt; rows_of(alloc, &machine)? == rows_of(alloc, &opened)?);
    Ok(())
}

/// No bytes; a channel that isn't there; bytes behind no channel; a channel of no PHY, one without its last byte, and one
/// whose back-off ends at 16.
const NO_ROWS: [(&[u8], RowsFault); 6] = [
    (&[], RowsFault::Short),
    (&[0, 1], RowsFault::Short),
    (&[0, 0, 0], RowsFault::Trailing),
    (&[0, 1, 2], RowsFault::NoChannel),
    (
        &[0, 1, 1, 1, 7, 0, 16, 2, 5, 3, 8, 0, 0, 0, 0, 0, 0, 3],
        RowsFault::Short,
    ),
    (
        &[0, 1, 1, 1, 7, 0, 16, 2, 16, 3, 8, 0, 0, 0, 0, 0, 0, 3, 232],
        RowsFault::NoChannel,
    ),
];

/// A byte of the tables, what it becomes, and the fault: a kind of flow, what comes before a last request, a size, the
/// flow of a request, a due time, and when a lease begins.
const CHANGED: [(usize, u8, RowsFault); 6] = [
    (89, 5, RowsFault::NoFlow),
    (116, 2, RowsFault::NoFlow),
    (142, 0, RowsFault::NoRequest),
    (140, 1, RowsFault::NotFirm(1)),
    (115, 97, RowsFault::NotFirm(1)),
    (45, 1, RowsFault::NotFirm(1)),
];

/// The fault of bytes, if they have one.
fn fault_of(alloc: Global, bytes: &[u8]) -> Option<RowsFault> {
    read_rows(alloc, bytes).err()
}

/// The fault of the tables with another byte, if they have one.
fn fault_changed(alloc: Global, place: usize, byte: u8) -> Result<Option<RowsFault>, AllocError> {
    let mut bytes = Vec::new(alloc);
    for (k, old) in ROWS.iter().enumerate() {
        bytes.push(if k == place { byte } else { *old })?;
    }
    Ok(fault_of(alloc, bytes.as_slice()))
}

#[test]
fn other_bytes_are_no_tables(rt: HostRuntime) -> Result<(), Fail> {
    for (bytes, fault) in NO_ROWS {
        assert_eq!(rt; fault_of(rt.alloc(), bytes), Some(fault), "{bytes:?}");
    }
    for (place, byte, fault) in CHANGED {
        assert_eq!(rt;
            fault_changed(rt.alloc(), place, byte)?,
            Some(fault),
            "{place}"
        );
    }
    Ok(())
}

/// A table of one best-effort flow that asked at 1010 for 20 minislots: its channel, where its next MAP begins, where its
/// lease ends, its due time, and how often its request waits.
#[derive(Clone, Copy, Debug)]
struct Given {
    channel: u8,
    next_start: u64,
    last: u64,
    due: u64,
    waiting: usize,
}

const GIVEN: Given = Given {
    channel: 1,
    next_start: 1100,
    last: 5000,
    due: 0,
    waiting: 1,
};

/// The table, whose lease begins at 1000.
fn table(alloc: Global, given: Given) -> Result<WholeTable, Fail> {
    let lease = Lease {
        sid: 1,
        modem: 50,
        tag: 1,
        first: 1000,
        last: given.last,
    };
    let flow = Flow {
        lease,
        kind: FlowKind::BestEffort(3),
        due: given.due,
        last_sent: Some(1010),
    };
    let request = Waiting {
        sid: 1,
        n: 20,
        sent: 1010,
    };
    let row = ChannelRow {
        channel: Channel {
            id: given.channel,
            ..CHANNEL
        },
        next_start: given.next_start,
        ack: 995,
    };
    let mut waiting = Vec::new(alloc);
    for _ in 0..given.waiting {
        waiting.push(request)?;
    }
    Ok(WholeTable {
        row,
        leases: Vec::from_slice(alloc, &[lease])?,
        flows: Vec::from_slice(alloc, &[flow])?,
        waiting,
    })
}

/// Tables that come one behind the other, and whether each is taken: a channel; the same channel again; one whose lease
/// begins behind the next MAP's start, one whose lease ends before it begins, one that asked behind its lease's end, a
/// best-effort flow that is due, and two requests of a SID; another channel.
const GIVEN_TABLES: [(Given, Result<(), NotAdopted>); 8] = [
    (GIVEN, Ok(())),
    (GIVEN, Err(NotAdopted::NotFirm)),
    (
        Given {
            channel: 2,
            next_start: 999,
            ..GIVEN
        },
        Err(NotAdopted::NotFirm),
    ),
    (
        Given {
            channel: 2,
            last: 999,
            ..GIVEN
        },
        Err(NotAdopted::NotFirm),
    ),
    (
        Given {
            channel: 2,
            last: 1009,
            ..GIVEN
        },
        Err(NotAdopted::NotFirm),
    ),
    (
        Given {
            channel: 2,
            due: 1,
            ..GIVEN
        },
        Err(NotAdopted::NotFirm),
    ),
    (
        Given {
            channel: 2,
            waiting: 2,
            ..GIVEN
        },
        Err(NotAdopted::NotFirm),
    ),
    (
        Given {
            channel: 2,
            waiting: 0,
            ..GIVEN
        },
        Ok(()),
    ),
];

#[test]
fn tables_that_commands_could_leave_are_adopted(rt: HostRuntime) -> Result<(), Fail> {
    let alloc = rt.alloc();
    let mut flows = Flows::new(alloc);
    for (given, answer) in GIVEN_TABLES {
        let table = table(alloc, given)?;
        assert_eq!(rt; flows.adopt(&table), answer, "{given:?}");
    }
    assert_eq!(rt; flows.channels(), 2);
    Ok(())
}
