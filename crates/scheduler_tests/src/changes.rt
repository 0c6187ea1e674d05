//! A channel that changes while flows and requests are on it.

use flow_state::{Channel, ChannelSettings, FlowKind, LAST_TIME, Phy};
use grant_machine::{Command, Machine, Output};
use std::alloc::{AllocError, Global};
use std::test::Fail;

/// What is done on channel 1, with SID 1 of modem 50.
#[derive(Clone, Copy)]
enum Step {
    /// The channel is set, with this UCD Count.
    Set(u8),
    Change(ChannelSettings),
    /// A channel that isn't set changes.
    ChangeOther(ChannelSettings),
    /// The SID asks for so many minislots.
    Request(u16),
    /// A MAP of so many minislots, with this Ack Time.
    Cut(u16, u64),
}

/// What comes of it.
#[derive(Clone, Copy)]
enum Told {
    Nothing,
    /// Channel 1 has this UCD Count.
    Count(u8),
    Refused(u8),
    /// A MAP, whose bytes are these from a place on.
    Map(usize, &'static [u8]),
}

/// A flow, the UCD Count with which its channel is set, and what is done then.
struct Row {
    kind: FlowKind,
    ucd: u8,
    steps: &'static [(Step, Told)],
}

/// The channel as it is set.
const SAME: ChannelSettings = ChannelSettings {
    ucd: 7,
    phy: Phy::Tdma,
    short_max: 16,
    ranging_backoff: (2, 5),
    data_backoff: (3, 8),
};

/// The next count, and fewer minislots of a short grant.
const SHORTER: ChannelSettings = ChannelSettings {
    ucd: 8,
    short_max: 8,
    ..SAME
};

const ADVANCED: ChannelSettings = ChannelSettings {
    ucd: 8,
    phy: Phy::Advanced,
    ..SAME
};

/// Other back-offs under the same count.
const BACKOFFS: ChannelSettings = ChannelSettings {
    ranging_backoff: (0, 15),
    data_backoff: (0, 0),
    ..SAME
};

const ASKING: FlowKind = FlowKind::BestEffort(0);

const GRANTS: FlowKind = FlowKind::Ugs {
    size: 4,
    interval: 40,
    jitter: 0,
    base: 1000,
};

/// What changes of a channel with a request that waits, a MAP's count and codes; and what stays.
const KEPT: [Row; 6] = [
    Row {
        kind: ASKING,
        ucd: 7,
        steps: &[
            (Step::Request(16), Told::Nothing),
            (Step::Change(SHORTER), Told::Count(8)),
            (
                Step::Cut(100, 995),
                Told::Map(
                    0,
                    &[
                        0x01, 0x08, 0x03, 0x00, 0x00, 0x00, 0x03, 0xE8, 0x00, 0x00, 0x03, 0xE3,
                        0x02, 0x05, 0x03, 0x08, 0x00, 0x05, 0x80, 0x00, 0xFF, 0xFC, 0x40, 0x10,
                        0x00, 0x01, 0xC0, 0x64,
                    ],
                ),
            ),
        ],
    },
    Row {
        kind: ASKING,
        ucd: 7,
        steps: &[
            (Step::Request(16), Told::Nothing),
            (
                Step::Cut(10, 0),
                Told::Map(
                    16,
                    &[
                        0xFF, 0xFC, 0x40, 0x00, 0x00, 0x01, 0xC0, 0x0A, 0x00, 0x05, 0x40, 0x0A,
                    ],
                ),
            ),
            (Step::Change(SHORTER), Told::Count(8)),
            (
                Step::Cut(10, 0),
                Told::Map(
                    16,
                    &[
                        0xFF, 0xFC, 0x40, 0x00, 0x00, 0x01, 0xC0, 0x0A, 0x00, 0x05, 0x80, 0x0A,
                    ],
                ),
            ),
        ],
    },
    Row {
        kind: ASKING,
        ucd: 7,
        steps: &[
            (Step::Request(16), Told::Nothing),
            (Step::Change(ADVANCED), Told::Count(8)),
            (
                Step::Cut(100, 0),
                Told::Map(
                    16,
                    &[
                        0x00, 0x06, 0x40, 0x00, 0xFF, 0xFC, 0x40, 0x10, 0x00, 0x01, 0xC0, 0x64,
                    ],
                ),
            ),
        ],
    },
    Row {
        kind: GRANTS,
        ucd: 7,
        steps: &[
            (Step::Change(ADVANCED), Told::Count(8)),
            (
                Step::Cut(8, 0),
                Told::Map(
                    16,
                    &[
                        0x00, 0x06, 0xC0, 0x00, 0xFF, 0xFC, 0x40, 0x04, 0x00, 0x01, 0xC0, 0x08,
                    ],
                ),
            ),
        ],
    },
    Row {
        kind: ASKING,
        ucd: 7,
        steps: &[
            (Step::Change(BACKOFFS), Told::Count(7)),
            (
                Step::Cut(1, 0),
                Told::Map(
                    12,
                    &[
                        0x00, 0x0F, 0x00, 0x00, 0xFF, 0xFC, 0x40, 0x00, 0x00, 0x01, 0xC0, 0x01,
                    ],
                ),
            ),
        ],
    },
    Row {
        kind: ASKING,
        ucd: 7,
        steps: &[
            (Step::Request(20), Told::Nothing),
            (
                Step::Cut(100, 995),
                Told::Map(
                    16,
                    &[
                        0x00, 0x05, 0x80, 0x00, 0xFF, 0xFC, 0x40, 0x14, 0x00, 0x01, 0xC0, 0x64,
                    ],
                ),
            ),
            (Step::Change(SHORTER), Told::Count(8)),
            (
                Step::Cut(10, 0),
                Told::Map(
                    0,
                    &[
                        0x01, 0x08, 0x02, 0x00, 0x00, 0x00, 0x04, 0x4C, 0x00, 0x00, 0x03, 0xE3,
                        0x02, 0x05, 0x03, 0x08, 0xFF, 0xFC, 0x40, 0x00, 0x00, 0x01, 0xC0, 0x0A,
                    ],
                ),
            ),
        ],
    },
];

/// The UCD Count with which a channel is set, what is done, and what the last step gives.
const COUNTS: [(u8, &[Step], Told); 16] = [
    (7, &[Step::Change(BACKOFFS)], Told::Count(7)),
    (7, &[Step::Change(SAME)], Told::Count(7)),
    (
        7,
        &[Step::Change(ChannelSettings { ucd: 8, ..SAME })],
        Told::Count(8),
    ),
    (
        7,
        &[Step::Change(ChannelSettings {
            short_max: 8,
            ..SAME
        })],
        Told::Refused(7),
    ),
    (
        7,
        &[Step::Change(ChannelSettings {
            phy: Phy::Advanced,
            ..SAME
        })],
        Told::Refused(7),
    ),
    (
        7,
        &[Step::Change(ChannelSettings { ucd: 9, ..SAME })],
        Told::Refused(7),
    ),
    (
        7,
        &[Step::Change(ChannelSettings { ucd: 6, ..SAME })],
        Told::Refused(7),
    ),
    (
        7,
        &[Step::Change(ChannelSettings {
            short_max: 0,
            ..SHORTER
        })],
        Told::Refused(7),
    ),
    (
        7,
        &[Step::Change(ChannelSettings {
            data_backoff: (9, 8),
            ..SHORTER
        })],
        Told::Refused(7),
    ),
    (
        7,
        &[Step::Change(ChannelSettings {
            ranging_backoff: (0, 16),
            ..SHORTER
        })],
        Told::Refused(7),
    ),
    (7, &[Step::ChangeOther(SHORTER)], Told::Refused(1)),
    (
        7,
        &[Step::Change(SHORTER), Step::Change(SHORTER)],
        Told::Count(8),
    ),
    (
        7,
        &[Step::Change(SHORTER), Step::Change(SAME)],
        Told::Refused(7),
    ),
    (7, &[Step::Change(SHORTER), Step::Set(7)], Told::Refused(2)),
    (
        255,
        &[Step::Change(ChannelSettings { ucd: 0, ..SAME })],
        Told::Count(0),
    ),
    (
        254,
        &[Step::Change(ChannelSettings { ucd: 255, ..SAME })],
        Told::Count(255),
    ),
];

fn channel(ucd: u8) -> Command {
    Command::Channel(Channel {
        id: 1,
        ucd,
        phy: Phy::Tdma,
        short_max: 16,
        ranging_backoff: (2, 5),
        data_backoff: (3, 8),
        base: 1000,
    })
}

fn flow(kind: FlowKind) -> Command {
    Command::Flow {
        ch: 1,
        modem: 50,
        tag: 1,
        last: LAST_TIME,
        kind,
    }
}

fn command(step: Step) -> Command {
    match step {
        Step::Set(ucd) => channel(ucd),
        Step::Change(settings) => Command::Change { ch: 1, settings },
        Step::ChangeOther(settings) => Command::Change { ch: 2, settings },
        Step::Request(n) => Command::Request {
            ch: 1,
            sid: 1,
            n,
            sent: 990,
        },
        Step::Cut(len, ack) => Command::Cut {
            ch: 1,
            len,
            not_before: 0,
            ack,
            keep: 0,
            ranging: (255, 255),
            data: (255, 255),
        },
    }
}

fn is_told(output: &Output, told: Told) -> bool {
    match (output, told) {
        (Output::Nothing, Told::Nothing) => true,
        (Output::ChannelSet { ch, ucd }, Told::Count(count)) => *ch == 1 && *ucd == count,
        (Output::Refused(number), Told::Refused(want)) => *number == want,
        (Output::Map { bytes, .. }, Told::Map(place, want)) => {
            bytes.as_slice().get(place..) == Some(want)
        }
        _ => false,
    }
}

/// How many steps give what they should, up to the first that doesn't.
fn right(machine: &mut Machine, row: &Row) -> Result<usize, AllocError> {
    let mut count: usize = 0;
    machine.apply(&channel(row.ucd))?;
    machine.apply(&flow(row.kind))?;
    for (step, told) in row.steps {
        if !is_told(&machine.apply(&command(*step))?, *told) {
            return Ok(count);
        }
        count = count.saturating_add(1);
    }
    Ok(count)
}

/// The same of a new machine.
fn right_anew(alloc: Global, row: &Row) -> Result<usize, AllocError> {
    right(&mut Machine::new(alloc), row)
}

#[test]
fn maps_after_a_change(rt: HostRuntime) -> Result<(), Fail> {
    for row in &KEPT {
        assert_eq!(rt; right_anew(rt.alloc(), row)?, row.steps.len());
    }
    Ok(())
}

/// What the last step of a new machine gives.
fn last_output(alloc: Global, ucd: u8, steps: &[Step]) -> Result<Output, AllocError> {
    let mut machine = Machine::new(alloc);
    let mut output = machine.apply(&channel(ucd))?;
    for step in steps {
        output = machine.apply(&command(*step))?;
    }
    Ok(output)
}

/// Whether it is this.
fn ends_so(alloc: Global, ucd: u8, steps: &[Step], told: Told) -> Result<bool, AllocError> {
    let output = last_output(alloc, ucd, steps)?;
    Ok(is_told(&output, told))
}

#[test]
fn counts_of_changes(rt: HostRuntime) -> Result<(), Fail> {
    for (ucd, steps, told) in COUNTS {
        assert!(rt; ends_so(rt.alloc(), ucd, steps, told)?, "{ucd}");
    }
    Ok(())
}
