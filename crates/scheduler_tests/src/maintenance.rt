//! Intervals of Station Maintenance and of Initial Maintenance: what MAPs tell of them, and what is refused of flows that
//! have them.

use flow_state::{Channel, FlowKind, LAST_TIME, Phy};
use grant_machine::{Command, Machine, Output};
use std::alloc::{AllocError, Global};
use std::test::Fail;

/// What is done on channel 1.
#[derive(Clone, Copy)]
enum Step {
    /// A flow of a modem, under a tag.
    Flow(u32, u32, FlowKind),
    /// A flow of modem 0 whose lease ends with this minislot.
    Leased(u64, FlowKind),
    Drop(u16),
    /// A SID asks for so many minislots.
    Request(u16, u16),
    /// A MAP of so many minislots.
    Cut(u16),
}

/// What comes of it.
#[derive(Clone, Copy)]
enum Told {
    Nothing,
    Sid(u16),
    Refused(u8),
    /// A MAP with these words.
    Words(&'static [u32]),
}

const STATION: FlowKind = FlowKind::Station {
    size: 2,
    interval: 40,
    jitter: 8,
    base: 1000,
};

const INITIAL: FlowKind = FlowKind::Initial {
    size: 30,
    interval: 1000,
    jitter: 50,
    base: 1010,
};

/// An opening of this size, due at 1000, so many minislots later at most.
const WIDE: FlowKind = FlowKind::Initial {
    size: 40,
    interval: 1000,
    jitter: 30,
    base: 1000,
};

const GRANTS: FlowKind = FlowKind::Ugs {
    size: 4,
    interval: 40,
    jitter: 0,
    base: 1000,
};

const BEST_EFFORT: FlowKind = FlowKind::BestEffort(0);

fn channel(phy: Phy) -> Command {
    Command::Channel(Channel {
        id: 1,
        ucd: 7,
        phy,
        short_max: 16,
        ranging_backoff: (2, 5),
        data_backoff: (3, 8),
        base: 1000,
    })
}

fn flow(modem: u32, tag: u32, last: u64, kind: FlowKind) -> Command {
    Command::Flow {
        ch: 1,
        modem,
        tag,
        last,
        kind,
    }
}

fn command(step: Step) -> Command {
    match step {
        Step::Flow(modem, tag, kind) => flow(modem, tag, LAST_TIME, kind),
        Step::Leased(last, kind) => flow(0, 1, last, kind),
        Step::Drop(sid) => Command::Drop { ch: 1, sid },
        Step::Request(sid, n) => Command::Request {
            ch: 1,
            sid,
            n,
            sent: 990,
        },
        Step::Cut(len) => Command::Cut {
            ch: 1,
            len,
            not_before: 0,
            ack: 995,
            keep: 0,
            ranging: (255, 255),
            data: (255, 255),
        },
    }
}

/// Is it a MAP with these words?
fn has_words(alloc: Global, output: &Output, words: &[u32]) -> Result<bool, AllocError> {
    let mut told = Vec::new(alloc);
    for word in words {
        told.extend_from_slice(&word.to_be_bytes())?;
    }
    match output {
        Output::Map { bytes, .. } => Ok(bytes.as_slice().get(16..) == Some(told.as_slice())),
        _ => Ok(false),
    }
}

fn is_told(alloc: Global, output: &Output, told: Told) -> Result<bool, AllocError> {
    match told {
        Told::Nothing => Ok(matches!(output, Output::Nothing)),
        Told::Sid(want) => Ok(matches!(output, Output::Assigned { sid, .. } if *sid == want)),
        Told::Refused(number) => Ok(matches!(output, Output::Refused(n) if *n == number)),
        Told::Words(words) => has_words(alloc, output, words),
    }
}

/// How many steps come out so, up to the first that doesn't.
fn right_on(
    alloc: Global,
    machine: &mut Machine,
    steps: &[(Step, Told)],
) -> Result<usize, AllocError> {
    let mut count: usize = 0;
    for (step, told) in steps {
        let output = machine.apply(&command(*step))?;
        if !is_told(alloc, &output, *told)? {
            return Ok(count);
        }
        count = count.saturating_add(1);
    }
    Ok(count)
}

/// The same on a channel of this PHY.
fn right(alloc: Global, phy: Phy, steps: &[(Step, Told)]) -> Result<usize, AllocError> {
    let mut machine = Machine::new(alloc);
    machine.apply(&channel(phy))?;
    right_on(alloc, &mut machine, steps)
}

/// An opening of 30 minislots from 1010 on, in a MAP of 100.
const OPENED: Told = Told::Words(&[0xFFFC_4000, 0xFFFC_C00A, 0xFFFC_4028, 0x0001_C064]);

/// The same MAP without it.
const NOT_OPENED: Told = Told::Words(&[0xFFFC_4000, 0x0001_C064]);

/// What is the same on both kinds of channel.
const ON_BOTH: [&[(Step, Told)]; 2] = [
    &[
        (Step::Flow(50, 1, STATION), Told::Sid(1)),
        (
            Step::Cut(100),
            Told::Words(&[
                0x0005_0000,
                0xFFFC_4002,
                0x0005_0028,
                0xFFFC_402A,
                0x0005_0050,
                0xFFFC_4052,
                0x0001_C064,
            ]),
        ),
    ],
    &[
        (Step::Flow(0, 1, INITIAL), Told::Sid(1)),
        (Step::Cut(100), OPENED),
    ],
];

#[test]
fn intervals_on_both_kinds_of_channel(rt: HostRuntime) -> Result<(), Fail> {
    for steps in ON_BOTH {
        assert_eq!(rt; right(rt.alloc(), Phy::Tdma, steps)?, steps.len());
        assert_eq!(rt; right(rt.alloc(), Phy::Advanced, steps)?, steps.len());
    }
    Ok(())
}

const PLACED: [&[(Step, Told)]; 5] = [
    // behind unsolicited grants and polls, before requests, and by SID, whichever of the two kinds it is
    &[
        (
            Step::Flow(
                0,
                1,
                FlowKind::Initial {
                    size: 10,
                    interval: 100,
                    jitter: 60,
                    base: 1000,
                },
            ),
            Told::Sid(1),
        ),
        (
            Step::Flow(
                50,
                1,
                FlowKind::Station {
                    size: 2,
                    interval: 100,
                    jitter: 20,
                    base: 1000,
                },
            ),
            Told::Sid(2),
        ),
        (
            Step::Flow(
                50,
                2,
                FlowKind::Poll {
                    interval: 50,
                    jitter: 0,
                    base: 1001,
                },
            ),
            Told::Sid(3),
        ),
        (
            Step::Flow(
                50,
                3,
                FlowKind::Ugs {
                    size: 4,
                    interval: 40,
                    jitter: 0,
                    base: 1002,
                },
            ),
            Told::Sid(4),
        ),
        (Step::Flow(50, 4, BEST_EFFORT), Told::Sid(5)),
        (Step::Request(5, 30), Told::Nothing),
        (
            Step::Cut(80),
            Told::Words(&[
                0xFFFC_4000,
                0x000C_4001,
                0x0011_4002,
                0xFFFC_C006,
                0x0009_0010,
                0xFFFC_4012,
                0x0011_402A,
                0xFFFC_402E,
                0x000C_4033,
                0xFFFC_4034,
                0x0001_C050,
                0x0015_8050,
            ]),
        ),
        (
            Step::Cut(80),
            Told::Words(&[
                0xFFFC_4000,
                0x0011_4002,
                0xFFFC_4006,
                0x000C_4015,
                0xFFFC_C016,
                0x0009_0020,
                0xFFFC_4022,
                0x0011_402A,
                0xFFFC_402E,
                0x000C_4047,
                0xFFFC_4048,
                0x0001_C050,
                0x0015_8050,
            ]),
        ),
    ],
    // unsolicited grants leave no room in the window of an opening
    &[
        (Step::Flow(50, 1, GRANTS), Told::Sid(1)),
        (
            Step::Flow(
                0,
                1,
                FlowKind::Initial {
                    size: 40,
                    interval: 1000,
                    jitter: 10,
                    base: 1000,
                },
            ),
            Told::Sid(2),
        ),
        (
            Step::Cut(100),
            Told::Words(&[
                0x0005_4000,
                0xFFFC_4004,
                0x0005_4028,
                0xFFFC_402C,
                0x0005_4050,
                0xFFFC_4054,
                0x0001_C064,
            ]),
        ),
    ],
    // an opening waits for a MAP that has room, while its window lasts
    &[
        (Step::Flow(0, 1, WIDE), Told::Sid(1)),
        (Step::Cut(20), Told::Words(&[0xFFFC_4000, 0x0001_C014])),
        (
            Step::Cut(60),
            Told::Words(&[0xFFFC_C000, 0xFFFC_4028, 0x0001_C03C]),
        ),
    ],
    &[
        (Step::Flow(0, 1, WIDE), Told::Sid(1)),
        (Step::Cut(20), Told::Words(&[0xFFFC_4000, 0x0001_C014])),
        (Step::Cut(20), Told::Words(&[0xFFFC_4000, 0x0001_C014])),
        (Step::Cut(60), Told::Words(&[0xFFFC_4000, 0x0001_C03C])),
    ],
    // a request has what they leave
    &[
        (Step::Flow(50, 1, STATION), Told::Sid(1)),
        (Step::Flow(50, 2, BEST_EFFORT), Told::Sid(2)),
        (Step::Request(2, 100), Told::Nothing),
        (
            Step::Cut(100),
            Told::Words(&[
                0x0005_0000,
                0xFFFC_4002,
                0x0005_0028,
                0xFFFC_402A,
                0x0005_0050,
                0xFFFC_4052,
                0x0001_C064,
                0x0009_8064,
            ]),
        ),
    ],
];

#[test]
fn intervals_beside_what_else_is_placed(rt: HostRuntime) -> Result<(), Fail> {
    for steps in PLACED {
        assert_eq!(rt; right(rt.alloc(), Phy::Tdma, steps)?, steps.len());
    }
    Ok(())
}

const REFUSED: [&[(Step, Told)]; 2] = [
    // requests, and values beyond a limit
    &[
        (Step::Flow(50, 1, STATION), Told::Sid(1)),
        (Step::Flow(0, 1, INITIAL), Told::Sid(2)),
        (Step::Request(1, 5), Told::Refused(7)),
        (Step::Request(2, 5), Told::Refused(7)),
        (
            Step::Flow(
                50,
                2,
                FlowKind::Station {
                    size: 0,
                    interval: 40,
                    jitter: 8,
                    base: 1000,
                },
            ),
            Told::Refused(7),
        ),
        (
            Step::Flow(
                50,
                2,
                FlowKind::Initial {
                    size: 256,
                    interval: 1000,
                    jitter: 50,
                    base: 1010,
                },
            ),
            Told::Refused(7),
        ),
        (
            Step::Flow(
                50,
                2,
                FlowKind::Initial {
                    size: 30,
                    interval: 1000,
                    jitter: 1000,
                    base: 1010,
                },
            ),
            Told::Refused(7),
        ),
    ],
    // the lease of modem and tag is told again, whatever the kind
    &[
        (Step::Flow(50, 1, STATION), Told::Sid(1)),
        (Step::Flow(50, 1, BEST_EFFORT), Told::Sid(1)),
    ],
];

#[test]
fn what_is_refused_of_them(rt: HostRuntime) -> Result<(), Fail> {
    for steps in REFUSED {
        assert_eq!(rt; right(rt.alloc(), Phy::Tdma, steps)?, steps.len());
    }
    Ok(())
}

const ENDED: [&[(Step, Told)]; 3] = [
    &[
        (Step::Flow(0, 1, INITIAL), Told::Sid(1)),
        (Step::Drop(1), Told::Nothing),
        (Step::Cut(100), NOT_OPENED),
    ],
    // the lease ends with the opening's last minislot, or one before it
    &[
        (Step::Leased(1038, INITIAL), Told::Sid(1)),
        (Step::Cut(100), NOT_OPENED),
    ],
    &[
        (Step::Leased(1039, INITIAL), Told::Sid(1)),
        (Step::Cut(100), OPENED),
    ],
];

#[test]
fn openings_end_with_their_lease(rt: HostRuntime) -> Result<(), Fail> {
    for steps in ENDED {
        assert_eq!(rt; right(rt.alloc(), Phy::Tdma, steps)?, steps.len());
    }
    Ok(())
}
