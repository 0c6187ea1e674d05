//! Why commands are refused.

use flow_state::{Channel, ChannelSettings, Field, FlowKind, LAST_TIME, Phy, Reason};
use grant_machine::{Command, Machine, Output};
use std::alloc::Global;
use std::test::Fail;

const CHANNEL: Channel = Channel {
    id: 1,
    ucd: 7,
    phy: Phy::Tdma,
    short_max: 16,
    ranging_backoff: (2, 5),
    data_backoff: (3, 8),
    base: 1000,
};

const SETTINGS: ChannelSettings = ChannelSettings {
    ucd: 7,
    phy: Phy::Tdma,
    short_max: 16,
    ranging_backoff: (2, 5),
    data_backoff: (3, 8),
};

/// Unsolicited grants of a size, an interval and a jitter, with a lease that ends so.
const fn grants(size: u16, interval: u32, jitter: u32, last: u64) -> Command {
    Command::Flow {
        ch: 1,
        modem: 50,
        tag: 9,
        last,
        kind: FlowKind::Ugs {
            size,
            interval,
            jitter,
            base: 1000,
        },
    }
}

const fn ask(sid: u16, n: u16, sent: u64) -> Command {
    Command::Request {
        ch: 1,
        sid,
        n,
        sent,
    }
}

const fn change(settings: ChannelSettings) -> Command {
    Command::Change { ch: 1, settings }
}

/// A cut of so many minislots, no earlier than this, with a data back-off.
const fn cut(len: u16, not_before: u64, data: (u8, u8)) -> Command {
    Command::Cut {
        ch: 1,
        len,
        not_before,
        ack: 0,
        keep: 0,
        ranging: (255, 255),
        data,
    }
}

const fn outside(field: Field, value: u64, least: u64, most: u64) -> Reason {
    Reason::Outside {
        field,
        value,
        least,
        most,
    }
}

/// Channel 1 with a best-effort flow whose lease ends with 1049, SID 1, of which a request of 990 waits, and one of
/// unsolicited grants, SID 2.
fn machine(alloc: Global) -> Result<Machine, Fail> {
    let mut machine = Machine::new(alloc);
    let first = Command::Flow {
        ch: 1,
        modem: 50,
        tag: 1,
        last: 1049,
        kind: FlowKind::BestEffort(3),
    };
    let second = Command::Flow {
        ch: 1,
        modem: 50,
        tag: 2,
        last: LAST_TIME,
        kind: FlowKind::Ugs {
            size: 4,
            interval: 10,
            jitter: 4,
            base: 1000,
        },
    };
    for command in [Command::Channel(CHANNEL), first, second, ask(1, 20, 990)] {
        machine.apply(&command)?;
    }
    Ok(machine)
}

/// Channels and changes, each with its reason.
fn settings() -> [(Command, Reason); 6] {
    let turned = Channel {
        id: 2,
        data_backoff: (9, 8),
        short_max: 0,
        ..CHANNEL
    };
    let short = Channel {
        id: 2,
        short_max: 0,
        base: LAST_TIME + 1,
        ..CHANNEL
    };
    let backoff = Reason::BackoffTurned {
        field: Field::Data,
        start: 9,
        end: 8,
    };
    let count = ChannelSettings { ucd: 9, ..SETTINGS };
    let phy = ChannelSettings {
        phy: Phy::Advanced,
        short_max: 8,
        ..SETTINGS
    };
    let size = ChannelSettings {
        short_max: 8,
        ..SETTINGS
    };
    let other = Reason::OtherShortMax {
        short_max: 8,
        own: 16,
    };
    [
        (Command::Channel(turned), backoff),
        (
            Command::Channel(short),
            outside(Field::ShortMax, 0, 1, 65535),
        ),
        (Command::Channel(CHANNEL), Reason::ChannelThere { ch: 1 }),
        (change(count), Reason::WrongCount { ucd: 9, own: 7 }),
        (change(phy), Reason::OtherPhy),
        (change(size), other),
    ]
}

/// Flows and requests, each with its reason.
fn asked() -> [(Command, Reason); 11] {
    let long = Reason::JitterTooLong {
        jitter: 900,
        interval: 800,
    };
    let early = Reason::LastTooEarly {
        last: 5,
        next_start: 1000,
    };
    let behind = Reason::BehindLease {
        sent: 1050,
        last: 1049,
    };
    let repeated = Reason::Repeated {
        sent: 990,
        last: 990,
    };
    [
        (grants(300, 0, 900, 5), outside(Field::Size, 300, 1, 255)),
        (
            grants(4, 0, 900, 5),
            outside(Field::Interval, 0, 1, 1_000_000),
        ),
        (grants(4, 800, 900, 5), long),
        (grants(4, 800, 80, 5), early),
        (ask(33, 0, 0), Reason::NoFlow { ch: 1, sid: 33 }),
        (ask(1, 256, 1050), outside(Field::Minislots, 256, 1, 255)),
        (ask(1, 20, 1050), behind),
        (ask(2, 20, 990), Reason::TakesNoRequests { sid: 2 }),
        (ask(1, 20, 990), repeated),
        (ask(1, 20, 991), Reason::Waits { sid: 1 }),
        (Command::Drop { ch: 2, sid: 1 }, Reason::NoChannel { ch: 2 }),
    ]
}

/// Cuts, each with its reason.
fn cuts() -> [(Command, Reason); 5] {
    let end = outside(Field::End, LAST_TIME + 1, 0, LAST_TIME);
    let late = outside(Field::NotBefore, u64::MAX, 0, LAST_TIME);
    let data = outside(Field::Data, 16, 0, 15);
    [
        (cut(0, u64::MAX, (3, 16)), outside(Field::Len, 0, 1, 4096)),
        (cut(4097, 0, (3, 8)), outside(Field::Len, 4097, 1, 4096)),
        (cut(1, u64::MAX, (3, 16)), late),
        (cut(1, LAST_TIME, (3, 16)), end),
        (cut(1, 0, (3, 16)), data),
    ]
}

/// Is the command refused for this reason?
fn is_reason(machine: &mut Machine, command: Command, reason: Reason) -> Result<bool, Fail> {
    let told = machine.why(&command) == Some(reason);
    match machine.apply(&command)? {
        Output::Refused(number) => Ok(told && number == reason.refusal().number()),
        _ => Ok(false),
    }
}

#[test]
fn reasons_of_refusals(rt: HostRuntime) -> Result<(), Fail> {
    let mut machine = machine(rt.alloc())?;
    for (command, reason) in settings() {
        assert!(rt; is_reason(&mut machine, command, reason)?, "{command:?}");
    }
    for (command, reason) in asked() {
        assert!(rt; is_reason(&mut machine, command, reason)?, "{command:?}");
    }
    for (command, reason) in cuts() {
        assert!(rt; is_reason(&mut machine, command, reason)?, "{command:?}");
    }
    assert!(rt; machine.why(&cut(1, 0, (255, 255))).is_none());
    Ok(())
}
