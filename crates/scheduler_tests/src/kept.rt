//! Cuts with settings of their own: what their MAPs tell, which are refused, and when a modem asks by one.

use flow_state::{Channel, FlowKind, LAST_TIME, Phy};
use grant_machine::{Command, Machine, Output};
use minislot_time::Slot;
use modem::{Modem, Sending};
use std::alloc::{AllocError, Global};
use std::test::Fail;

/// The back-off of a cut that stands for the channel's own.
const OWN: (u8, u8) = (255, 255);

const CHANNEL: Command = Command::Channel(Channel {
    id: 1,
    ucd: 7,
    phy: Phy::Tdma,
    short_max: 16,
    ranging_backoff: (2, 5),
    data_backoff: (3, 8),
    base: 1000,
});

/// Unsolicited grants of 96 minislots.
const UNSOLICITED: FlowKind = FlowKind::Ugs {
    size: 96,
    interval: 100,
    jitter: 0,
    base: 1000,
};

fn flow(tag: u16, kind: FlowKind) -> Command {
    Command::Flow {
        ch: 1,
        modem: 50,
        tag: u32::from(tag),
        last: LAST_TIME,
        kind,
    }
}

fn request(sid: u16, n: u16) -> Command {
    Command::Request {
        ch: 1,
        sid,
        n,
        sent: 990,
    }
}

/// A cut with these settings.
fn cut(len: u16, keep: u16, ranging: (u8, u8), data: (u8, u8)) -> Command {
    Command::Cut {
        ch: 1,
        len,
        not_before: 0,
        ack: 0,
        keep,
        ranging,
        data,
    }
}

/// What is done on the channel.
#[derive(Clone, Copy)]
enum Step {
    /// The next SID gets unsolicited grants.
    Grants,
    /// The next SID asks for so many minislots.
    Asks(u16),
    /// A MAP of so many minislots that keeps so many has these words.
    Cut(u16, u16, &'static [u32]),
}

/// Is it a MAP with these words?
fn has_words(alloc: Global, output: &Output, words: &[u32]) -> Result<bool, AllocError> {
    let mut told = Vec::new(alloc);
    for word in words {
        told.extend_from_slice(&word.to_be_bytes())?;
    }
    match output {
        Output::Map { bytes, .. } => Ok(bytes.as_slice().get(16..) == Some(told.as_slice())),
        _ => Ok(false),
    }
}

/// Is a step as it says? A flow gets this SID.
fn is_right(
    machine: &mut Machine,
    alloc: Global,
    sid: u16,
    step: Step,
) -> Result<bool, AllocError> {
    match step {
        Step::Grants => {
            machine.apply(&flow(sid, UNSOLICITED))?;
            Ok(true)
        }
        Step::Asks(n) => {
            machine.apply(&flow(sid, FlowKind::BestEffort(0)))?;
            machine.apply(&request(sid, n))?;
            Ok(true)
        }
        Step::Cut(len, keep, words) => {
            let output = machine.apply(&cut(len, keep, OWN, OWN))?;
            has_words(alloc, &output, words)
        }
    }
}

/// A machine with the channel.
fn on_channel(alloc: Global) -> Result<Machine, AllocError> {
    let mut machine = Machine::new(alloc);
    machine.apply(&CHANNEL)?;
    Ok(machine)
}

/// How many steps are as they say, up to the first that isn't.
fn right(alloc: Global, steps: &[Step]) -> Result<usize, AllocError> {
    let mut machine = on_channel(alloc)?;
    let mut count: u16 = 0;
    for step in steps {
        if !is_right(&mut machine, alloc, count.saturating_add(1), *step)? {
            return Ok(usize::from(count));
        }
        count = count.saturating_add(1);
    }
    Ok(usize::from(count))
}

const ROWS: [&[Step]; 7] = [
    // as many stay free as are kept
    &[
        Step::Asks(92),
        Step::Cut(100, 8, &[0x0005_8000, 0xFFFC_405C, 0x0001_C064]),
    ],
    // one more isn't placed, until nothing is kept
    &[
        Step::Asks(93),
        Step::Cut(100, 8, &[0xFFFC_4000, 0x0001_C064, 0x0005_8064]),
        Step::Cut(100, 0, &[0x0005_8000, 0xFFFC_405D, 0x0001_C064]),
    ],
    // those behind one that is held back are looked at
    &[
        Step::Asks(93),
        Step::Asks(10),
        Step::Cut(
            100,
            8,
            &[0x0009_4000, 0xFFFC_400A, 0x0001_C064, 0x0005_8064],
        ),
    ],
    // what is placed isn't free any more
    &[
        Step::Asks(50),
        Step::Asks(43),
        Step::Cut(
            100,
            8,
            &[0x0005_8000, 0xFFFC_4032, 0x0001_C064, 0x0009_8064],
        ),
    ],
    // unsolicited grants take what is kept
    &[
        Step::Grants,
        Step::Asks(1),
        Step::Cut(
            100,
            8,
            &[0x0005_8000, 0xFFFC_4060, 0x0001_C064, 0x0009_4064],
        ),
    ],
    // more may be kept than there are
    &[
        Step::Asks(1),
        Step::Cut(10, 100, &[0xFFFC_4000, 0x0001_C00A, 0x0005_400A]),
    ],
    &[Step::Cut(1, 4096, &[0xFFFC_4000, 0x0001_C001])],
];

#[test]
fn minislots_that_are_kept(rt: HostRuntime) -> Result<(), Fail> {
    for steps in ROWS {
        assert_eq!(rt; right(rt.alloc(), steps)?, steps.len());
    }
    Ok(())
}

/// Has 61 SIDs ask for one minislot each.
fn crowd(machine: &mut Machine) -> Result<(), AllocError> {
    for sid in 1..62 {
        machine.apply(&flow(sid, FlowKind::BestEffort(0)))?;
        machine.apply(&request(sid, 1))?;
    }
    Ok(())
}

/// The MAP of 100 minislots that keeps so many then.
fn crowded(alloc: Global, keep: u16) -> Result<Output, AllocError> {
    let mut machine = on_channel(alloc)?;
    crowd(&mut machine)?;
    machine.apply(&cut(100, keep, OWN, OWN))
}

/// Has its body 63 elements, of which the first are placements and the last ones these?
fn ends_so(output: &Output, last: [u32; 4]) -> bool {
    let [a, b, c, d] = last;
    match output {
        Output::Map { bytes, .. } => {
            let bytes = bytes.as_slice();
            bytes.len() == 268
                && bytes.get(16..24) == Some(&[0, 5, 0x40, 0, 0, 9, 0x40, 1])
                && bytes.get(252..256) == Some(&a.to_be_bytes())
                && bytes.get(256..260) == Some(&b.to_be_bytes())
                && bytes.get(260..264) == Some(&c.to_be_bytes())
                && bytes.get(264..) == Some(&d.to_be_bytes())
        }
        _ => false,
    }
}

/// How many minislots are kept, and the last elements: 60 placements and no more, or 59 that leave as many free.
const CROWDED: [(u16, [u32; 4]); 2] = [
    (38, [0x00F1_403B, 0xFFFC_403C, 0x0001_C064, 0x00F5_4064]),
    (41, [0xFFFC_403B, 0x0001_C064, 0x00F1_4064, 0x00F5_4064]),
];

#[test]
fn placements_and_what_is_kept(rt: HostRuntime) -> Result<(), Fail> {
    for (keep, last) in CROWDED {
        assert!(rt; ends_so(&crowded(rt.alloc(), keep)?, last), "{keep}");
    }
    Ok(())
}

/// A cut of a MAP of 10 minislots: its channel, what it keeps, its back-offs, and the number of its refusal.
const REFUSED: [(u8, u16, (u8, u8), (u8, u8), u8); 6] = [
    (1, 4097, OWN, OWN, 7),
    (1, 0, OWN, (9, 8), 7),
    (1, 0, OWN, (0, 16), 7),
    (1, 0, (255, 254), OWN, 7),
    (1, 0, (3, 255), OWN, 7),
    (2, 4097, OWN, OWN, 1),
];

#[test]
fn cuts_that_are_refused(rt: HostRuntime) -> Result<(), Fail> {
    let mut machine = on_channel(rt.alloc())?;
    for (ch, keep, ranging, data, number) in REFUSED {
        let command = Command::Cut {
            ch,
            len: 10,
            not_before: 0,
            ack: 0,
            keep,
            ranging,
            data,
        };
        let is_refused = matches!(machine.apply(&command)?, Output::Refused(n) if n == number);
        assert!(rt; is_refused, "{ch} {keep} {ranging:?} {data:?}");
    }
    Ok(())
}

/// The back-offs of cuts of one minislot, one after another, and their bodies.
const TOLD: [((u8, u8), (u8, u8), [u8; 24]); 3] = [
    (
        OWN,
        (0, 0),
        [
            1, 7, 2, 0, 0, 0, 0x03, 0xE8, 0, 0, 0, 0, 2, 5, 0, 0, 0xFF, 0xFC, 0x40, 0, 0, 1, 0xC0,
            1,
        ],
    ),
    (
        (0, 15),
        OWN,
        [
            1, 7, 2, 0, 0, 0, 0x03, 0xE9, 0, 0, 0, 0, 0, 15, 3, 8, 0xFF, 0xFC, 0x40, 0, 0, 1, 0xC0,
            1,
        ],
    ),
    (
        OWN,
        OWN,
        [
            1, 7, 2, 0, 0, 0, 0x03, 0xEA, 0, 0, 0, 0, 2, 5, 3, 8, 0xFF, 0xFC, 0x40, 0, 0, 1, 0xC0,
            1,
        ],
    ),
];

/// Is it a MAP with this body?
fn has_body(output: &Output, body: &[u8]) -> bool {
    match output {
        Output::Map { bytes, .. } => bytes.as_slice() == body,
        _ => false,
    }
}

#[test]
fn backoffs_of_cuts(rt: HostRuntime) -> Result<(), Fail> {
    let mut machine = on_channel(rt.alloc())?;
    for (ranging, data, body) in TOLD {
        let output = machine.apply(&cut(1, 0, ranging, data))?;
        assert!(rt; has_body(&output, &body), "{ranging:?} {data:?}");
    }
    Ok(())
}

/// Modem 50, which has heard of a channel, of its SID, and of cuts of 50 minislots with these data back-offs.
fn told(alloc: Global, backoffs: &[(u8, u8)]) -> Result<Modem, Fail> {
    let mut machine = Machine::new(alloc);
    let mut modem = Modem::new(alloc, 50);
    let near = Slot::new(1000).ok_or("slot")?;
    modem.hear(&machine.apply(&CHANNEL)?, near)?;
    modem.hear(&machine.apply(&flow(1, FlowKind::BestEffort(0)))?, near)?;
    for data in backoffs {
        modem.hear(&machine.apply(&cut(50, 0, OWN, *data))?, near)?;
    }
    Ok(modem)
}

/// At which minislot, from 1000 on, it asks for 5 minislots, where the random number is 10; 1003 for a later one.
fn asks_at(alloc: Global, backoffs: &[(u8, u8)]) -> Result<u64, Fail> {
    let mut modem = told(alloc, backoffs)?;
    modem.want(1, 1, 5)?;
    for at in 1000..1003 {
        let sending = modem.tick(1, Slot::new(at).ok_or("slot")?, 10)?;
        if sending == Some(Sending::Request(1, 5)) {
            return Ok(at);
        }
    }
    Ok(1003)
}

#[test]
fn a_modem_takes_the_latest_backoff(rt: HostRuntime) -> Result<(), Fail> {
    assert_eq!(rt; asks_at(rt.alloc(), &[(0, 0)])?, 1000);
    assert_eq!(rt; asks_at(rt.alloc(), &[(0, 0), OWN])?, 1002);
    Ok(())
}
