//! What a modem heard as a plain list of cells, one for each minislot, beside the modem's intervals.

use crate::modems::{Map, heard_map, modem_of};
use minislot_time::Slot;
use modem::{Heard, Modem, Sending};
use std::alloc::{AllocError, Global};
use std::test::Fail;

/// The SID of minislots that are open to all.
const OPEN: u32 = 0x3FFF;

/// The SID of the modem of these tests.
const OWN: u16 = 1;

/// The channel's data back-off begins at this exponent of two.
const BACKOFF: u64 = 8;

/// What happens to a modem.
#[derive(Clone, Copy)]
enum Step {
    /// It hears a MAP near a minislot.
    Hear(Map, u64),
    /// It wants so many minislots.
    Want(u16),
    /// It comes to a minislot, with a random number.
    Tick(u64, u64),
    /// It comes to each minislot from one up to another, the latter not among them.
    Ticks(u64, u64),
}

/// A minislot that was heard of: whose it is, and the IUC.
#[derive(Clone, Copy)]
struct Cell {
    at: u64,
    sid: u32,
    iuc: u32,
}

/// A modem that keeps all minislots of the MAPs that it heard one by one.
#[derive(Drop)]
struct Plain {
    clock: u64,
    cells: Vec<Cell>,
    want: Option<u16>,
    left: Option<u64>,
}

fn offset_of(word: u32) -> u64 {
    u64::from(word % 0x4000)
}

/// The offset of the first Null.
fn length_of(words: &[u32]) -> u64 {
    for word in words {
        if word / 0x4000 % 16 == 7 {
            return offset_of(*word);
        }
    }
    0
}

impl Plain {
    /// The minislots from an element's offset to the next one's.
    fn keep(&mut self, start: u64, word: u32, end: u64) -> Result<(), AllocError> {
        for x in offset_of(word)..end {
            self.cells.push(Cell {
                at: start.saturating_add(x),
                sid: word / 0x4_0000,
                iuc: word / 0x4000 % 16,
            })?;
        }
        Ok(())
    }

    fn hear(&mut self, map: Map, near: u64) -> Result<Heard, AllocError> {
        self.clock = self.clock.max(near);
        let len = length_of(map.words);
        if map.start.saturating_add(len) <= self.clock {
            return Ok(Heard::Past);
        }
        for (word, next) in map.words.iter().zip(map.words.iter().skip(1)) {
            self.keep(map.start, *word, offset_of(*next).min(len))?;
        }
        Ok(Heard::Taken)
    }

    /// Is a minislot this SID's, for one of these uses?
    fn has(&self, at: u64, sid: u32, uses: &[u32]) -> bool {
        for cell in &self.cells {
            if cell.at == at && cell.sid == sid && uses.contains(&cell.iuc) {
                return true;
            }
        }
        false
    }

    /// A minislot that is open to all, by back-off.
    fn backed_off(&mut self, random: u64) -> Option<Sending> {
        let n = self.want?;
        let left = match self.left {
            Some(left) => left,
            None => random % BACKOFF,
        };
        if left > 0 {
            self.left = Some(left - 1);
            return None;
        }
        self.want = None;
        Some(Sending::Request(OWN, n))
    }

    fn tick(&mut self, at: u64, random: u64) -> Option<Sending> {
        self.clock = at.saturating_add(1);
        let own = u32::from(OWN);
        if self.has(at, own, &[5, 6]) {
            return Some(Sending::Unicast(OWN));
        }
        if self.has(at, own, &[4]) {
            return Some(Sending::Ranging(OWN));
        }
        if self.has(at, own, &[1]) {
            let n = self.want.take()?;
            return Some(Sending::Polled(OWN, n));
        }
        if self.has(at, OPEN, &[1]) {
            return self.backed_off(random);
        }
        None
    }
}

/// Does a minislot give the same by both?
fn ticks_alike(modem: &mut Modem, plain: &mut Plain, at: u64, random: u64) -> bool {
    match Slot::new(at) {
        Some(slot) => modem.tick(1, slot, random) == Ok(plain.tick(at, random)),
        None => false,
    }
}

/// Does a step give the same by both?
fn is_alike(modem: &mut Modem, plain: &mut Plain, alloc: Global, step: Step) -> Result<bool, Fail> {
    match step {
        Step::Hear(map, near) => {
            Ok(heard_map(modem, alloc, map, near)? == plain.hear(map, near)?)
        }
        Step::Want(n) => {
            plain.want = Some(n);
            Ok(modem.want(1, OWN, n).is_ok())
        }
        Step::Tick(at, random) => Ok(ticks_alike(modem, plain, at, random)),
        Step::Ticks(from, to) => Ok((from..to).all(|at| ticks_alike(modem, plain, at, 0))),
    }
}

/// How many steps give the same by both, up to the first that doesn't.
fn alike(alloc: Global, steps: &[Step]) -> Result<usize, Fail> {
    let mut modem = modem_of(alloc, 50, 0, 1 << 62)?;
    let mut plain = Plain {
        clock: 0,
        cells: Vec::new(alloc),
        want: None,
        left: None,
    };
    let mut count: usize = 0;
    for step in steps {
        if !is_alike(&mut modem, &mut plain, alloc, *step)? {
            return Ok(count);
        }
        count = count.saturating_add(1);
    }
    Ok(count)
}

const WRAPPING: Map = Map {
    start: 4294967286,
    ack: 0,
    words: &[0x0005_8000, 0x0001_C014],
};

const BY_TURNS: &[u32] = &[0x0005_4000, 0x0009_4004, 0xFFFC_4008, 0x0001_C00A];

const FIRST: Map = Map {
    start: 1000,
    ack: 0,
    words: BY_TURNS,
};

const THIRD: Map = Map {
    start: 1020,
    ack: 0,
    words: BY_TURNS,
};

const OPEN_TO_ALL: Map = Map {
    start: 1000,
    ack: 0,
    words: &[0xFFFC_4000, 0x0001_C064],
};

const POLL: Map = Map {
    start: 1100,
    ack: 0,
    words: &[0x0004_4000, 0xFFFC_4002, 0x0001_C004],
};

const MAINTENANCE: Map = Map {
    start: 1000,
    ack: 0,
    words: &[0x0005_0000, 0xFFFC_C002, 0xFFFC_4006, 0x0001_C008],
};

const ROWS: [&[Step]; 7] = [
    // a wire time that wraps, in time and too late
    &[Step::Hear(WRAPPING, 4294967284), Step::Tick(4294967296, 0)],
    &[Step::Hear(WRAPPING, 6442450933)],
    // MAPs out of order and again
    &[
        Step::Hear(THIRD, 1003),
        Step::Hear(THIRD, 1003),
        Step::Hear(FIRST, 1003),
        Step::Tick(1003, 0),
        Step::Tick(1012, 0),
        Step::Tick(1021, 0),
        Step::Hear(FIRST, 1022),
        Step::Tick(1024, 0),
    ],
    // each minislot of two MAPs
    &[
        Step::Hear(FIRST, 1000),
        Step::Hear(THIRD, 1000),
        Step::Ticks(1000, 1032),
    ],
    // a request by back-off, and one at a poll
    &[
        Step::Hear(OPEN_TO_ALL, 1000),
        Step::Want(20),
        Step::Tick(1000, 10),
        Step::Ticks(1001, 1004),
    ],
    &[
        Step::Hear(POLL, 1100),
        Step::Tick(1100, 0),
        Step::Want(20),
        Step::Ticks(1101, 1104),
    ],
    // ranging, and an opening, in which nobody asks
    &[
        Step::Hear(MAINTENANCE, 1000),
        Step::Want(20),
        Step::Ticks(1000, 1008),
    ],
];

#[test]
fn modems_are_alike(rt: HostRuntime) -> Result<(), Fail> {
    for steps in ROWS {
        assert_eq!(rt; alike(rt.alloc(), steps)?, steps.len());
    }
    Ok(())
}
