//! The first body of a cut, in which each minislot is a cell of a plain list, beside the machine's.

use flow_state::{Channel, FlowKind, LAST_TIME, Phy};
use grant_machine::{Command, Machine, Output};
use std::alloc::{AllocError, Global};
use std::test::Fail;

/// As many placements may a MAP have.
const MOST_PLACEMENTS: usize = 60;

/// More due times than a flow of these rows has in a MAP.
const MOST_DUE: usize = 100;

/// The back-off of a cut that stands for the channel's own.
const OWN: (u8, u8) = (255, 255);

/// The largest short grant.
const SHORT_MAX: u16 = 16;

/// What comes at a due time of a flow, of so many minislots.
#[derive(Clone, Copy)]
enum Gives {
    Grant(u16),
    Poll,
    Station(u16),
    Initial(u16),
}

impl Gives {
    /// How many flows' kinds are served before it in a cut.
    fn turn(self) -> u8 {
        match self {
            Gives::Grant(_) => 0,
            Gives::Poll => 1,
            Gives::Station(_) | Gives::Initial(_) => 2,
        }
    }

    /// Its size, and the SID and the IUC that a MAP tells of it.
    fn told(self, sid: u16) -> (u16, (u16, u8)) {
        match self {
            Gives::Grant(size) => (size, (sid, grant_iuc(size))),
            Gives::Poll => (1, (sid, 1)),
            Gives::Station(size) => (size, (sid, 4)),
            Gives::Initial(size) => (size, (0x3FFF, 3)),
        }
    }
}

/// What comes at each due time of a flow.
#[derive(Clone, Copy)]
struct Due {
    gives: Gives,
    interval: u32,
    jitter: u32,
    base: u64,
}

/// What is done on channel 1, whose flows are all of one modem.
#[derive(Clone, Copy)]
enum Step {
    /// A flow that asks, with its priority, gets the next SID.
    Asking(u8),
    /// A flow that is served at due times gets the next SID.
    Served(Due),
    /// A SID asks for so many minislots.
    Request(u16, u16),
    /// A MAP of so many minislots, at this time or later.
    Cut(u16, u64),
    /// A MAP of so many minislots that keeps so many, with these back-offs for ranging and data.
    Set(u16, u16, (u8, u8), (u8, u8)),
}

/// A MAP that is being filled: for each minislot the number of the placement that holds it, 0 where it
/// is free; and the SIDs and IUCs of the placements.
#[derive(Drop)]
struct Cells {
    start: u64,
    cells: Vec<usize>,
    placements: Vec<(u16, u8)>,
}

impl Cells {
    fn end(&self) -> u64 {
        self.start.saturating_add(self.cells.len() as u64)
    }

    /// Are so many cells free from this one on?
    fn is_free(&self, at: usize, size: u16) -> bool {
        let size = usize::from(size);
        let run = self.cells.iter().skip(at).take(size);
        run.filter(|held| **held == 0).count() == size
    }

    /// The least cell, at a time from first to last, from which on so many are free.
    fn first_fit(&self, size: u16, first: u64, last: u64) -> Option<usize> {
        if self.placements.len() >= MOST_PLACEMENTS {
            return None;
        }
        for at in 0..self.cells.len() {
            let time = self.start.saturating_add(at as u64);
            if first <= time && time <= last && self.is_free(at, size) {
                return Some(at);
            }
        }
        None
    }

    /// How many cells are free.
    fn free(&self) -> usize {
        self.cells.iter().filter(|held| **held == 0).count()
    }

    /// So many cells from this one on are held by what has this SID and IUC.
    fn place(&mut self, at: usize, size: u16, told: (u16, u8)) -> Result<(), AllocError> {
        self.placements.push(told)?;
        let number = self.placements.len();
        for cell in self.cells.iter_mut().skip(at).take(usize::from(size)) {
            *cell = number;
        }
        Ok(())
    }

    /// Whose a cell is and for what, by the number of its placement.
    fn use_of(&self, held: usize) -> (u16, u8) {
        match self.placements.get(held.wrapping_sub(1)) {
            Some(placed) => *placed,
            None => (0x3FFF, 1),
        }
    }

    /// An element for each longest run of cells that are free or of one placement, and the Null.
    fn elements(&self, alloc: Global) -> Result<Vec<u8>, AllocError> {
        let mut told = Vec::new(alloc);
        let mut before = usize::MAX;
        let mut offset: u16 = 0;
        for held in &self.cells {
            if *held != before {
                let (sid, iuc) = self.use_of(*held);
                told.extend_from_slice(&element(sid, iuc, offset))?;
            }
            before = *held;
            offset = offset.saturating_add(1);
        }
        told.extend_from_slice(&element(0, 7, offset))?;
        Ok(told)
    }
}

/// The bytes of an element.
fn element(sid: u16, iuc: u8, offset: u16) -> [u8; 4] {
    (u32::from(sid) << 18 | u32::from(iuc) << 14 | u32::from(offset)).to_be_bytes()
}

fn grant_iuc(n: u16) -> u8 {
    if n <= SHORT_MAX { 5 } else { 6 }
}

/// A flow: its SID, the priority of its requests, and what comes at its next due time.
#[derive(Clone, Copy)]
struct PlainFlow {
    sid: u16,
    priority: u8,
    due: Option<Due>,
}

/// A request, and whether it still waits.
#[derive(Clone, Copy)]
struct PlainRequest {
    sid: u16,
    priority: u8,
    n: u16,
    waits: bool,
}

/// Serves the due times of a SID before the MAP's end, one after another; what comes at the next one.
fn serve(cells: &mut Cells, sid: u16, mut due: Due) -> Result<Due, AllocError> {
    let (size, told) = due.gives.told(sid);
    for _ in 0..MOST_DUE {
        let last = due.base.saturating_add(u64::from(due.jitter));
        if due.base >= cells.end() {
            return Ok(due);
        }
        match cells.first_fit(size, due.base, last) {
            Some(at) => cells.place(at, size, told)?,
            None if last >= cells.end() => return Ok(due),
            None => {}
        }
        due.base = due.base.saturating_add(u64::from(due.interval));
    }
    Ok(due)
}

/// What the first body of a cut keeps of one channel.
#[derive(Drop)]
struct Plain {
    alloc: Global,
    next_start: u64,
    backoffs: ((u8, u8), (u8, u8)),
    flows: Vec<PlainFlow>,
    requests: Vec<PlainRequest>,
}

impl Plain {
    fn add_flow(&mut self, priority: u8, due: Option<Due>) -> Result<(), AllocError> {
        let sid = ((self.flows.len() % 8191) as u16).saturating_add(1);
        self.flows.push(PlainFlow { sid, priority, due })?;
        Ok(())
    }

    fn add_request(&mut self, sid: u16, n: u16) -> Result<(), AllocError> {
        for flow in &self.flows {
            if flow.sid == sid {
                self.requests.push(PlainRequest {
                    sid,
                    priority: flow.priority,
                    n,
                    waits: true,
                })?;
            }
        }
        Ok(())
    }

    /// Serves the flows whose turn it is.
    fn serve_all(&mut self, cells: &mut Cells, turn: u8) -> Result<(), AllocError> {
        for flow in &mut self.flows {
            if let Some(due) = flow.due {
                if due.gives.turn() == turn {
                    flow.due = Some(serve(cells, flow.sid, due)?);
                }
            }
        }
        Ok(())
    }

    fn place_requests(&mut self, cells: &mut Cells, keep: u16) -> Result<(), AllocError> {
        for priority in [7, 6, 5, 4, 3, 2, 1, 0] {
            for request in &mut self.requests {
                let kept = usize::from(request.n).saturating_add(usize::from(keep));
                if request.waits && request.priority == priority && kept <= cells.free() {
                    if let Some(at) = cells.first_fit(request.n, 0, u64::MAX) {
                        cells.place(at, request.n, (request.sid, grant_iuc(request.n)))?;
                        request.waits = false;
                    }
                }
            }
        }
        Ok(())
    }

    /// Tells the requests that wait.
    fn tell_waiting(&self, told: &mut Vec<u8>, len: u16) -> Result<(), AllocError> {
        for priority in [7, 6, 5, 4, 3, 2, 1, 0] {
            for request in &self.requests {
                if request.waits && request.priority == priority {
                    told.extend_from_slice(&element(request.sid, grant_iuc(request.n), len))?;
                }
            }
        }
        Ok(())
    }

    /// The elements of the next MAP.
    fn cut(&mut self, len: u16, not_before: u64, keep: u16) -> Result<Vec<u8>, AllocError> {
        let mut cells = Cells {
            start: self.next_start.max(not_before),
            cells: vec![in self.alloc; 0; usize::from(len)]?,
            placements: Vec::new(self.alloc),
        };
        self.serve_all(&mut cells, 0)?;
        self.serve_all(&mut cells, 1)?;
        self.serve_all(&mut cells, 2)?;
        self.place_requests(&mut cells, keep)?;
        self.next_start = cells.end();
        let mut told = cells.elements(self.alloc)?;
        self.tell_waiting(&mut told, len)?;
        Ok(told)
    }

    /// The back-offs that its last MAP tells.
    fn told(&self) -> [u8; 4] {
        let (ranging, data) = self.backoffs;
        let (a, b) = if ranging == OWN { (2, 5) } else { ranging };
        let (c, d) = if data == OWN { (3, 8) } else { data };
        [a, b, c, d]
    }

    /// The elements that a step tells, if it is a cut.
    fn take(&mut self, step: Step) -> Result<Vec<u8>, AllocError> {
        match step {
            Step::Asking(priority) => self.add_flow(priority, None)?,
            Step::Served(due) => self.add_flow(7, Some(due))?,
            Step::Request(sid, n) => self.add_request(sid, n)?,
            Step::Cut(len, not_before) => {
                self.backoffs = (OWN, OWN);
                return self.cut(len, not_before, 0);
            }
            Step::Set(len, keep, ranging, data) => {
                self.backoffs = (ranging, data);
                return self.cut(len, 0, keep);
            }
        }
        Ok(Vec::new(self.alloc))
    }
}

fn kind(due: Due) -> FlowKind {
    let Due {
        interval,
        jitter,
        base,
        ..
    } = due;
    match due.gives {
        Gives::Grant(size) => FlowKind::Ugs {
            size,
            interval,
            jitter,
            base,
        },
        Gives::Poll => FlowKind::Poll {
            interval,
            jitter,
            base,
        },
        Gives::Station(size) => FlowKind::Station {
            size,
            interval,
            jitter,
            base,
        },
        Gives::Initial(size) => FlowKind::Initial {
            size,
            interval,
            jitter,
            base,
        },
    }
}

fn flow(tag: u32, kind: FlowKind) -> Command {
    Command::Flow {
        ch: 1,
        modem: 50,
        tag,
        last: LAST_TIME,
        kind,
    }
}

/// The command of a step; a flow has this tag.
fn command(step: Step, tag: u32) -> Command {
    match step {
        Step::Asking(priority) => flow(tag, FlowKind::BestEffort(priority)),
        Step::Served(due) => flow(tag, kind(due)),
        Step::Request(sid, n) => Command::Request {
            ch: 1,
            sid,
            n,
            sent: 990,
        },
        Step::Cut(len, not_before) => Command::Cut {
            ch: 1,
            len,
            not_before,
            ack: 995,
            keep: 0,
            ranging: OWN,
            data: OWN,
        },
        Step::Set(len, keep, ranging, data) => Command::Cut {
            ch: 1,
            len,
            not_before: 0,
            ack: 995,
            keep,
            ranging,
            data,
        },
    }
}

fn channel(base: u64) -> Command {
    Command::Channel(Channel {
        id: 1,
        ucd: 7,
        phy: Phy::Tdma,
        short_max: SHORT_MAX,
        ranging_backoff: (2, 5),
        data_backoff: (3, 8),
        base,
    })
}

/// Whether a step gives these elements by the machine, in a MAP that ends where the plain one does and tells its
/// back-offs where there are any. A step that the machine refuses isn't compared.
fn is_alike(output: &Output, plain: &Plain, told: &[u8]) -> bool {
    match output {
        Output::Map {
            start,
            len,
            bytes,
            ..
        } => {
            start.get().saturating_add(u64::from(*len)) == plain.next_start
                && bytes.as_slice().get(12..16) == Some(&plain.told())
                && bytes.as_slice().get(16..) == Some(told)
        }
        _ => told.is_empty(),
    }
}

/// Whether a step gives the same by the machine and by the first body, where the machine doesn't
/// refuse it. A flow has this tag.
fn compared(
    machine: &mut Machine,
    plain: &mut Plain,
    step: Step,
    tag: u32,
) -> Result<Option<bool>, AllocError> {
    let output = machine.apply(&command(step, tag))?;
    if matches!(output, Output::Refused(_)) {
        return Ok(None);
    }
    let told = plain.take(step)?;
    Ok(Some(is_alike(&output, plain, told.as_slice())))
}

/// How many steps of a channel are alike by the machine and by the first body, up to the first that
/// isn't, and how many the machine refuses.
fn counted(
    machine: &mut Machine,
    plain: &mut Plain,
    steps: &[Step],
) -> Result<(usize, usize), AllocError> {
    let mut counts: (usize, usize) = (0, 0);
    let mut tag: u32 = 0;
    machine.apply(&channel(plain.next_start))?;
    for step in steps {
        tag = tag.saturating_add(1);
        match compared(machine, plain, *step, tag)? {
            Some(true) => counts.0 = counts.0.saturating_add(1),
            Some(false) => return Ok(counts),
            None => counts.1 = counts.1.saturating_add(1),
        }
    }
    Ok(counts)
}

/// The same of a channel whose first MAP begins at a time.
fn alike(alloc: Global, base: u64, steps: &[Step]) -> Result<(usize, usize), AllocError> {
    let mut plain = Plain {
        alloc,
        next_start: base,
        backoffs: (OWN, OWN),
        flows: Vec::new(alloc),
        requests: Vec::new(alloc),
    };
    counted(&mut Machine::new(alloc), &mut plain, steps)
}

const FOUR: Due = Due {
    gives: Gives::Grant(4),
    interval: 40,
    jitter: 8,
    base: 1000,
};

const WIDER: Due = Due { jitter: 12, ..FOUR };

const EIGHT: Due = Due {
    gives: Gives::Grant(8),
    interval: 40,
    jitter: 20,
    base: 1005,
};

const BY_TURNS: Due = Due {
    gives: Gives::Grant(4),
    interval: 10,
    jitter: 4,
    base: 1000,
};

const POLLED: Due = Due {
    gives: Gives::Poll,
    interval: 12,
    jitter: 3,
    base: 1000,
};

const TWO: Due = Due {
    gives: Gives::Grant(2),
    ..POLLED
};

/// A ranging opportunity, behind one that comes more often.
const RANGING: Due = Due {
    gives: Gives::Station(3),
    interval: 15,
    jitter: 6,
    base: 1002,
};

/// An opening for everybody, which at times finds no room.
const OPENING: Due = Due {
    gives: Gives::Initial(9),
    interval: 25,
    jitter: 10,
    base: 995,
};

/// Where the first MAP begins, what is done, and how many steps the machine refuses.
const ROWS: [(u64, &[Step], usize); 14] = [
    (
        1000,
        &[
            Step::Asking(0),
            Step::Request(1, 20),
            Step::Cut(100, 0),
            Step::Request(1, 20),
            Step::Cut(10, 1050),
            Step::Cut(10, 1200),
            Step::Cut(0, 0),
        ],
        2,
    ),
    (1000, &[Step::Cut(1, 0), Step::Cut(100, 0)], 0),
    (
        1000,
        &[Step::Asking(0), Step::Request(1, 255), Step::Cut(100, 0)],
        0,
    ),
    (
        1000,
        &[
            Step::Served(FOUR),
            Step::Served(FOUR),
            Step::Served(FOUR),
            Step::Served(FOUR),
            Step::Cut(40, 0),
        ],
        0,
    ),
    (
        1000,
        &[
            Step::Served(WIDER),
            Step::Served(WIDER),
            Step::Served(WIDER),
            Step::Served(WIDER),
            Step::Cut(40, 0),
        ],
        0,
    ),
    (
        1000,
        &[Step::Served(EIGHT), Step::Cut(10, 0), Step::Cut(30, 0)],
        0,
    ),
    (
        4_294_967_286,
        &[Step::Asking(0), Step::Request(1, 20), Step::Cut(20, 0)],
        0,
    ),
    (
        1000,
        &[
            Step::Served(BY_TURNS),
            Step::Served(BY_TURNS),
            Step::Cut(10, 0),
            Step::Cut(10, 0),
            Step::Cut(10, 0),
        ],
        0,
    ),
    (
        1000,
        &[
            Step::Served(POLLED),
            Step::Served(TWO),
            Step::Asking(7),
            Step::Request(3, 4),
            Step::Request(1, 17),
            Step::Cut(30, 0),
            Step::Cut(30, 0),
        ],
        0,
    ),
    (
        1000,
        &[
            Step::Asking(0),
            Step::Asking(7),
            Step::Request(1, 93),
            Step::Request(2, 10),
            Step::Set(100, 8, OWN, (0, 0)),
            Step::Set(100, 4097, OWN, OWN),
            Step::Set(100, 7, (0, 15), OWN),
        ],
        1,
    ),
    (
        1000,
        &[
            Step::Served(FOUR),
            Step::Served(POLLED),
            Step::Asking(0),
            Step::Asking(0),
            Step::Request(3, 20),
            Step::Request(4, 3),
            Step::Set(40, 12, OWN, OWN),
            Step::Set(30, 30, OWN, OWN),
            Step::Cut(40, 0),
        ],
        0,
    ),
    (
        1000,
        &[
            Step::Served(OPENING),
            Step::Served(RANGING),
            Step::Served(POLLED),
            Step::Served(FOUR),
            Step::Asking(0),
            Step::Request(5, 30),
            Step::Cut(80, 0),
            Step::Cut(80, 0),
            Step::Request(1, 1),
            Step::Request(2, 1),
        ],
        2,
    ),
    (
        1000,
        &[
            Step::Served(RANGING),
            Step::Served(OPENING),
            Step::Served(BY_TURNS),
            Step::Cut(10, 0),
            Step::Cut(10, 0),
            Step::Cut(10, 0),
            Step::Cut(10, 0),
            Step::Cut(40, 1100),
        ],
        0,
    ),
    (
        1000,
        &[
            Step::Served(RANGING),
            Step::Asking(0),
            Step::Request(2, 10),
            Step::Set(20, 10, OWN, OWN),
            Step::Set(20, 4, OWN, OWN),
            Step::Served(Due {
                gives: Gives::Station(0),
                ..RANGING
            }),
            Step::Served(Due {
                gives: Gives::Initial(256),
                ..OPENING
            }),
        ],
        2,
    ),
];

#[test]
fn maps_are_alike(rt: HostRuntime) -> Result<(), Fail> {
    for (base, steps, refused) in ROWS {
        let (count, declined) = alike(rt.alloc(), base, steps)?;
        assert_eq!(rt;
            (count.saturating_add(declined), declined),
            (steps.len(), refused)
        );
    }
    Ok(())
}

/// An unsolicited grant every 64 minislots, and 118 flows of which each waits with a request of 1, where
/// one more isn't taken.
fn crowd(alloc: Global) -> Result<Vec<Step>, AllocError> {
    let mut steps = Vec::new(alloc);
    steps.push(Step::Served(Due {
        gives: Gives::Grant(1),
        interval: 64,
        jitter: 0,
        base: 1002,
    }))?;
    for flow in 1..120u32 {
        steps.push(Step::Asking((flow % 8) as u8))?;
    }
    for sid in 2..121 {
        steps.push(Step::Request(sid, 1))?;
    }
    steps.push(Step::Cut(4096, 0))?;
    steps.push(Step::Cut(50, 0))?;
    Ok(steps)
}

#[test]
fn a_full_map(rt: HostRuntime) -> Result<(), Fail> {
    let steps = crowd(rt.alloc())?;
    assert_eq!(rt; alike(rt.alloc(), 1000, steps.as_slice())?, (240, 1));
    Ok(())
}
