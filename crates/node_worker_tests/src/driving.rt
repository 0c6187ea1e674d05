//! What drives the nodes of a test, and what holds them.

ghost use Rattle.std.specs.Prelude.{◌<◌};

use ballots::{Bytes, Letter, NodeId, Note};
use node::Node;
use node_worker::{Ask, Carrier, Cause, Gate, Plant, Point, Record};
use seats::OutOfMemory;
use std::alloc::Global;
use std::sync::atomic::{AtomicBool, AtomicU32, Ordering};
use std::sync::{Mutex, Wait};
use std::thread;
use std::time::{Clock, Duration};

/// Asks to lead on each turn, or nothing at all.
#[derive(Drop)]
pub struct Leads {
    given: u64,
    left: u64,
    is_silent: bool,
}

impl Leads {
    /// Asks to lead on each of so many turns.
    pub fn new(given: u64) -> Leads {
        Leads {
            given,
            left: given,
            is_silent: false,
        }
    }

    /// Asks nothing on each of so many turns.
    pub fn silent(given: u64) -> Leads {
        Leads {
            given,
            left: given,
            is_silent: true,
        }
    }

    /// Whether no turn is left.
    pub fn is_done(&self) -> bool {
        self.left == 0
    }
}

impl Carrier for Leads {
    ghost left = { λ s. s.left };

    ghost given = { λ s. s.given };

    fn turns(&self) -> u64 {
        self.left
    }

    fn pick(&mut self, _records: &[Record]) -> Result<Option<Cause>, OutOfMemory> {
        self.left -= 1;
        if self.is_silent {
            return Ok(None);
        }
        Ok(Some(Cause::Ask(Ask::Lead)))
    }
}

/// Gives a node three things, turn by turn: an offer of its own number, a letter to another node, and nothing.
#[derive(Drop)]
pub struct Errands {
    alloc: Global,
    node: NodeId,
    other: NodeId,
    left: u64,
}

impl Errands {
    /// The node of a number, with its three turns.
    pub fn new(alloc: Global, number: u8) -> Option<Errands> {
        Some(Errands {
            alloc,
            node: NodeId::new(number)?,
            other: NodeId::new(if number == 0 { 1 } else { 0 })?,
            left: 3,
        })
    }

    /// Whether it is the carrier of the node of this number, and no turn is left.
    pub fn is_done(&self, number: usize) -> bool {
        usize::from(self.node.number()) == number && self.left == 0
    }

    // Its own number, to be proposed.
    fn offer(&self) -> Result<Cause, OutOfMemory> {
        let value = Vec::from_slice(self.alloc, &[self.node.number()])?;
        Ok(Cause::Ask(Ask::Offer(Bytes::new(value))))
    }

    // A letter to another node, of which that one would learn.
    fn astray(&self) -> Cause {
        Cause::Letter(Letter {
            from: self.node,
            to: self.other,
            note: Note::Known {
                place: 1,
                value: Bytes::new(Vec::new(self.alloc)),
            },
        })
    }
}

impl Carrier for Errands {
    ghost left = { λ e. e.left };

    ghost given = { λ e. 3 };

    fn turns(&self) -> u64 {
        self.left
    }

    fn pick(&mut self, _records: &[Record]) -> Result<Option<Cause>, OutOfMemory> {
        self.left -= 1;
        match self.left {
            2 => Ok(Some(self.offer()?)),
            1 => Ok(Some(self.astray())),
            _ => Ok(None),
        }
    }
}

/// Holds nobody, and counts the nodes that pass each point as they should: what a node did is recorded between the
/// first point and the second.
#[derive(Drop)]
pub struct Points {
    worked: AtomicU32,
    recorded: AtomicU32,
    idle: AtomicU32,
}

impl Points {
    /// Nobody has passed.
    pub fn new() -> Points {
        Points {
            worked: AtomicU32::new(0),
            recorded: AtomicU32::new(0),
            idle: AtomicU32::new(0),
        }
    }

    /// How many passed each point: between work and record, behind it, and with nothing to do.
    pub fn passed(&self) -> [u32; 3] {
        [
            self.worked.load(Ordering::SeqCst),
            self.recorded.load(Ordering::SeqCst),
            self.idle.load(Ordering::SeqCst),
        ]
    }
}

// Whether something of the node is recorded.
fn is_recorded<N: Node, R: Wait>(rt: &R, node: NodeId, plant: &Mutex<Plant<N>>) -> bool {
    let plant = plant.lock(rt);
    plant.records().iter().any(|record| record.node == node)
}

impl<N: Node> Gate<N> for Points {
    fn pass<R: Wait + Clock>(&self, rt: &R, node: NodeId, point: Point, plant: &Mutex<Plant<N>>) {
        let counter = match (point, is_recorded(rt, node, plant)) {
            (Point::Worked, false) => &self.worked,
            (Point::Recorded, true) => &self.recorded,
            (Point::Idle, true) => &self.idle,
            _ => return,
        };
        counter.fetch_add(1, Ordering::SeqCst);
    }
}

/// Holds nobody.
pub struct Open;

impl<N: Node> Gate<N> for Open {
    fn pass<R: Wait + Clock>(
        &self,
        _rt: &R,
        _node: NodeId,
        _point: Point,
        _plant: &Mutex<Plant<N>>,
    ) {}
}

/// Holds node 1 between work and record until node 0 stands there too, and node 0 until node 1's record is there
/// alone, each for at most 5,000 sleeps of a millisecond.
#[derive(Drop)]
pub struct Meeting {
    first_worked: AtomicBool,
    gave_up: AtomicBool,
}

impl Meeting {
    /// Nobody stands there yet.
    pub fn new() -> Meeting {
        Meeting {
            first_worked: AtomicBool::new(false),
            gave_up: AtomicBool::new(false),
        }
    }

    /// Whether a node waited for all of its sleeps in vain.
    pub fn gave_up(&self) -> bool {
        self.gave_up.load(Ordering::SeqCst)
    }

    // Whether what the node is held for has come.
    fn has_come<N: Node, R: Wait>(&self, rt: &R, node: NodeId, plant: &Mutex<Plant<N>>) -> bool {
        if node.number() == 1 {
            return self.first_worked.load(Ordering::SeqCst);
        }
        let plant = plant.lock(rt);
        let records = plant.records();
        records.len() == 1 && records[0].node.number() == 1
    }
}

impl<N: Node> Gate<N> for Meeting {
    fn pass<R: Wait + Clock>(&self, rt: &R, node: NodeId, point: Point, plant: &Mutex<Plant<N>>) {
        if point != Point::Worked || node.number() > 1 {
            return;
        }
        if node.number() == 0 {
            self.first_worked.store(true, Ordering::SeqCst);
        }
        for _ in 0..5000 {
            if self.has_come(rt, node, plant) {
                return;
            }
            thread::sleep(rt, Duration::from_millis(1));
        }
        self.gave_up.store(true, Ordering::SeqCst);
    }
}
