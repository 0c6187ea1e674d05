//! What drives the workers, and what may hold them.

ghost use Rattle.std.specs.Prelude.{◌≡◌, ◌<◌, ◌+◌};

use crate::entry::{Cause, Record};
use crate::plant::Plant;
use ballots::NodeId;
use node::Node;
use seats::OutOfMemory;
use std::sync::{Mutex, Wait};
use std::time::Clock;

/// What a worker is asked to do, turn by turn.
pub trait Carrier: Drop {
    ghost use Rattle.std.specs.Prelude.{ℕ};

    // How many turns are left.
    ghost left: { Self → ℕ };

    // How many turns it was given in all, which no turn changes.
    ghost given: { Self → ℕ };

    /// How many turns are left.
    fn turns(&self) -> u64
        ensures { result ≡ left self.now };

    /// Takes one turn, whatever it answers: a cause, or none. It is lent the records as they are then, and asked only
    /// while a turn is left. Want of memory counts as none.
    fn pick(&mut self, records: &[Record]) -> Result<Option<Cause>, OutOfMemory>
        requires { 0 < left self.old }
        ensures left { left self.new + 1 ≡ left self.old }
        ensures given { given self.new ≡ given self.old };
}

/// Where a worker stands when its gate is called.
#[derive(Clone, Copy, Debug, PartialEq, Eq)]
pub enum Point {
    /// The node has worked, and nothing of it is recorded yet.
    Worked,
    /// What the node did is recorded, or may not be.
    Recorded,
    /// The carrier had no cause.
    Idle,
}

/// What a worker passes between its steps, while the plant's lock is free.
pub trait Gate<N: Node> {
    /// Lets the worker of a node go on, once it returns.
    fn pass<R: Wait + Clock>(&self, rt: &R, node: NodeId, point: Point, plant: &Mutex<Plant<N>>);
}
