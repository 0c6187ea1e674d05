ghost use Rattle.std.specs.Prelude.{◌≡◌};

use command_log::read_command;
use grant_machine::Machine;
use map_release::{Numbered, has_ended};
use std::alloc::{AllocError, Global};
use std::marker::Model;
use std::mem;
use thiserror::Error;

/// Why a value isn't applied.
#[derive(Clone, Copy, Debug, PartialEq, Eq, Error)]
pub enum ScheduleFault {
    /// As many values are applied as 64 bits count, 2^64 - 1.
    #[error("Full")]
    Full,
    #[error("OutOfMemory")]
    OutOfMemory,
}

impl From<AllocError> for ScheduleFault {
    ghost use Rattle.std.specs.Prelude.{◌≡◌};
    ghost use Rattle.epochs.specs.declared.scheduler.ScheduleFault.TheVariants.{OutOfMemory};

    ghost from_gives = { λ _ e. e ≡ OutOfMemory };

    fn from(_: AllocError) -> ScheduleFault {
        ScheduleFault::OutOfMemory
    }
}

/// One scheduler over the values of all epochs: it applies them one after another, numbers their outputs from 1, and keeps
/// each until it is handed out.
#[derive(Drop)]
pub struct Scheduler {
    alloc: Global,
    machine: Machine,
    applied: u64,
    waiting: Vec<Numbered>,
}

impl Model for Scheduler {
    ghost use Rattle.epochs.specs.Scheduling.{SchedulerView};

    ghost Value = { SchedulerView };

    ghost view = { λ a. record { rows = a.machine; applied = a.applied; waiting = a.waiting.items } };
}

impl Scheduler {
    ghost use Rattle.std.specs.Prelude.{◌≡◌, ◌<◌, ◌-◌, ◌^◌, ◌↔◌, [], not, filter, IfErr, OnErr, OnOk};
    ghost use Rattle.map_release.specs.Released.{has_ended};
    ghost use Rattle.epochs.specs.declared.scheduler.ScheduleFault.TheVariants.{Full};
    ghost use Rattle.epochs.specs.Scheduling.{applied_to, begun_from, most_applied, no_values};

    /// No value is applied.
    pub fn new(alloc: Global) -> Scheduler
        ensures { result ≡ no_values }
    {
        Scheduler {
            alloc,
            machine: Machine::new(alloc),
            applied: 0,
            waiting: Vec::new(alloc),
        }
    }

    /// It goes on from tables: so many values were applied before, and their outputs were handed out.
    pub fn opened(alloc: Global, machine: Machine, applied: u64) -> Scheduler
        ensures { result ≡ begun_from machine applied }
    {
        Scheduler {
            alloc,
            machine,
            applied,
            waiting: Vec::new(alloc),
        }
    }

    /// Applies the next value, whose output then waits under the next number. Bytes that spell no command are the one that
    /// does nothing. Behind 2^64 - 1 values each is refused, and takes no memory.
    pub fn apply(&mut self, value: &[u8]) -> Result<(), ScheduleFault>
        ensures ok { OnOk result (self.new ≡ applied_to self.old value.now) }
        ensures err { OnErr result (self.new ≡ self.old) }
        ensures full { IfErr result (λ fault. (fault ≡ Full) ↔ (self.old.applied ≡ most_applied)) }
        ensures room { OnOk result (self.old.applied < most_applied) }
    {
        if self.applied == u64::MAX {
            return Err(ScheduleFault::Full);
        }
        self.waiting.reserve(1)?;
        let (command, _) = read_command(value);
        let output = self.machine.apply(&command)?;
        self.applied += 1;
        self.waiting
            .push(Numbered {
                place: self.applied,
                output,
            })
            .map_err(AllocError::from)?;
        Ok(())
    }

    /// How many values are applied: the number of the last output. It takes constant time.
    pub fn applied(&self) -> u64
        ensures { result ≡ self.now.applied }
    {
        self.applied
    }

    /// Its tables, for reading: those behind all values that are applied. It takes no memory.
    pub fn machine(&self) -> &Machine
        ensures { result.now ≡ self.now.rows }
    {
        &self.machine
    }

    /// Hands out the outputs that wait, in order, without the MAPs that have ended by `now` (in minislots). None waits
    /// afterwards. It takes no memory.
    pub fn hand_out(&mut self, now: u64) -> Vec<Numbered>
        ensures given { result.items ≡ filter (λ x. not (has_ended now x.output)) self.old.waiting }
        ensures left { self.new ≡ record self.old { waiting = [] } }
    {
        let mut given = mem::replace(&mut self.waiting, Vec::new(self.alloc));
        given.retain(|x| !has_ended(&x.output, now));
        given
    }
}
