ghost use Rattle.std.specs.Prelude.{◌≡◌};
ghost use Rattle.ballots.specs.Limits.{most_places};
ghost use Rattle.command_log.specs.View.{number_of_fault};

use crate::reading::read_command;
use ballots::MOST_PLACES;
use grant_machine::{Machine, Output};
use place_table::{Kept, Table};
use std::alloc::{AllocError, Global};
use std::marker::Model;
use thiserror::Error;

/// Why a value isn't learned.
#[derive(Clone, Copy, Debug, PartialEq, Eq, Error)]
pub enum LogFault {
    /// Another value was learned at the place.
    #[error("Contradiction")]
    Contradiction,
    /// The place isn't 1 to 1,000,000.
    #[error("BeyondLimit")]
    BeyondLimit,
    #[error("OutOfMemory")]
    OutOfMemory,
}

impl LogFault {
    /// The number of the fault, from 1.
    pub fn number(self) -> u8
        ensures { result ≡ number_of_fault self }
    {
        match self {
            LogFault::Contradiction => 1,
            LogFault::BeyondLimit => 2,
            LogFault::OutOfMemory => 3,
        }
    }
}

impl From<AllocError> for LogFault {
    ghost use Rattle.std.specs.Prelude.{◌≡◌};
    ghost use Rattle.command_log.specs.declared.log.LogFault.TheVariants.{OutOfMemory};

    ghost from_gives = { λ _ e. e ≡ OutOfMemory };

    fn from(_: AllocError) -> LogFault {
        LogFault::OutOfMemory
    }
}

/// The learned values by place, and the outputs of those without a gap from place 1 on, as far as
/// they were applied.
#[derive(Drop)]
pub struct Log {
    alloc: Global,
    learned: Table<Kept>,
    outputs: Vec<Output>,
    machine: Machine,
}

impl Model for Log {
    ghost use Rattle.command_log.specs.View.{LogView};

    ghost Value = { LogView };

    ghost use Rattle.command_log.specs.Kept.{log_view, IsKept};

    ghost view = { log_view };

    ghost invariant = { IsKept };
}

impl Log {
    ghost use Rattle.std.specs.Prelude.{◌≡◌, ◌+◌, ◌<◌, ◌≤◌, ◌↔◌, [], length, Ok, false, IsTrue, OnOk, OnErr, IfOk};
    ghost use Rattle.std.specs.Prelude.{IfErr, if◌then◌else◌};
    ghost use Rattle.std.specs.Option.{option_copied};
    ghost use Rattle.command_log.specs.Values.{gapless};
    ghost use Rattle.command_log.specs.View.{CanLearn, IsLog, LearnFault, with_learned, output_at};

    /// Nothing is learned.
    pub fn new(alloc: Global) -> Log
        ensures { result ≡ record { learned = []; applied = 0 } }
    {
        Log {
            alloc,
            learned: Table::new(alloc),
            outputs: Vec::new(alloc),
            machine: Machine::new(alloc),
        }
    }

    /// Learns the value of a place. The same value again is never refused, and takes no memory; want
    /// of memory never comes in place of another refusal. It costs at most the logarithm of the places learned, but
    /// where memory moves as it grows.
    pub fn learn(&mut self, place: u64, value: &[u8]) -> Result<(), LogFault>
        ensures ok { OnOk result (CanLearn self.old place value.now × (self.new ≡ with_learned self.old place value.now)) }
        ensures err { IfErr result (λ fault. LearnFault self.old place value.now fault × (self.new ≡ self.old)) }
    {
        if place == 0 || MOST_PLACES < place {
            return Err(LogFault::BeyondLimit);
        }
        if let Some(known) = self.learned.get(place) {
            if known.as_slice() == value {
                return Ok(());
            }
            return Err(LogFault::Contradiction);
        }
        let value = Kept::copy_of(self.alloc, value)?;
        self.learned.insert(place, value)?;
        Ok(())
    }

    /// Applies the next value, if it is learned. Where it isn't, the call takes no memory. It costs at most
    /// the logarithm of the places learned, beside what the command itself costs.
    pub fn advance(&mut self) -> Result<bool, AllocError>
        ensures more { IfOk result (λ more. IsTrue more ↔ (self.old.applied < length (gapless self.old.learned))) }
        ensures no_more { self.old.applied ≡ length (gapless self.old.learned) → result ≡ Ok false }
        ensures learned { self.new.learned ≡ self.old.learned }
        ensures applied { IfOk result (λ more. self.new.applied ≡ self.old.applied + (if more then 1 else 0)) }
        ensures err { OnErr result (self.new ≡ self.old) }
    {
        let next = self.prefix_len() + 1;
        let Some(value) = self.learned.get(next) else {
            return Ok(false);
        };
        let (command, _) = read_command(value.as_slice());
        self.outputs.reserve(1)?;
        let output = self.machine.apply(&command)?;
        self.outputs.push(output).map_err(AllocError::from)?;
        Ok(true)
    }

    /// How many values are applied, which are those of places 1 to so many. It takes constant time.
    pub fn prefix_len(&self) -> u64
        ensures len { result ≡ self.now.applied }
        ensures within { result ≤ most_places }
        ensures kept { IsLog self.now }
    {
        self.outputs.len() as u64
    }

    /// The output of an applied place. It takes constant time.
    pub fn output(&self, place: u64) -> Option<&Output>
        ensures { option_copied result ≡ output_at self.now place }
    {
        if place == 0 {
            return None;
        }
        self.outputs.get((place - 1) as usize)
    }
}
