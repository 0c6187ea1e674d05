//! A scheduler, of which each MAP fits the room that C has for it.

ghost use Rattle.grant_machine.specs.Fits.{FitsChannel, FitsCommand, FitsKind, FitsSettings};

use flow_state::{Channel, ChannelSettings, FlowKind, Flows};
use grant_machine::{Command, Machine, Output, maps_are_bodies_from};
use std::alloc::{AllocError, Global};
use std::marker::Model;

/// A scheduler, as a `Machine`.
#[derive(Drop)]
pub struct Scheduler {
    machine: Machine,
}

impl Model for Scheduler {
    ghost use Rattle.flow_state.specs.Rows.{Rows};

    ghost Value = { Rows };

    ghost use Rattle.grant_machine.specs.Runs.{IsReached};

    ghost view = { λ s. s.machine };

    ghost invariant = { λ s. IsReached s.machine };
}

// A channel fits the types of its fields; so do settings, a kind and a command.
fn channel_fits(channel: Channel)
    ensures { FitsChannel channel }
{
    let _ = channel;
}

fn settings_fit(settings: ChannelSettings)
    ensures { FitsSettings settings }
{
    let _ = settings;
}

fn kind_fits(kind: FlowKind)
    ensures { FitsKind kind }
{
    match kind {
        FlowKind::BestEffort(_) => {}
        FlowKind::Ugs { .. } => {}
        FlowKind::Poll { .. } => {}
        FlowKind::Station { .. } => {}
        FlowKind::Initial { .. } => {}
    }
}

fn fits(command: Command)
    ensures { FitsCommand command }
{
    match command {
        Command::Noop => {}
        Command::Channel(channel) => channel_fits(channel),
        Command::Flow { kind, .. } => kind_fits(kind),
        Command::Drop { .. } => {}
        Command::Request { .. } => {}
        Command::Cut { .. } => {}
        Command::Change { settings, .. } => settings_fit(settings),
    }
}

impl Scheduler {
    ghost use Rattle.std.specs.Prelude.{◌≡◌, [], IsOk, IsSome, IfOk, OnOk, OnErr};
    ghost use Rattle.grant_machine.specs.Steps.{step, refusal_of, TakesNoMemory};
    ghost use Rattle.flow_state.specs.Firm.{AreFirm};
    ghost use Rattle.upsched_c_parts.specs.Outputs.{FitsRoom};

    /// No channel is set.
    pub fn new(alloc: Global) -> Scheduler
        ensures { result ≡ [] }
    {
        Scheduler {
            machine: Machine::new(alloc),
        }
    }

    /// A scheduler over tables that commands could leave.
    pub fn opened(alloc: Global, flows: Flows) -> Scheduler
        requires { AreFirm flows }
        ensures { result ≡ flows }
    {
        Scheduler {
            machine: Machine::opened(alloc, flows),
        }
    }

    /// The tables, for reading.
    pub fn flows(&self) -> &Flows
        ensures rows { result.now ≡ self.now }
        ensures firm { AreFirm result.now }
    {
        self.machine.flows()
    }

    /// `Machine::apply`; a MAP of it fits the room for a body.
    pub fn apply(&mut self, command: Command) -> Result<Output, AllocError>
        ensures output { IfOk result (λ output. output ≡ (step self.old command).output) }
        ensures rows { OnOk result (self.new ≡ (step self.old command).rows) }
        ensures err { OnErr result (self.new ≡ self.old) }
        ensures declined { IsSome (refusal_of self.old command) → IsOk result }
        ensures no_memory { TakesNoMemory self.old command → IsOk result }
        ensures fits { IfOk result (λ output. FitsRoom output) }
    {
        fits(command);
        maps_are_bodies_from();
        self.machine.apply(&command)
    }
}
