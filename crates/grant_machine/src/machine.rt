use crate::command::Command;
use crate::cut::{self, Desk};
use crate::output::Output;
use crate::refusals::{add_flow, change_channel, drop_flow, request, set_channel};
use crate::why::why_cut_on;
use flow_state::{Flows, Reason};
use grant_machine_parts::CutSettings;
use std::alloc::{AllocError, Global};
use std::marker::Model;

/// The scheduler. What it holds is what some commands leave, from no channels on or from tables that commands could
/// leave.
#[derive(Drop)]
pub struct Machine {
    flows: Flows,
    desk: Desk,
    alloc: Global,
}

impl Model for Machine {
    ghost use Rattle.flow_state.specs.Rows.{Rows};

    ghost Value = { Rows };

    ghost use Rattle.grant_machine.specs.Runs.{IsReached};

    ghost view = { λ a. a.flows };

    ghost invariant = { λ a. IsReached a.flows };
}

impl Machine {
    ghost use Rattle.std.specs.Prelude.{◌≡◌, [], IsOk, IsSome, IfOk, OnOk, OnErr};
    ghost use Rattle.grant_machine.specs.Steps.{step, refusal_of, TakesNoMemory};
    ghost use Rattle.std.specs.Option.{option_map};
    ghost use Rattle.flow_state.specs.Firm.{AreFirm};
    ghost use Rattle.flow_state.specs.Reasons.{reason_refusal};
    ghost use Rattle.grant_machine.specs.Why.{why_refused};
    ghost use Rattle.grant_machine.specs.Runs.{IsReached};
    ghost use Rattle.grant_machine.specs.Fits.{FitsCommand};

    /// No channel is set.
    pub fn new(alloc: Global) -> Machine
        ensures { result ≡ [] }
    {
        Machine {
            flows: Flows::new(alloc),
            desk: Desk::new(alloc),
            alloc,
        }
    }

    /// A scheduler over tables that commands could leave: it goes on from them. Tables are such where no channel is
    /// set, and stay so behind each that `Flows::adopt` takes.
    pub fn opened(alloc: Global, flows: Flows) -> Machine
        requires { AreFirm flows }
        ensures { result ≡ flows }
    {
        Machine {
            flows,
            desk: Desk::new(alloc),
            alloc,
        }
    }

    /// The tables, for reading: they are such that commands could leave. It takes no memory.
    pub fn flows(&self) -> &Flows
        ensures rows { result.now ≡ self.now }
        ensures firm { AreFirm result.now }
    {
        &self.flows
    }

    /// Why a command would be refused now: the first of its limits that refuses, in their order. None exactly where it
    /// wouldn't be refused. It takes no memory.
    pub fn why(&self, command: &Command) -> Option<Reason>
        ensures why { result ≡ why_refused self.now command.now }
        ensures refusal { option_map reason_refusal result ≡ refusal_of self.now command.now }
    {
        let flows = &self.flows;
        match *command {
            Command::Noop => None,
            Command::Channel(channel) => flows.why_set_channel(channel),
            Command::Change { ch, settings } => flows.why_change(ch, settings),
            Command::Flow {
                ch,
                modem,
                tag,
                last,
                kind,
            } => flows.why_flow(ch, modem, tag, last, kind),
            Command::Drop { ch, sid } => flows.why_drop(ch, sid),
            Command::Request { ch, sid, n, sent } => flows.why_request(ch, sid, n, sent),
            Command::Cut {
                ch,
                len,
                not_before,
                ack,
                keep,
                ranging,
                data,
            } => {
                let settings = CutSettings {
                    len,
                    not_before,
                    ack,
                    keep,
                    ranging_backoff: ranging,
                    data_backoff: data,
                };
                why_cut_on(flows, ch, &settings)
            }
        }
    }

    /// Takes a command: its output, and the rows after it. Where there is no memory nothing changes; a
    /// command that is refused takes none.
    pub fn apply(&mut self, command: &Command) -> Result<Output, AllocError>
        ensures output { IfOk result (λ output. output ≡ (step self.old command.now).output) }
        ensures rows { OnOk result (self.new ≡ (step self.old command.now).rows) }
        ensures err { OnErr result (self.new ≡ self.old) }
        ensures declined { IsSome (refusal_of self.old command.now) → IsOk result }
        ensures reached { IsReached self.new }
        ensures fits { FitsCommand command.now }
        ensures no_memory { TakesNoMemory self.old command.now → IsOk result }
    {
        let flows = &mut self.flows;
        match *command {
            Command::Noop => Ok(Output::Nothing),
            Command::Channel(channel) => set_channel(flows, channel),
            Command::Change { ch, settings } => change_channel(flows, ch, settings),
            Command::Flow {
                ch,
                modem,
                tag,
                last,
                kind,
            } => add_flow(flows, ch, modem, tag, last, kind),
            Command::Drop { ch, sid } => drop_flow(flows, ch, sid),
            Command::Request { ch, sid, n, sent } => request(flows, ch, sid, n, sent),
            Command::Cut {
                ch,
                len,
                not_before,
                ack,
                keep,
                ranging,
                data,
            } => {
                let settings = CutSettings {
                    len,
                    not_before,
                    ack,
                    keep,
                    ranging_backoff: ranging,
                    data_backoff: data,
                };
                cut::cut(flows, &mut self.desk, self.alloc, ch, settings)
            }
        }
    }
}
