//! Commands on the rows, and their refusals as outputs.

ghost use Rattle.std.specs.Prelude.{◌≡◌, ◌≢◌, IsTrue, IsOk, IsSome, IfOk, OnOk, OnErr};
ghost use Rattle.flow_state.specs.declared.refusal.Refusal.TheVariants.{OutOfMemory};
ghost use Rattle.flow_state.specs.Refusals.{refusal_number};
ghost use Rattle.flow_state.specs.Changes.{is_known};
ghost use Rattle.grant_machine.specs.declared.command.Command.TheVariants as commands;
ghost use Rattle.grant_machine.specs.declared.output.Output.TheVariants as outputs;
ghost use Rattle.grant_machine.specs.Steps.{step, refusal_of};
ghost use Rattle.grant_machine.specs.Fits.{FitsCommand};

use crate::output::Output;
use flow_state::{Channel, ChannelSettings, FlowKind, Flows, Refusal};
use std::alloc::AllocError;

/// A refusal as an output. Want of memory has none.
fn refused(refusal: Refusal) -> Result<Output, AllocError>
    ensures told { IfOk result (λ output. output ≡ outputs.Refused (refusal_number refusal)) }
    ensures some { OnOk result (refusal ≢ OutOfMemory) }
    ensures none { OnErr result (refusal ≡ OutOfMemory) }
{
    match refusal {
        Refusal::OutOfMemory => Err(AllocError),
        _ => Ok(Output::Refused(refusal.number())),
    }
}

/// Sets a channel.
pub fn set_channel(flows: &mut Flows, channel: Channel) -> Result<Output, AllocError>
    ensures output { IfOk result (λ output. output ≡ (step flows.old (commands.Channel channel)).output) }
    ensures declined { IsSome (refusal_of flows.old (commands.Channel channel)) → IsOk result }
    ensures fits { FitsCommand (commands.Channel channel) }
    ensures rows { OnOk result (flows.new ≡ (step flows.old (commands.Channel channel)).rows) }
    ensures err { OnErr result (flows.new ≡ flows.old) }
{
    match flows.set_channel(channel) {
        Ok(()) => Ok(Output::ChannelSet {
            ch: channel.id,
            ucd: channel.ucd,
        }),
        Err(refusal) => refused(refusal),
    }
}

/// Adds a flow of a modem, under a tag of its own, and tells the lease of its SID.
pub fn add_flow(
    flows: &mut Flows,
    ch: u8,
    modem: u32,
    tag: u32,
    last: u64,
    kind: FlowKind,
) -> Result<Output, AllocError>
    ensures output { IfOk result (λ output. output ≡ (step flows.old (commands.Flow ch modem tag last kind)).output) }
    ensures declined { IsSome (refusal_of flows.old (commands.Flow ch modem tag last kind)) → IsOk result }
    ensures fits { FitsCommand (commands.Flow ch modem tag last kind) }
    ensures rows { OnOk result (flows.new ≡ (step flows.old (commands.Flow ch modem tag last kind)).rows) }
    ensures err { OnErr result (flows.new ≡ flows.old) }
    ensures known { IsTrue (is_known flows.old ch modem tag) → IsOk result }
{
    match flows.add_flow(ch, modem, tag, last, kind) {
        Ok(lease) => Ok(Output::Assigned {
            modem,
            ch,
            sid: lease.sid,
            first: lease.first,
            last: lease.last,
        }),
        Err(refusal) => refused(refusal),
    }
}

/// Drops a flow. It takes no memory.
pub fn drop_flow(flows: &mut Flows, ch: u8, sid: u16) -> Result<Output, AllocError>
    ensures output { IfOk result (λ output. output ≡ (step flows.old (commands.Drop ch sid)).output) }
    ensures fits { FitsCommand (commands.Drop ch sid) }
    ensures rows { OnOk result (flows.new ≡ (step flows.old (commands.Drop ch sid)).rows) }
    ensures ok { IsOk result }
{
    match flows.drop_flow(ch, sid) {
        Ok(()) => Ok(Output::Nothing),
        Err(refusal) => Ok(Output::Refused(refusal.number())),
    }
}

/// Accepts a request for n minislots that was sent at a time.
pub fn request(flows: &mut Flows, ch: u8, sid: u16, n: u16, sent: u64) -> Result<Output, AllocError>
    ensures output { IfOk result (λ output. output ≡ (step flows.old (commands.Request ch sid n sent)).output) }
    ensures declined { IsSome (refusal_of flows.old (commands.Request ch sid n sent)) → IsOk result }
    ensures fits { FitsCommand (commands.Request ch sid n sent) }
    ensures rows { OnOk result (flows.new ≡ (step flows.old (commands.Request ch sid n sent)).rows) }
    ensures err { OnErr result (flows.new ≡ flows.old) }
{
    match flows.request(ch, sid, n, sent) {
        Ok(()) => Ok(Output::Nothing),
        Err(refusal) => refused(refusal),
    }
}

/// Gives a channel other settings, and tells its UCD Count. It takes no memory.
pub fn change_channel(
    flows: &mut Flows,
    ch: u8,
    settings: ChannelSettings,
) -> Result<Output, AllocError>
    ensures output { IfOk result (λ output. output ≡ (step flows.old (commands.Change ch settings)).output) }
    ensures fits { FitsCommand (commands.Change ch settings) }
    ensures rows { OnOk result (flows.new ≡ (step flows.old (commands.Change ch settings)).rows) }
    ensures ok { IsOk result }
{
    match flows.change_channel(ch, settings) {
        Ok(()) => Ok(Output::ChannelSet {
            ch,
            ucd: settings.ucd,
        }),
        Err(refusal) => Ok(Output::Refused(refusal.number())),
    }
}
