//! What the commands of a plan gave, as far as MAPs show it.

ghost use Rattle.std.specs.Prelude.{◌≡◌, IfOk, IfErr};
ghost use Rattle.map_body.specs.declared.fault.MapFault.TheVariants.{OutOfMemory};
ghost use Rattle.grant_machine.specs.declared.command.Command.{Command};
ghost use Rattle.plan_account.specs.Cover.{follow};
ghost use Rattle.plan_account.specs.declared.deed.Deed.{Deed};
ghost use Rattle.plan_account.specs.Deeds.{quiet_deed, channel_deed, flow_deed, BodyFault, IsWhole, IsDeedOf};
ghost use Rattle.plan_account.specs.Deeds.{IsDeedFault, channels_of, keep_of};

use crate::reach::Term;
use crate::shown::ShownMap;
use flow_state::FlowKind;
use grant_machine::{Command, Output};
use map_body::{Interval, MapFault, decode};
use minislot_time::Slot;
use std::alloc::{AllocError, Global};

/// What a command gave.
#[derive(Drop)]
pub enum Deed {
    /// A channel was set.
    Channel(u8),
    /// A SID is a modem's for a lease.
    Flow {
        ch: u8,
        sid: u16,
        modem: u32,
        first: u64,
        last: u64,
        kind: FlowKind,
    },
    /// A service flow was dropped.
    Drop {
        ch: u8,
        sid: u16,
    },
    /// A request for n minislots was accepted.
    Request {
        ch: u8,
        sid: u16,
        n: u16,
        sent: u64,
    },
    /// A MAP of so many minislots from a time on, of which its cut keeps some free.
    Map {
        ch: u8,
        start: Slot,
        len: u16,
        keep: u16,
        map: ShownMap,
    },
    /// A refusal, or nothing.
    Other,
}

/// What a command did that has no output to tell of.
fn quiet_deed(command: &Command) -> Deed
    ensures { result ≡ quiet_deed command.now }
{
    match *command {
        Command::Request { ch, sid, n, sent } => Deed::Request { ch, sid, n, sent },
        Command::Drop { ch, sid } => Deed::Drop { ch, sid },
        Command::Noop => Deed::Other,
        Command::Channel(_) => Deed::Other,
        Command::Flow { .. } => Deed::Other,
        Command::Cut { .. } => Deed::Other,
        Command::Change { .. } => Deed::Other,
    }
}

/// The channel that a command sets. One that changes was set before.
fn channel_deed(command: &Command, ch: u8) -> Deed
    ensures { result ≡ channel_deed command.now ch }
{
    match *command {
        Command::Channel(_) => Deed::Channel(ch),
        Command::Noop => Deed::Other,
        Command::Flow { .. } => Deed::Other,
        Command::Drop { .. } => Deed::Other,
        Command::Request { .. } => Deed::Other,
        Command::Cut { .. } => Deed::Other,
        Command::Change { .. } => Deed::Other,
    }
}

/// The flow of a command under the lease of its SID.
fn flow_deed(command: &Command, modem: u32, ch: u8, sid: u16, term: Term) -> Deed
    ensures { result ≡ flow_deed command.now modem ch sid term.first term.last }
{
    match *command {
        Command::Flow { kind, .. } => Deed::Flow {
            ch,
            sid,
            modem,
            first: term.first,
            last: term.last,
            kind,
        },
        Command::Request { .. } => Deed::Other,
        Command::Drop { .. } => Deed::Other,
        Command::Noop => Deed::Other,
        Command::Channel(_) => Deed::Other,
        Command::Cut { .. } => Deed::Other,
        Command::Change { .. } => Deed::Other,
    }
}

/// How many minislots a command keeps free of its MAP.
fn keep_of(command: &Command) -> u16
    ensures { result ≡ keep_of command.now }
{
    match *command {
        Command::Cut { keep, .. } => keep,
        Command::Noop => 0,
        Command::Channel(_) => 0,
        Command::Change { .. } => 0,
        Command::Flow { .. } => 0,
        Command::Drop { .. } => 0,
        Command::Request { .. } => 0,
    }
}

/// Whether intervals follow one another from minislot 0 to the last one of so many.
fn follow(intervals: &[Interval], len: u16) -> bool
    ensures { result ≡ follow 0 intervals.now len }
{
    let mut behind = 0;
    for interval in intervals {
        let (from, to) = (interval.from.get(), interval.to.get());
        if from != behind || to < from {
            return false;
        }
        behind = to;
    }
    behind == len
}

/// What the body shows that bytes are, whose intervals have so many minislots.
fn shown_map(alloc: Global, len: u16, bytes: &[u8]) -> Result<ShownMap, MapFault>
    ensures shown { IfOk result (IsWhole len bytes.now) }
    ensures fault { IfErr result (BodyFault len bytes.now) }
{
    let body = decode(alloc, bytes)?;
    let intervals = body.intervals(alloc)?;
    if !follow(&intervals, len) {
        return Err(MapFault::OutOfOrder(0));
    }
    let waiting = Vec::from_slice(alloc, body.after_null())?;
    let ack = body.head().ack;
    Ok(ShownMap {
        ack,
        intervals,
        waiting,
    })
}

/// What a command with this output did, or the fault of its MAP's bytes.
fn deed_told(alloc: Global, command: &Command, output: &Output) -> Result<Deed, MapFault>
    ensures deed { IfOk result (IsDeedOf command.now output.now) }
    ensures fault { IfErr result (IsDeedFault output.now) }
{
    match output {
        Output::Nothing => Ok(quiet_deed(command)),
        Output::ChannelSet { ch, .. } => Ok(channel_deed(command, *ch)),
        Output::Assigned {
            modem,
            ch,
            sid,
            first,
            last,
        } => {
            let term = Term {
                first: *first,
                last: *last,
            };
            Ok(flow_deed(command, *modem, *ch, *sid, term))
        }
        Output::Map {
            ch,
            start,
            len,
            bytes,
        } => {
            let map = shown_map(alloc, *len, bytes.as_slice())?;
            Ok(Deed::Map {
                ch: *ch,
                start: *start,
                len: *len,
                keep: keep_of(command),
                map,
            })
        }
        Output::Refused(_) => Ok(Deed::Other),
    }
}

/// What a command with this output did. Bytes that are no body have their first fault; a body that leaves one of the
/// MAP's minislots out is OutOfOrder 0; where there is a deed, nothing but want of memory is an error.
pub fn deed_of(alloc: Global, command: &Command, output: &Output) -> Result<Deed, MapFault>
    ensures deed { IfOk result (IsDeedOf command.now output.now) }
    ensures fault { IfErr result (IsDeedFault output.now) }
    ensures given { (deed : Deed) → IsDeedOf command.now output.now deed → IfErr result (λ fault. fault ≡ OutOfMemory) }
{
    deed_told(alloc, command, output)
}

/// The channels that deeds set, in order.
pub fn channels_of(alloc: Global, deeds: &[Deed]) -> Result<Vec<u8>, AllocError>
    ensures { IfOk result (λ channels. channels.items ≡ channels_of deeds.now) }
{
    let mut channels = Vec::new(alloc);
    for deed in deeds {
        if let Deed::Channel(ch) = deed {
            channels.push(*ch)?;
        }
    }
    Ok(channels)
}
