//! Commands as structs that C shares.

ghost use Rattle.std.specs.Prelude.{◌≡◌, option_map};
ghost use Rattle.upsched_c.specs.Commands.{channel_value, command_value, cut_value, kind_value, phy_value};
ghost use Rattle.upsched_c.specs.Commands.{ranging_value, sending_value, settings_value};

use flow_state::{Channel, ChannelSettings, FlowKind, Phy};
use grant_machine::Command;

/// A command: its number, and the fields that it has. The others are not read.
#[repr(C)]
#[derive(Clone, Copy)]
pub struct CommandFields {
    pub kind: u32,
    pub modem: u32,
    pub tag: u32,
    pub interval: u32,
    pub jitter: u32,
    pub base: u64,
    pub last: u64,
    pub sent: u64,
    pub not_before: u64,
    pub ack: u64,
    pub sid: u16,
    pub minislots: u16,
    pub short_max: u16,
    pub keep: u16,
    pub ch: u8,
    pub ucd: u8,
    pub phy: u8,
    pub service: u8,
    pub priority: u8,
    pub ranging_start: u8,
    pub ranging_end: u8,
    pub data_start: u8,
    pub data_end: u8,
}

fn phy_of(number: u8) -> Option<Phy>
    ensures { result ≡ phy_value number }
{
    match number {
        0 => Some(Phy::Tdma),
        1 => Some(Phy::Advanced),
        _ => None,
    }
}

fn ranging_of(c: &CommandFields) -> (u8, u8)
    ensures { result ≡ ranging_value c.now }
{
    (c.ranging_start, c.ranging_end)
}

fn sending_of(c: &CommandFields) -> (u8, u8)
    ensures { result ≡ sending_value c.now }
{
    (c.data_start, c.data_end)
}

fn channel_of(c: &CommandFields, phy: Phy) -> Channel
    ensures { result ≡ channel_value c.now phy }
{
    Channel {
        id: c.ch,
        ucd: c.ucd,
        phy,
        short_max: c.short_max,
        ranging_backoff: ranging_of(c),
        data_backoff: sending_of(c),
        base: c.base,
    }
}

fn settings_of(c: &CommandFields, phy: Phy) -> ChannelSettings
    ensures { result ≡ settings_value c.now phy }
{
    ChannelSettings {
        ucd: c.ucd,
        phy,
        short_max: c.short_max,
        ranging_backoff: ranging_of(c),
        data_backoff: sending_of(c),
    }
}

fn kind_of(c: &CommandFields) -> Option<FlowKind>
    ensures { result ≡ kind_value c.now }
{
    match c.service {
        0 => Some(FlowKind::BestEffort(c.priority)),
        1 => Some(FlowKind::Ugs {
            size: c.minislots,
            interval: c.interval,
            jitter: c.jitter,
            base: c.base,
        }),
        2 => Some(FlowKind::Poll {
            interval: c.interval,
            jitter: c.jitter,
            base: c.base,
        }),
        3 => Some(FlowKind::Station {
            size: c.minislots,
            interval: c.interval,
            jitter: c.jitter,
            base: c.base,
        }),
        4 => Some(FlowKind::Initial {
            size: c.minislots,
            interval: c.interval,
            jitter: c.jitter,
            base: c.base,
        }),
        _ => None,
    }
}

fn channel_command(c: &CommandFields) -> Option<Command>
    ensures { result ≡ option_map (λ phy. Command.Channel (channel_value c.now phy)) (phy_value c.now.phy) }
{
    let phy = phy_of(c.phy)?;
    Some(Command::Channel(channel_of(c, phy)))
}

fn change_command(c: &CommandFields) -> Option<Command>
    ensures { result ≡ option_map (λ phy. Command.Change c.now.ch (settings_value c.now phy)) (phy_value c.now.phy) }
{
    let phy = phy_of(c.phy)?;
    Some(Command::Change {
        ch: c.ch,
        settings: settings_of(c, phy),
    })
}

fn flow_command(c: &CommandFields) -> Option<Command>
    ensures { result ≡ option_map (λ kind. Command.Flow c.now.ch c.now.modem c.now.tag c.now.last kind) (kind_value c.now) }
{
    let kind = kind_of(c)?;
    Some(Command::Flow {
        ch: c.ch,
        modem: c.modem,
        tag: c.tag,
        last: c.last,
        kind,
    })
}

/// A cut that keeps so many minislots, with these back-offs.
fn cut_command(c: &CommandFields, keep: u16, ranging: (u8, u8), sending: (u8, u8)) -> Command
    ensures { result ≡ cut_value c.now keep ranging sending }
{
    Command::Cut {
        ch: c.ch,
        len: c.minislots,
        not_before: c.not_before,
        ack: c.ack,
        keep,
        ranging,
        data: sending,
    }
}

/// The command of these fields. None where the number of the command, of its service or of its PHY is none.
pub fn command_of(c: &CommandFields) -> Option<Command>
    ensures { result ≡ command_value c.now }
{
    match c.kind {
        0 => Some(Command::Noop),
        1 => channel_command(c),
        2 => flow_command(c),
        3 => Some(Command::Drop {
            ch: c.ch,
            sid: c.sid,
        }),
        4 => Some(Command::Request {
            ch: c.ch,
            sid: c.sid,
            n: c.minislots,
            sent: c.sent,
        }),
        5 => Some(cut_command(c, 0, (255, 255), (255, 255))),
        6 => Some(cut_command(c, c.keep, ranging_of(c), sending_of(c))),
        7 => change_command(c),
        _ => None,
    }
}
