ghost use Rattle.std.specs.Prelude.{◌≡◌, ◌+◌, ◌≤◌, IsTrue, IsFalse, length};
ghost use Rattle.std.specs.Int.{w16, w32, w64};
ghost use Rattle.grant_machine.specs.declared.command.Command.TheVariants as commands;
ghost use Rattle.command_log.specs.Spelling.{Spells, SpellsNone};
ghost use Rattle.command_log.specs.Reading.{change_in, channel_in, command_in, command_of, flow_command_in, kind_in};
ghost use Rattle.command_log.specs.Reading.{leased_flow_in, number, settings_in, cut_in, set_cut_in};

use crate::writing::is_plain;
use byteorder::{BigEndian, ByteOrder};
use flow_state::{Channel, ChannelSettings, FlowKind, LAST_TIME, Phy};
use grant_machine::Command;

fn u16_at(bytes: &[u8], place: usize) -> u16
    requires { place + 2 ≤ length bytes.now }
    ensures { result ≡ number w16 bytes.now place }
{
    BigEndian::read_u16(&bytes[place..])
}

fn u32_at(bytes: &[u8], place: usize) -> u32
    requires { place + 4 ≤ length bytes.now }
    ensures { result ≡ number w32 bytes.now place }
{
    BigEndian::read_u32(&bytes[place..])
}

fn u64_at(bytes: &[u8], place: usize) -> u64
    requires { place + 8 ≤ length bytes.now }
    ensures { result ≡ number w64 bytes.now place }
{
    BigEndian::read_u64(&bytes[place..])
}

fn channel_of(bytes: &[u8], phy: Phy) -> Channel
    requires { length bytes.now ≡ 17 }
    ensures { result ≡ channel_in phy bytes.now }
{
    Channel {
        id: bytes[1],
        ucd: bytes[2],
        phy,
        short_max: u16_at(bytes, 3),
        ranging_backoff: (bytes[5], bytes[6]),
        data_backoff: (bytes[7], bytes[8]),
        base: u64_at(bytes, 9),
    }
}

/// A flow's kind, which its first byte and the length tell.
fn kind_of(bytes: &[u8]) -> Option<FlowKind>
    ensures { result ≡ kind_in bytes.now }
{
    let first = *bytes.first()?;
    match (first, bytes.len()) {
        (0, 2) => Some(FlowKind::BestEffort(bytes[1])),
        (1, 19) => Some(FlowKind::Ugs {
            size: u16_at(bytes, 1),
            interval: u32_at(bytes, 3),
            jitter: u32_at(bytes, 7),
            base: u64_at(bytes, 11),
        }),
        (2, 17) => Some(FlowKind::Poll {
            interval: u32_at(bytes, 1),
            jitter: u32_at(bytes, 5),
            base: u64_at(bytes, 9),
        }),
        (3, 19) => Some(FlowKind::Station {
            size: u16_at(bytes, 1),
            interval: u32_at(bytes, 3),
            jitter: u32_at(bytes, 7),
            base: u64_at(bytes, 11),
        }),
        (4, 19) => Some(FlowKind::Initial {
            size: u16_at(bytes, 1),
            interval: u32_at(bytes, 3),
            jitter: u32_at(bytes, 7),
            base: u64_at(bytes, 11),
        }),
        _ => None,
    }
}

/// The flow whose lease has this last minislot, with its kind from a place on.
fn flow_of(bytes: &[u8], last: u64, place: usize) -> Option<Command>
    requires { 10 ≤ place }
    ensures { result ≡ flow_command_in bytes.now last place }
{
    if bytes.len() < place {
        return None;
    }
    let kind = kind_of(&bytes[place..])?;
    Some(Command::Flow {
        ch: bytes[1],
        modem: u32_at(bytes, 2),
        tag: u32_at(bytes, 6),
        last,
        kind,
    })
}

/// The flow whose last minislot is written. The last time of all isn't written.
fn leased_flow_of(bytes: &[u8]) -> Option<Command>
    ensures { result ≡ leased_flow_in bytes.now }
{
    if bytes.len() < 18 {
        return None;
    }
    let last = u64_at(bytes, 10);
    if last == LAST_TIME {
        return None;
    }
    flow_of(bytes, last, 18)
}

fn settings_of(bytes: &[u8], phy: Phy) -> ChannelSettings
    requires { length bytes.now ≡ 10 }
    ensures { result ≡ settings_in phy bytes.now }
{
    ChannelSettings {
        ucd: bytes[2],
        phy,
        short_max: u16_at(bytes, 4),
        ranging_backoff: (bytes[6], bytes[7]),
        data_backoff: (bytes[8], bytes[9]),
    }
}

/// The change, whose fourth byte tells the PHY.
fn change_of(bytes: &[u8]) -> Option<Command>
    requires { length bytes.now ≡ 10 }
    ensures { result ≡ change_in bytes.now }
{
    let phy = match bytes[3] {
        0 => Phy::Tdma,
        1 => Phy::Advanced,
        _ => return None,
    };
    Some(Command::Change {
        ch: bytes[1],
        settings: settings_of(bytes, phy),
    })
}

/// A cut with these settings of its own.
fn cut_of(bytes: &[u8], keep: u16, ranging: (u8, u8), sending: (u8, u8)) -> Command
    requires { 20 ≤ length bytes.now }
    ensures { result ≡ cut_in bytes.now keep ranging sending }
{
    Command::Cut {
        ch: bytes[1],
        len: u16_at(bytes, 2),
        not_before: u64_at(bytes, 4),
        ack: u64_at(bytes, 12),
        keep,
        ranging,
        data: sending,
    }
}

/// The cut whose settings are written. Where it has none of its own, they aren't written.
fn set_cut_of(bytes: &[u8]) -> Option<Command>
    requires { length bytes.now ≡ 26 }
    ensures { result ≡ set_cut_in bytes.now }
{
    let keep = u16_at(bytes, 20);
    let ranging = (bytes[22], bytes[23]);
    let sending = (bytes[24], bytes[25]);
    if is_plain(keep, ranging, sending) {
        return None;
    }
    Some(cut_of(bytes, keep, ranging, sending))
}

/// The command that bytes spell, by the first byte and the length.
fn command_at(bytes: &[u8]) -> Option<Command>
    ensures { result ≡ command_in bytes.now }
{
    let first = *bytes.first()?;
    match (first, bytes.len()) {
        (0, 1) => Some(Command::Noop),
        (1, 17) => Some(Command::Channel(channel_of(bytes, Phy::Tdma))),
        (6, 17) => Some(Command::Channel(channel_of(bytes, Phy::Advanced))),
        (10, 10) => change_of(bytes),
        (2, _) => flow_of(bytes, LAST_TIME, 10),
        (7, _) => leased_flow_of(bytes),
        (3, 4) => Some(Command::Drop {
            ch: bytes[1],
            sid: u16_at(bytes, 2),
        }),
        (4, 14) => Some(Command::Request {
            ch: bytes[1],
            sid: u16_at(bytes, 2),
            n: u16_at(bytes, 4),
            sent: u64_at(bytes, 6),
        }),
        (5, 20) => Some(cut_of(bytes, 0, (255, 255), (255, 255))),
        (9, 26) => set_cut_of(bytes),
        _ => None,
    }
}

/// The command that bytes spell, and true; Noop and false where they spell none. It takes no memory.
pub fn read_command(bytes: &[u8]) -> (Command, bool)
    ensures read { IsTrue result.1 → Spells bytes.now result.0 }
    ensures other { IsFalse result.1 → (result.0 ≡ commands.Noop) × SpellsNone bytes.now }
    ensures value { result.0 ≡ command_of bytes.now }
{
    match command_at(bytes) {
        Some(command) => (command, true),
        None => (Command::Noop, false),
    }
}
