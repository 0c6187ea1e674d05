//! A command as a table of TOML.

ghost use Rattle.std.specs.Prelude.{◌≡◌, ℕ, ◌^◌, ◌<◌, Some, IfSome, pos, codes};
ghost use Rattle.toml.specs.Data.{integer, at};
ghost use Rattle.toml.specs.View.{view};
ghost use Rattle.flow_state.specs.declared.channel.Channel.{Channel};
ghost use Rattle.flow_state.specs.declared.channel.Phy.{Phy};
ghost use Rattle.flow_state.specs.declared.settings.ChannelSettings.{ChannelSettings};
ghost use Rattle.flow_state.specs.declared.flow.FlowKind.{FlowKind};
ghost use Rattle.grant_machine.specs.declared.command.Command.{Command};
ghost use Rattle.script_text.specs.Fields.{HasText};
ghost use Rattle.script_text.specs.CommandTable.{IsPair, HasPair, NamesPhy, HasPhy, HasChannel, HasSettings};
ghost use Rattle.script_text.specs.CommandTable.{HasService, HasLast, HasKeep, HasBackoff, SpellsCommand};

use crate::fields::{u8_at, u16_at, u32_at, u64_at};
use flow_state::{Channel, ChannelSettings, FlowKind, LAST_TIME, Phy};
use grant_machine::Command;
use toml::Value;

fn u8_in(pair: &Value, index: usize) -> Option<u8>
    ensures found { IfSome result (λ n. (at index (view pair.now) ≡ Some (integer (pos n))) × (n < 2 ^ 8)) }
    ensures only { (n : ℕ) → at index (view pair.now) ≡ Some (integer (pos n)) → n < 2 ^ 8 → result ≡ Some n }
{
    let number = pair.get(index)?.as_integer()?;
    u8::try_from(number).ok()
}

/// The start and the end of a back-off.
fn backoff_of(pair: &Value) -> Option<(u8, u8)>
    ensures found { IfSome result (IsPair (view pair.now)) }
    ensures only { (p : ℕ × ℕ) → IsPair (view pair.now) p → result ≡ Some p }
{
    let start = u8_in(pair, 0)?;
    let end = u8_in(pair, 1)?;
    match pair.get(2) {
        Some(_) => None,
        None => Some((start, end)),
    }
}

fn backoff_at(table: &Value, key: &str) -> Option<(u8, u8)>
    ensures found { IfSome result (HasPair (view table.now) key.now) }
    ensures only { (p : ℕ × ℕ) → HasPair (view table.now) key.now p → result ≡ Some p }
{
    backoff_of(table.get(key)?)
}

/// The PHY that the table names.
fn phy_at(table: &Value) -> Option<Phy>
    ensures found { IfSome result (NamesPhy (view table.now)) }
    ensures only { (phy : Phy) → NamesPhy (view table.now) phy → result ≡ Some phy }
{
    match table.get("phy")?.as_str()? {
        "tdma" => Some(Phy::Tdma),
        "advanced" => Some(Phy::Advanced),
        _ => None,
    }
}

/// The same of a channel, TDMA where the table names none.
fn phy_or_tdma(table: &Value) -> Option<Phy>
    ensures found { IfSome result (HasPhy (view table.now)) }
    ensures only { (phy : Phy) → HasPhy (view table.now) phy → result ≡ Some phy }
{
    match table.get("phy") {
        Some(_) => phy_at(table),
        None => Some(Phy::Tdma),
    }
}

fn channel_fields(table: &Value) -> Option<Channel>
    ensures found { IfSome result (HasChannel (view table.now)) }
    ensures only { (c : Channel) → HasChannel (view table.now) c → result ≡ Some c }
{
    Some(Channel {
        id: u8_at(table, "ch")?,
        ucd: u8_at(table, "ucd")?,
        phy: phy_or_tdma(table)?,
        short_max: u16_at(table, "short_max")?,
        ranging_backoff: backoff_at(table, "ranging")?,
        data_backoff: backoff_at(table, "data")?,
        base: u64_at(table, "base")?,
    })
}

fn channel_of(table: &Value) -> Option<Command>
    requires { HasText (view table.now) (codes "kind") (codes "channel") }
    ensures found { IfSome result (SpellsCommand (view table.now)) }
    ensures only { (command : Command) → SpellsCommand (view table.now) command → result ≡ Some command }
{
    Some(Command::Channel(channel_fields(table)?))
}

fn settings_of(table: &Value) -> Option<ChannelSettings>
    ensures found { IfSome result (HasSettings (view table.now)) }
    ensures only { (s : ChannelSettings) → HasSettings (view table.now) s → result ≡ Some s }
{
    Some(ChannelSettings {
        ucd: u8_at(table, "ucd")?,
        phy: phy_at(table)?,
        short_max: u16_at(table, "short_max")?,
        ranging_backoff: backoff_at(table, "ranging")?,
        data_backoff: backoff_at(table, "data")?,
    })
}

fn change_of(table: &Value) -> Option<Command>
    requires { HasText (view table.now) (codes "kind") (codes "change") }
    ensures found { IfSome result (SpellsCommand (view table.now)) }
    ensures only { (command : Command) → SpellsCommand (view table.now) command → result ≡ Some command }
{
    Some(Command::Change {
        ch: u8_at(table, "ch")?,
        settings: settings_of(table)?,
    })
}

fn service_of(table: &Value) -> Option<FlowKind>
    ensures found { IfSome result (HasService (view table.now)) }
    ensures only { (kind : FlowKind) → HasService (view table.now) kind → result ≡ Some kind }
{
    match table.get("service")?.as_str()? {
        "best_effort" => Some(FlowKind::BestEffort(u8_at(table, "priority")?)),
        "ugs" => Some(FlowKind::Ugs {
            size: u16_at(table, "size")?,
            interval: u32_at(table, "interval")?,
            jitter: u32_at(table, "jitter")?,
            base: u64_at(table, "base")?,
        }),
        "station" => Some(FlowKind::Station {
            size: u16_at(table, "size")?,
            interval: u32_at(table, "interval")?,
            jitter: u32_at(table, "jitter")?,
            base: u64_at(table, "base")?,
        }),
        "initial" => Some(FlowKind::Initial {
            size: u16_at(table, "size")?,
            interval: u32_at(table, "interval")?,
            jitter: u32_at(table, "jitter")?,
            base: u64_at(table, "base")?,
        }),
        "poll" => Some(FlowKind::Poll {
            interval: u32_at(table, "interval")?,
            jitter: u32_at(table, "jitter")?,
            base: u64_at(table, "base")?,
        }),
        _ => None,
    }
}

/// The last minislot of a flow's lease, the last time of all where the table names none.
fn last_of(table: &Value) -> Option<u64>
    ensures found { IfSome result (HasLast (view table.now)) }
    ensures only { (last : ℕ) → HasLast (view table.now) last → result ≡ Some last }
{
    match table.get("last") {
        Some(_) => u64_at(table, "last"),
        None => Some(LAST_TIME),
    }
}

fn flow_of(table: &Value) -> Option<Command>
    requires { HasText (view table.now) (codes "kind") (codes "flow") }
    ensures found { IfSome result (SpellsCommand (view table.now)) }
    ensures only { (command : Command) → SpellsCommand (view table.now) command → result ≡ Some command }
{
    Some(Command::Flow {
        ch: u8_at(table, "ch")?,
        modem: u32_at(table, "modem")?,
        tag: u32_at(table, "tag")?,
        last: last_of(table)?,
        kind: service_of(table)?,
    })
}

fn drop_of(table: &Value) -> Option<Command>
    requires { HasText (view table.now) (codes "kind") (codes "drop") }
    ensures found { IfSome result (SpellsCommand (view table.now)) }
    ensures only { (command : Command) → SpellsCommand (view table.now) command → result ≡ Some command }
{
    Some(Command::Drop {
        ch: u8_at(table, "ch")?,
        sid: u16_at(table, "sid")?,
    })
}

fn request_of(table: &Value) -> Option<Command>
    requires { HasText (view table.now) (codes "kind") (codes "request") }
    ensures found { IfSome result (SpellsCommand (view table.now)) }
    ensures only { (command : Command) → SpellsCommand (view table.now) command → result ≡ Some command }
{
    Some(Command::Request {
        ch: u8_at(table, "ch")?,
        sid: u16_at(table, "sid")?,
        n: u16_at(table, "n")?,
        sent: u64_at(table, "sent")?,
    })
}

/// How many minislots a cut keeps, none where the table names no number.
fn keep_of(table: &Value) -> Option<u16>
    ensures found { IfSome result (HasKeep (view table.now)) }
    ensures only { (keep : ℕ) → HasKeep (view table.now) keep → result ≡ Some keep }
{
    match table.get("keep") {
        Some(_) => u16_at(table, "keep"),
        None => Some(0),
    }
}

/// A back-off of a cut, the channel's own where the table names none.
fn backoff_or_own(table: &Value, key: &str) -> Option<(u8, u8)>
    ensures found { IfSome result (HasBackoff (view table.now) key.now) }
    ensures only { (p : ℕ × ℕ) → HasBackoff (view table.now) key.now p → result ≡ Some p }
{
    match table.get(key) {
        Some(_) => backoff_at(table, key),
        None => Some((255, 255)),
    }
}

fn cut_of(table: &Value) -> Option<Command>
    requires { HasText (view table.now) (codes "kind") (codes "cut") }
    ensures found { IfSome result (SpellsCommand (view table.now)) }
    ensures only { (command : Command) → SpellsCommand (view table.now) command → result ≡ Some command }
{
    Some(Command::Cut {
        ch: u8_at(table, "ch")?,
        len: u16_at(table, "len")?,
        not_before: u64_at(table, "not_before")?,
        ack: u64_at(table, "ack")?,
        keep: keep_of(table)?,
        ranging: backoff_or_own(table, "ranging")?,
        data: backoff_or_own(table, "data")?,
    })
}

/// The command that a table spells. None where a key is missing, holds something else than its
/// field asks for, or doesn't fit it. Further keys are ignored.
pub fn command_of(table: &Value) -> Option<Command>
    ensures found { IfSome result (SpellsCommand (view table.now)) }
    ensures only { (command : Command) → SpellsCommand (view table.now) command → result ≡ Some command }
{
    match table.get("kind")?.as_str()? {
        "noop" => Some(Command::Noop),
        "channel" => channel_of(table),
        "change" => change_of(table),
        "flow" => flow_of(table),
        "drop" => drop_of(table),
        "request" => request_of(table),
        "cut" => cut_of(table),
        _ => None,
    }
}
