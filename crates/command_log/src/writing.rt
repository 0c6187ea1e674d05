ghost use Rattle.std.specs.Prelude.{◌≡◌, ◌++◌, IfOk, OnOk};
ghost use Rattle.std.specs.Int.{w32, w64, to_be_bytes};
ghost use Rattle.grant_machine.specs.declared.command.Command.TheVariants as commands;
ghost use Rattle.grant_machine.specs.Steps.{cut_command};
ghost use Rattle.grant_machine.specs.Fits.{FitsCommand};
ghost use Rattle.command_log.specs.Spelling.{phy_byte, changed_phy, channel_spelling, flow_spelling, kind_byte};
ghost use Rattle.command_log.specs.Spelling.{kind_fields, kind_spelling, sized_spelling, spelling, cut_byte, is_plain};

use flow_state::{Channel, ChannelSettings, FlowKind, LAST_TIME, Phy};
use grant_machine::{Command, CutSettings};
use std::alloc::{AllocError, Global};

/// The first byte of a channel.
fn phy_byte(phy: Phy) -> u8
    ensures { result ≡ phy_byte phy }
{
    match phy {
        Phy::Tdma => 1,
        Phy::Advanced => 6,
    }
}

fn put_channel(out: &mut Vec<u8>, channel: Channel) -> Result<(), AllocError>
    ensures { OnOk result (out.new.items ≡ out.old.items ++ channel_spelling channel) }
{
    out.extend_from_slice(&[channel.id, channel.ucd])?;
    out.extend_from_slice(&channel.short_max.to_be_bytes())?;
    let (ranging_start, ranging_end) = channel.ranging_backoff;
    let (data_start, data_end) = channel.data_backoff;
    out.extend_from_slice(&[ranging_start, ranging_end, data_start, data_end])?;
    out.extend_from_slice(&channel.base.to_be_bytes())?;
    Ok(())
}

/// When what comes by itself is due.
fn put_timing(out: &mut Vec<u8>, interval: u32, jitter: u32, base: u64) -> Result<(), AllocError>
    ensures { OnOk result (out.new.items ≡ out.old.items ++ to_be_bytes w32 interval ++ to_be_bytes w32 jitter ++ to_be_bytes w64 base) }
{
    out.extend_from_slice(&interval.to_be_bytes())?;
    out.extend_from_slice(&jitter.to_be_bytes())?;
    out.extend_from_slice(&base.to_be_bytes())?;
    Ok(())
}

/// The byte of a flow's kind.
fn kind_byte(kind: FlowKind) -> u8
    ensures { result ≡ kind_byte kind }
{
    match kind {
        FlowKind::BestEffort(_) => 0,
        FlowKind::Ugs { .. } => 1,
        FlowKind::Poll { .. } => 2,
        FlowKind::Station { .. } => 3,
        FlowKind::Initial { .. } => 4,
    }
}

/// What has a size and comes by itself.
fn put_sized(
    out: &mut Vec<u8>,
    size: u16,
    interval: u32,
    jitter: u32,
    base: u64,
) -> Result<(), AllocError>
    ensures { OnOk result (out.new.items ≡ out.old.items ++ sized_spelling size interval jitter base) }
{
    out.extend_from_slice(&size.to_be_bytes())?;
    put_timing(out, interval, jitter, base)
}

/// What follows the kind's byte.
fn put_fields(out: &mut Vec<u8>, kind: FlowKind) -> Result<(), AllocError>
    ensures { OnOk result (out.new.items ≡ out.old.items ++ kind_fields kind) }
{
    match kind {
        FlowKind::BestEffort(priority) => {
            out.extend_from_slice(&[priority])?;
            Ok(())
        }
        FlowKind::Ugs {
            size,
            interval,
            jitter,
            base,
        } => put_sized(out, size, interval, jitter, base),
        FlowKind::Poll {
            interval,
            jitter,
            base,
        } => put_timing(out, interval, jitter, base),
        FlowKind::Station {
            size,
            interval,
            jitter,
            base,
        } => put_sized(out, size, interval, jitter, base),
        FlowKind::Initial {
            size,
            interval,
            jitter,
            base,
        } => put_sized(out, size, interval, jitter, base),
    }
}

/// Writes a flow's kind behind what is there. Where memory runs out, some of its bytes may be.
pub fn put_kind(out: &mut Vec<u8>, kind: FlowKind) -> Result<(), AllocError>
    ensures { OnOk result (out.new.items ≡ out.old.items ++ kind_spelling kind) }
{
    out.extend_from_slice(&[kind_byte(kind)])?;
    put_fields(out, kind)
}

fn put_flow_head(out: &mut Vec<u8>, ch: u8, modem: u32, tag: u32) -> Result<(), AllocError>
    ensures { OnOk result (out.new.items ≡ out.old.items ++ flow_spelling ch modem tag) }
{
    out.extend_from_slice(&[ch])?;
    out.extend_from_slice(&modem.to_be_bytes())?;
    out.extend_from_slice(&tag.to_be_bytes())?;
    Ok(())
}

/// Writes the bytes of the command that sets a channel behind what is there. Where memory runs out, some of them may
/// be.
pub fn put_setting(out: &mut Vec<u8>, channel: Channel) -> Result<(), AllocError>
    ensures spelled { OnOk result (out.new.items ≡ out.old.items ++ spelling (commands.Channel channel)) }
    ensures fits { FitsCommand (commands.Channel channel) }
{
    out.extend_from_slice(&[phy_byte(channel.phy)])?;
    put_channel(out, channel)
}

/// The PHY of a change.
fn changed_phy(phy: Phy) -> u8
    ensures { result ≡ changed_phy phy }
{
    match phy {
        Phy::Tdma => 0,
        Phy::Advanced => 1,
    }
}

fn put_change(out: &mut Vec<u8>, ch: u8, settings: ChannelSettings) -> Result<(), AllocError>
    ensures spelled { OnOk result (out.new.items ≡ out.old.items ++ spelling (commands.Change ch settings)) }
    ensures fits { FitsCommand (commands.Change ch settings) }
{
    out.extend_from_slice(&[10, ch, settings.ucd, changed_phy(settings.phy)])?;
    out.extend_from_slice(&settings.short_max.to_be_bytes())?;
    let (ranging_start, ranging_end) = settings.ranging_backoff;
    let (data_start, data_end) = settings.data_backoff;
    out.extend_from_slice(&[ranging_start, ranging_end, data_start, data_end])?;
    Ok(())
}

/// A flow. The last minislot of its lease is written where it isn't the last time of all.
fn put_flow(
    out: &mut Vec<u8>,
    ch: u8,
    modem: u32,
    tag: u32,
    last: u64,
    kind: FlowKind,
) -> Result<(), AllocError>
    ensures spelled { OnOk result (out.new.items ≡ out.old.items ++ spelling (commands.Flow ch modem tag last kind)) }
    ensures fits { FitsCommand (commands.Flow ch modem tag last kind) }
{
    if last == LAST_TIME {
        out.extend_from_slice(&[2])?;
        put_flow_head(out, ch, modem, tag)?;
        return put_kind(out, kind);
    }
    out.extend_from_slice(&[7])?;
    put_flow_head(out, ch, modem, tag)?;
    out.extend_from_slice(&last.to_be_bytes())?;
    put_kind(out, kind)
}

fn put_drop(out: &mut Vec<u8>, ch: u8, sid: u16) -> Result<(), AllocError>
    ensures spelled { OnOk result (out.new.items ≡ out.old.items ++ spelling (commands.Drop ch sid)) }
    ensures fits { FitsCommand (commands.Drop ch sid) }
{
    out.extend_from_slice(&[3, ch])?;
    out.extend_from_slice(&sid.to_be_bytes())?;
    Ok(())
}

fn put_request(out: &mut Vec<u8>, ch: u8, sid: u16, n: u16, sent: u64) -> Result<(), AllocError>
    ensures spelled { OnOk result (out.new.items ≡ out.old.items ++ spelling (commands.Request ch sid n sent)) }
    ensures fits { FitsCommand (commands.Request ch sid n sent) }
{
    out.extend_from_slice(&[4, ch])?;
    out.extend_from_slice(&sid.to_be_bytes())?;
    out.extend_from_slice(&n.to_be_bytes())?;
    out.extend_from_slice(&sent.to_be_bytes())?;
    Ok(())
}

/// Has a cut no settings of its own: does it keep nothing, and tell the channel's back-offs?
pub(crate) fn is_plain(keep: u16, ranging: (u8, u8), sending: (u8, u8)) -> bool
    ensures { result ≡ is_plain keep ranging sending }
{
    keep == 0 && ranging.0 == 255 && ranging.1 == 255 && sending.0 == 255 && sending.1 == 255
}

/// The first byte of a cut.
fn cut_byte(is_plain: bool) -> u8
    ensures { result ≡ cut_byte is_plain }
{
    if is_plain { 5 } else { 9 }
}

/// A cut. What it keeps and the back-offs that it tells are written where it has some of its own.
fn put_cut(out: &mut Vec<u8>, ch: u8, asked: CutSettings) -> Result<(), AllocError>
    ensures spelled { OnOk result (out.new.items ≡ out.old.items ++ spelling (cut_command ch asked)) }
    ensures fits { FitsCommand (cut_command ch asked) }
{
    let ranging = asked.ranging_backoff;
    let sending = asked.data_backoff;
    let is_plain = is_plain(asked.keep, ranging, sending);
    out.extend_from_slice(&[cut_byte(is_plain), ch])?;
    out.extend_from_slice(&asked.len.to_be_bytes())?;
    out.extend_from_slice(&asked.not_before.to_be_bytes())?;
    out.extend_from_slice(&asked.ack.to_be_bytes())?;
    if is_plain {
        return Ok(());
    }
    out.extend_from_slice(&asked.keep.to_be_bytes())?;
    out.extend_from_slice(&[ranging.0, ranging.1, sending.0, sending.1])?;
    Ok(())
}

fn put(out: &mut Vec<u8>, command: &Command) -> Result<(), AllocError>
    ensures spelled { OnOk result (out.new.items ≡ out.old.items ++ spelling command.now) }
    ensures fits { FitsCommand command.now }
{
    match *command {
        Command::Noop => {
            out.extend_from_slice(&[0])?;
            Ok(())
        }
        Command::Channel(channel) => put_setting(out, channel),
        Command::Change { ch, settings } => put_change(out, ch, settings),
        Command::Flow {
            ch,
            modem,
            tag,
            last,
            kind,
        } => put_flow(out, ch, modem, tag, last, kind),
        Command::Drop { ch, sid } => put_drop(out, ch, sid),
        Command::Request { ch, sid, n, sent } => put_request(out, ch, sid, n, sent),
        Command::Cut {
            ch,
            len,
            not_before,
            ack,
            keep,
            ranging,
            data,
        } => put_cut(
            out,
            ch,
            CutSettings {
                len,
                not_before,
                ack,
                keep,
                ranging_backoff: ranging,
                data_backoff: data,
            },
        ),
    }
}

/// The bytes of a command: most significant byte first, of a length that its first byte tells, and of
/// a flow its kind's byte too.
pub fn command_bytes(alloc: Global, command: &Command) -> Result<Vec<u8>, AllocError>
    ensures spelled { IfOk result (λ bytes. bytes.items ≡ spelling command.now) }
    ensures fits { FitsCommand command.now }
{
    let mut out = Vec::new(alloc);
    put(&mut out, command)?;
    Ok(out)
}
