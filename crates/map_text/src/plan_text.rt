//! The MAPs of a plan, channel by channel.

ghost use Rattle.std.specs.Prelude.{◌≡◌, ◌++◌, ◌≤◌, ◌<◌, ◌^◌, flat_map, IfOk, OnOk, string_bytes};
ghost use Rattle.map_text.specs.Texts.{maps_in, deed_lines, maps_from, fate_text, request_line, told_text, why_line};
ghost use Rattle.map_text.specs.Texts.{request_lines, channel_text};

use crate::lines::{MapPlace, put_map};
use plan_account::{Account, Deed, Fate, RequestRow, Told, Why, why_last, why_words};
use std::alloc::{AllocError, Global};

/// How many MAPs of a channel a deed is.
fn maps_in(ch: u8, deed: &Deed) -> usize
    ensures same { result ≡ maps_in ch deed.now }
    ensures few { result ≤ 1 }
{
    match deed {
        Deed::Map { ch: c, .. } => usize::from(*c == ch),
        Deed::Channel(_) => 0,
        Deed::Flow { .. } => 0,
        Deed::Drop { .. } => 0,
        Deed::Request { .. } => 0,
        Deed::Other => 0,
    }
}

/// A channel, how many MAPs of it came before a command, and the command's number.
#[derive(Clone, Copy)]
struct Before {
    ch: u8,
    maps: usize,
    command: usize,
}

fn put_deed(alloc: Global, out: &mut Vec<u8>, before: Before, deed: &Deed) -> Result<(), AllocError>
    requires { before.maps < 2 ^ 63 }
    ensures { OnOk result (out.new.items ≡ out.old.items ++ deed_lines before.ch before.maps before.command deed.now) }
{
    match deed {
        Deed::Map {
            ch,
            start,
            len,
            map,
            ..
        } => {
            if *ch != before.ch {
                return Ok(());
            }
            let place = MapPlace {
                ch: *ch,
                number: before.maps + 1,
                command: before.command,
                start: start.get(),
                len: *len,
            };
            put_map(alloc, out, place, map)
        }
        Deed::Channel(_) => Ok(()),
        Deed::Flow { .. } => Ok(()),
        Deed::Drop { .. } => Ok(()),
        Deed::Request { .. } => Ok(()),
        Deed::Other => Ok(()),
    }
}

fn put_maps(alloc: Global, out: &mut Vec<u8>, ch: u8, deeds: &[Deed]) -> Result<(), AllocError>
    ensures { OnOk result (out.new.items ≡ out.old.items ++ maps_from ch 0 1 deeds.now) }
{
    let mut maps = 0;
    let mut command = 1;
    for deed in deeds {
        let before = Before { ch, maps, command };
        put_deed(alloc, out, before, deed)?;
        maps += maps_in(ch, deed);
        command += 1;
    }
    Ok(())
}

fn fate_text(alloc: Global, sent: u64, fate: Fate) -> Result<String, AllocError>
    ensures { IfOk result (λ text. string_bytes text ≡ fate_text sent fate) }
{
    match fate {
        Fate::Waits(_) => String::from_str(alloc, "still waits"),
        Fate::Gone => String::from_str(alloc, "dropped"),
        Fate::Granted { map, start } => {
            let after = start.saturating_sub(sent);
            format!(in alloc; "map {map} after {after}")
        }
    }
}

fn request_line(alloc: Global, row: &RequestRow) -> Result<String, AllocError>
    ensures { IfOk result (λ text. string_bytes text ≡ request_line row.now) }
{
    let RequestRow {
        key,
        command,
        n,
        sent,
        fate,
        ..
    } = *row;
    let sid = key % (1 << 16);
    let fate = fate_text(alloc, sent, fate)?;
    format!(in alloc; "request {command} sid {sid} n {n} sent {sent} {fate}\n")
}

fn told_text(alloc: Global, told: Option<Told>) -> Result<String, AllocError>
    ensures { IfOk result (λ text. string_bytes text ≡ told_text told) }
{
    let Some(Told { start, .. }) = told else {
        return Ok(String::new(alloc));
    };
    format!(in alloc; "told to wait at {start}, ")
}

fn why_line(alloc: Global, told: Option<Told>, why: Option<Why>) -> Result<String, AllocError>
    ensures { IfOk result (λ text. string_bytes text ≡ why_line told why) }
{
    let Some(why) = why else {
        return Ok(String::new(alloc));
    };
    let told = told_text(alloc, told)?;
    let why = why_words(alloc, why)?;
    format!(in alloc; "        {told}{why}\n")
}

fn put_request(alloc: Global, out: &mut Vec<u8>, ch: u8, row: &RequestRow) -> Result<(), AllocError>
    ensures { OnOk result (out.new.items ≡ out.old.items ++ request_lines ch row.now) }
{
    if row.key / (1 << 16) != u32::from(ch) {
        return Ok(());
    }
    let line = request_line(alloc, row)?;
    let why = why_line(alloc, row.told, why_last(row))?;
    out.extend_from_slice(line.as_bytes())?;
    out.extend_from_slice(why.as_bytes())
}

fn put_requests(
    alloc: Global,
    out: &mut Vec<u8>,
    ch: u8,
    rows: &[RequestRow],
) -> Result<(), AllocError>
    ensures { OnOk result (out.new.items ≡ out.old.items ++ flat_map (request_lines ch) rows.now) }
{
    for row in rows {
        put_request(alloc, out, ch, row)?;
    }
    Ok(())
}

/// The text of a channel: its MAPs in order, and what became of its requests.
pub fn channel_text(alloc: Global, account: &Account, ch: u8) -> Result<Vec<u8>, AllocError>
    ensures { IfOk result (λ text. text.items ≡ channel_text account.now ch) }
{
    let mut out = Vec::new(alloc);
    put_maps(alloc, &mut out, ch, account.deeds())?;
    put_requests(alloc, &mut out, ch, account.requests())?;
    Ok(out)
}
