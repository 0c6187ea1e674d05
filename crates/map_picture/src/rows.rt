//! Rows of leases, of requests and of MAPs, and frames round them.

ghost use Rattle.std.specs.Prelude.{◌≡◌, ◌++◌, ◌<◌, ◌^◌, IfOk, OnOk, length, string_bytes};
ghost use Rattle.xml_text.specs.Xml.{render};
ghost use Rattle.map_picture.specs.Pictures.{frame_at, frames, map_name, owner_at, owners, request_at, requests};
ghost use Rattle.map_picture.specs.Pictures.{strip_at, strip_name, strip_row, strip_text, strip_words, strips};
ghost use Rattle.map_picture.specs.Wedges.{IsInOrder};

use crate::asked::add_asked;
use crate::axis::{Page, at, right, wide};
use crate::cells::{Strip, add_cells};
use crate::owners::{Owner, add_owner};
use crate::scales::add_ticks;
use crate::sent::Sent;
use crate::shapes::add_block;
use crate::wedges::add_wedges;
use plan_account::{Deed, LeaseRow, RequestRow, ShownMap};
use std::alloc::{AllocError, Global};
use std::marker::Model;
use xml_text::{Area, add_words};

/// What is drawn of a channel: its page, what commands did, the numbers above it, what modems sent in order, the leases
/// and the requests that have a row, and which deeds are its MAPs.
#[derive(Drop)]
pub(crate) struct OnChannel<'a> {
    pub page: Page,
    pub deeds: &'a [Deed],
    pub numbers: &'a [u64],
    pub sent: &'a [Sent],
    pub owners: &'a [LeaseRow],
    pub requests: &'a [RequestRow],
    pub maps: &'a [usize],
}

impl<'a> Model for OnChannel<'a> {
    ghost use Rattle.map_picture.specs.Pictures.{ChannelRows};

    ghost Value = { ChannelRows };

    ghost view = { λ c. record {
      page = c.page;
      deeds = c.deeds.now;
      numbers = c.numbers.now;
      sent = c.sent.now;
      owners = c.owners.now;
      requests = c.requests.now;
      maps = c.maps.now;
    } };
}

/// MAP `k` of a channel by its number.
fn map_name(alloc: Global, k: usize) -> Result<String, AllocError>
    requires { k < 2 ^ 62 }
    ensures { IfOk result (λ text. string_bytes text ≡ map_name k) }
{
    let number = k + 1;
    format!(in alloc; "MAP {number}")
}

fn add_strip_name(alloc: Global, out: &mut String, strip: &Strip) -> Result<(), AllocError>
    requires y { strip.now.y < 2 ^ 62 }
    requires number { strip.now.number < 2 ^ 62 }
    ensures { OnOk result (string_bytes out.new ≡ string_bytes out.old ++ render (strip_name strip.now)) }
{
    let words = map_name(alloc, strip.number)?;
    let point = (u64::from(strip.columns.names), strip.y + 11);
    add_words(alloc, out, point, "s e b", words.as_str())
}

pub(crate) fn strip_text(
    alloc: Global,
    i: usize,
    start: u64,
    len: u16,
) -> Result<String, AllocError>
    requires { i < 2 ^ 62 }
    ensures { IfOk result (λ text. string_bytes text ≡ strip_text i start len) }
{
    let command = i + 1;
    format!(in alloc; "command {command}: {len} from {start}")
}

fn add_strip_words(alloc: Global, out: &mut String, strip: &Strip) -> Result<(), AllocError>
    requires y { strip.now.y < 2 ^ 62 }
    requires deed { strip.now.deed < 2 ^ 62 }
    ensures { OnOk result (string_bytes out.new ≡ string_bytes out.old ++ render (strip_words strip.now)) }
{
    let words = strip_text(alloc, strip.deed, strip.start, strip.len)?;
    let point = (right(strip.columns), strip.y + 11);
    add_words(alloc, out, point, "s mute", words.as_str())
}

/// A strip of a channel, and what modems sent in it.
fn add_strip(
    alloc: Global,
    out: &mut String,
    channel: &OnChannel<'_>,
    strip: &Strip,
    map: &ShownMap,
) -> Result<(), AllocError>
    requires y { strip.now.y < 2 ^ 62 }
    requires number { strip.now.number < 2 ^ 62 }
    requires deed { strip.now.deed < 2 ^ 62 }
    requires order { IsInOrder channel.now.sent }
    requires start { strip.now.start < 2 ^ 63 }
    ensures { OnOk result (string_bytes out.new ≡ string_bytes out.old ++ render (strip_row channel.now strip.now map.now)) }
{
    add_strip_name(alloc, out, strip)?;
    add_cells(alloc, out, strip, map.intervals())?;
    add_ticks(alloc, out, strip, channel.numbers)?;
    add_wedges(alloc, out, strip, channel.sent)?;
    add_strip_words(alloc, out, strip)?;
    Ok(())
}

fn add_strip_at(
    alloc: Global,
    out: &mut String,
    channel: &OnChannel<'_>,
    top: u64,
    k: usize,
) -> Result<(), AllocError>
    requires top { top < 2 ^ 61 }
    requires deeds { length channel.now.deeds < 2 ^ 27 }
    requires maps { length channel.now.maps < 2 ^ 27 }
    requires order { IsInOrder channel.now.sent }
    ensures { OnOk result (string_bytes out.new ≡ string_bytes out.old ++ render (strip_at channel.now top k)) }
{
    let (deeds, maps) = (channel.deeds, channel.maps);
    if k >= maps.len() {
        return Ok(());
    }
    if maps[k] >= deeds.len() {
        return Ok(());
    }
    match &deeds[maps[k]] {
        Deed::Map {
            ch,
            start,
            len,
            map,
            ..
        } => {
            let strip = Strip {
                columns: channel.page.axis.columns,
                y: top + 22 * (k as u64),
                number: k,
                deed: maps[k],
                ch: *ch,
                start: start.get(),
                len: *len,
            };
            add_strip(alloc, out, channel, &strip, map)
        }
        Deed::Channel(_) => Ok(()),
        Deed::Flow { .. } => Ok(()),
        Deed::Drop { .. } => Ok(()),
        Deed::Request { .. } => Ok(()),
        Deed::Other => Ok(()),
    }
}

/// A row a MAP.
pub(crate) fn add_strips(
    alloc: Global,
    out: &mut String,
    channel: &OnChannel<'_>,
    top: u64,
) -> Result<(), AllocError>
    requires top { top < 2 ^ 61 }
    requires deeds { length channel.now.deeds < 2 ^ 27 }
    requires maps { length channel.now.maps < 2 ^ 27 }
    requires order { IsInOrder channel.now.sent }
    ensures { OnOk result (string_bytes out.new ≡ string_bytes out.old ++ render (strips channel.now top)) }
{
    for k in 0..channel.maps.len() {
        add_strip_at(alloc, out, channel, top, k)?;
    }
    Ok(())
}

fn add_owner_at(
    alloc: Global,
    out: &mut String,
    channel: &OnChannel<'_>,
    top: u64,
    k: usize,
) -> Result<(), AllocError>
    requires top { top < 2 ^ 61 }
    requires owners { length channel.now.owners < 2 ^ 27 }
    ensures { OnOk result (string_bytes out.new ≡ string_bytes out.old ++ render (owner_at channel.now top k)) }
{
    if k >= channel.owners.len() {
        return Ok(());
    }
    let owner = Owner {
        page: channel.page,
        y: top + 22 * (k as u64),
        row: channel.owners[k],
    };
    add_owner(alloc, out, &owner, channel.deeds)
}

/// A row a lease.
pub(crate) fn add_owners(
    alloc: Global,
    out: &mut String,
    channel: &OnChannel<'_>,
    top: u64,
) -> Result<(), AllocError>
    requires top { top < 2 ^ 61 }
    requires owners { length channel.now.owners < 2 ^ 27 }
    ensures { OnOk result (string_bytes out.new ≡ string_bytes out.old ++ render (owners channel.now top)) }
{
    for k in 0..channel.owners.len() {
        add_owner_at(alloc, out, channel, top, k)?;
    }
    Ok(())
}

fn add_request_at(
    alloc: Global,
    out: &mut String,
    channel: &OnChannel<'_>,
    top: u64,
    k: usize,
) -> Result<(), AllocError>
    requires top { top < 2 ^ 61 }
    requires requests { length channel.now.requests < 2 ^ 27 }
    ensures { OnOk result (string_bytes out.new ≡ string_bytes out.old ++ render (request_at channel.now top k)) }
{
    if k >= channel.requests.len() {
        return Ok(());
    }
    let y = top + 22 * (k as u64);
    add_asked(alloc, out, channel.page.axis, y, &channel.requests[k])
}

/// A row a request.
pub(crate) fn add_requests(
    alloc: Global,
    out: &mut String,
    channel: &OnChannel<'_>,
    top: u64,
) -> Result<(), AllocError>
    requires top { top < 2 ^ 61 }
    requires requests { length channel.now.requests < 2 ^ 27 }
    ensures { OnOk result (string_bytes out.new ≡ string_bytes out.old ++ render (requests channel.now top)) }
{
    for k in 0..channel.requests.len() {
        add_request_at(alloc, out, channel, top, k)?;
    }
    Ok(())
}

/// The frame of MAP `k` on the axis of time, from where down and so high.
fn add_frame_at(
    alloc: Global,
    out: &mut String,
    channel: &OnChannel<'_>,
    down: (u64, u64),
    k: usize,
) -> Result<(), AllocError>
    requires { length channel.now.maps < 2 ^ 27 }
    ensures { OnOk result (string_bytes out.new ≡ string_bytes out.old ++ render (frame_at channel.now down.0 down.1 k)) }
{
    let (axis, deeds, maps) = (channel.page.axis, channel.deeds, channel.maps);
    if k >= maps.len() {
        return Ok(());
    }
    if maps[k] >= deeds.len() {
        return Ok(());
    }
    match &deeds[maps[k]] {
        Deed::Map { start, len, .. } => {
            let title = map_name(alloc, k)?;
            let (from, to) = (start.get(), start.get() + u64::from(*len));
            let area = Area {
                corner: (at(axis, from), down.0),
                size: (wide(axis, from, to), down.1),
            };
            add_block(alloc, out, title.as_str(), area, "frame")
        }
        Deed::Channel(_) => Ok(()),
        Deed::Flow { .. } => Ok(()),
        Deed::Drop { .. } => Ok(()),
        Deed::Request { .. } => Ok(()),
        Deed::Other => Ok(()),
    }
}

/// The frame of each MAP, from where down and so high.
pub(crate) fn add_frames(
    alloc: Global,
    out: &mut String,
    channel: &OnChannel<'_>,
    down: (u64, u64),
) -> Result<(), AllocError>
    requires { length channel.now.maps < 2 ^ 27 }
    ensures { OnOk result (string_bytes out.new ≡ string_bytes out.old ++ render (frames channel.now down.0 down.1)) }
{
    for k in 0..channel.maps.len() {
        add_frame_at(alloc, out, channel, down, k)?;
    }
    Ok(())
}
