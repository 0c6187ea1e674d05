//! The MAPs of commands as one picture.

ghost use Rattle.std.specs.Prelude.{◌≡◌, ◌++◌, ◌+◌, ◌*◌, ◌<◌, ◌^◌, IfOk, OnOk, length, string_bytes};
ghost use Rattle.std.specs.List.Sorted.{IsPermutation};
ghost use Rattle.xml_text.specs.Xml.{Xml, render};
ghost use Rattle.xml_text.specs.Drawings.{AreDrawn};
ghost use Rattle.plan_account.specs.Deeds.{channels_of};
ghost use Rattle.map_picture.specs.Pictures.{channel, channel_at, channel_height, channel_rows, channels_drawn};
ghost use Rattle.map_picture.specs.Pictures.{first_top, heading, layers, stack_of, stacked, tops_from};
ghost use Rattle.map_picture.specs.Pictures.{IsDrawable, IsPictureOf, IsRendered};
ghost use Rattle.map_picture.specs.Wedges.{IsInOrder};

use crate::axis::{Axis, Page, span_of};
use crate::columns::columns_of;
use crate::legend::legend_for;
use crate::picked::{leases_on, maps_on, requests_on};
use crate::rows::{OnChannel, add_frames, add_owners, add_requests, add_strips};
use crate::scales::{add_no_map, add_scale, numbers};
use crate::sent::{Sent, in_order};
use crate::style::{STYLE, patterns};
use crate::widths::width_of;
use plan_account::{Account, channels_of};
use std::alloc::{AllocError, Global};
use std::marker::Model;
use xml_text::{Layers, Sheet, add_words, drawing};

/// Channels one below the other: those of an account with what modems sent in order, where each begins, and where the
/// last one ends.
#[derive(Drop)]
struct Channels<'a> {
    account: &'a Account,
    sent: &'a [Sent],
    channels: &'a [u8],
    tops: &'a [u64],
}

impl<'a> Model for Channels<'a> {
    ghost use Rattle.map_picture.specs.Pictures.{Stack};

    ghost Value = { Stack };

    ghost view = { λ c. record {
      account = c.account.now;
      sent = c.sent.now;
      channels = c.channels.now;
      tops = c.tops.now;
    } };
}

fn channel_height(alloc: Global, account: &Account, ch: u8) -> Result<u64, AllocError>
    requires { IsDrawable account.now }
    ensures value { IfOk result (λ height. height ≡ channel_height account.now ch) }
    ensures small { IfOk result (λ height. height < 2 ^ 34) }
{
    let owners = leases_on(alloc, ch, account.leases())?.len() as u64;
    let requests = requests_on(alloc, ch, account.requests())?.len() as u64;
    let maps = maps_on(alloc, ch, account.deeds())?.len() as u64;
    Ok(80 + 22 * owners + 22 * requests + 22 * maps)
}

/// Where channels begin, and where the last one ends.
fn tops_of(alloc: Global, account: &Account, channels: &[u8]) -> Result<Vec<u64>, AllocError>
    requires rows { IsDrawable account.now }
    requires channels { length channels.now < 2 ^ 26 }
    ensures { IfOk result (λ tops. tops.items ≡ tops_from account.now first_top channels.now) }
{
    let mut tops = Vec::new(alloc);
    let mut y: u64 = 72;
    for ch in channels {
        tops.push(y)?;
        y += channel_height(alloc, account, *ch)?;
    }
    tops.push(y)?;
    Ok(tops)
}

fn add_heading(alloc: Global, out: &mut String, ch: u8, y: u64) -> Result<(), AllocError>
    requires { y < 2 ^ 62 }
    ensures { OnOk result (string_bytes out.new ≡ string_bytes out.old ++ render (heading ch y)) }
{
    let words = format!(in alloc; "channel {ch}")?;
    add_words(alloc, out, (16, y + 16), "h", words.as_str())
}

/// The rows of a channel, from a height down.
fn add_rows(
    alloc: Global,
    out: &mut String,
    channel: &OnChannel<'_>,
    y: u64,
) -> Result<(), AllocError>
    requires y { y < 2 ^ 60 }
    requires deeds { length channel.now.deeds < 2 ^ 27 }
    requires owners { length channel.now.owners < 2 ^ 27 }
    requires requests { length channel.now.requests < 2 ^ 27 }
    requires maps { length channel.now.maps < 2 ^ 27 }
    requires order { IsInOrder channel.now.sent }
    ensures { OnOk result (string_bytes out.new ≡ string_bytes out.old ++ render (channel_rows channel.now y)) }
{
    let first = 22 * (channel.owners.len() as u64);
    let second = 22 * (channel.requests.len() as u64);
    let axis = channel.page.axis;
    add_heading(alloc, out, channel.page.ch, y)?;
    add_no_map(alloc, out, axis, y)?;
    add_scale(alloc, out, axis, y, channel.numbers)?;
    add_frames(alloc, out, channel, (y + 42, first + second + 2))?;
    add_owners(alloc, out, channel, y + 46)?;
    add_requests(alloc, out, channel, y + 46 + first)?;
    add_strips(alloc, out, channel, y + 60 + first + second)?;
    Ok(())
}

fn add_channel(
    alloc: Global,
    out: &mut String,
    all: &Channels<'_>,
    ch: u8,
    y: u64,
) -> Result<(), AllocError>
    requires y { y < 2 ^ 60 }
    requires rows { IsDrawable all.now.account }
    requires order { IsInOrder all.now.sent }
    ensures { OnOk result (string_bytes out.new ≡ string_bytes out.old ++ render (channel all.now.account all.now.sent ch y)) }
{
    let deeds = all.account.deeds();
    let owners = leases_on(alloc, ch, all.account.leases())?;
    let requests = requests_on(alloc, ch, all.account.requests())?;
    let maps = maps_on(alloc, ch, deeds)?;
    let span = span_of(deeds, ch);
    let columns = columns_of(alloc, span, &owners, &requests)?;
    let axis = Axis { columns, span };
    let numbers = numbers(alloc, span)?;
    let channel = OnChannel {
        page: Page { ch, axis },
        deeds,
        numbers: numbers.as_slice(),
        sent: all.sent,
        owners: owners.as_slice(),
        requests: requests.as_slice(),
        maps: maps.as_slice(),
    };
    add_rows(alloc, out, &channel, y)
}

fn add_channel_at(
    alloc: Global,
    out: &mut String,
    all: &Channels<'_>,
    k: usize,
) -> Result<(), AllocError>
    requires rows { IsDrawable all.now.account }
    requires order { IsInOrder all.now.sent }
    ensures { OnOk result (string_bytes out.new ≡ string_bytes out.old ++ render (channel_at all.now k)) }
{
    if k >= all.channels.len() {
        return Ok(());
    }
    if k >= all.tops.len() {
        return Ok(());
    }
    if all.tops[k] >= 1 << 60 {
        return Err(AllocError);
    }
    add_channel(alloc, out, all, all.channels[k], all.tops[k])
}

fn add_channels(alloc: Global, out: &mut String, all: &Channels<'_>) -> Result<(), AllocError>
    requires rows { IsDrawable all.now.account }
    requires order { IsInOrder all.now.sent }
    ensures { OnOk result (string_bytes out.new ≡ string_bytes out.old ++ render (stacked all.now)) }
{
    for k in 0..all.channels.len() {
        add_channel_at(alloc, out, all, k)?;
    }
    Ok(())
}

/// The channels of an account.
fn channels_drawn(alloc: Global, all: &Channels<'_>) -> Result<String, AllocError>
    requires rows { IsDrawable all.now.account }
    requires stack { all.now ≡ stack_of all.now.account all.now.sent }
    requires order { IsInOrder all.now.sent }
    ensures { IfOk result (λ text. string_bytes text ≡ render (channels_drawn all.now.account all.now.sent)) }
{
    let mut out = String::new(alloc);
    add_channels(alloc, &mut out, all)?;
    Ok(out)
}

/// The layers of a picture: channels below a legend.
fn layers_of(alloc: Global, all: &Channels<'_>) -> Result<Layers, AllocError>
    requires rows { IsDrawable all.now.account }
    requires stack { all.now ≡ stack_of all.now.account all.now.sent }
    requires order { IsInOrder all.now.sent }
    ensures { IfOk result (λ drawn. (known : Xml) × AreDrawn drawn (layers all.now.account all.now.sent known)) }
{
    let title = format!(in alloc; "The MAPs of {} commands", all.account.deeds().len())?;
    let bands = channels_drawn(alloc, all)?;
    let labels = legend_for(alloc, title.as_str(), !all.sent.is_empty())?;
    Ok(Layers {
        rules: String::new(alloc),
        bands,
        arrows: String::new(alloc),
        marks: String::new(alloc),
        labels,
    })
}

/// How wide and how high the picture of channels is.
fn size_of(alloc: Global, all: &Channels<'_>) -> Result<(u64, u64), AllocError> {
    let height = match all.tops.last() {
        Some(top) => *top,
        None => 0,
    };
    Ok((width_of(alloc, all.account, all.channels)?, height))
}

/// The picture of layers on a sheet. They are those of channels with what was sent in order, of which this is what was
/// sent in its own order.
fn drawn_on(
    alloc: Global,
    sheet: &Sheet<'_>,
    drawn: &Layers,
    all: &Channels<'_>,
    sent: &[Sent],
) -> Result<String, AllocError>
    requires same { IsPermutation sent.now all.now.sent }
    requires definitions { IsRendered sheet.now.definitions.now }
    requires drawn { (known : Xml) × AreDrawn drawn.now (layers all.now.account all.now.sent known) }
    ensures { IfOk result (λ text. IsPictureOf all.now.account sent.now (string_bytes text)) }
{
    let text = drawing(alloc, sheet, drawn)?;
    Ok(text)
}

/// The picture of channels with what was sent in order, of which this is what was sent in its own order.
fn drawn_so(alloc: Global, all: &Channels<'_>, sent: &[Sent]) -> Result<String, AllocError>
    requires rows { IsDrawable all.now.account }
    requires stack { all.now ≡ stack_of all.now.account all.now.sent }
    requires same { IsPermutation sent.now all.now.sent }
    requires order { IsInOrder all.now.sent }
    ensures { IfOk result (λ text. IsPictureOf all.now.account sent.now (string_bytes text)) }
{
    let drawn = layers_of(alloc, all)?;
    let known = patterns(alloc)?;
    let size = size_of(alloc, all)?;
    let sheet = Sheet {
        size,
        title: "upsched MAPs",
        style: STYLE,
        definitions: known.as_str(),
    };
    drawn_on(alloc, &sheet, &drawn, all, sent)
}

/// The picture of what was sent and is now in order.
fn drawn_in_order(
    alloc: Global,
    account: &Account,
    sent: &[Sent],
    ordered: &[Sent],
) -> Result<String, AllocError>
    requires rows { IsDrawable account.now }
    requires same { IsPermutation sent.now ordered.now }
    requires order { IsInOrder ordered.now }
    ensures { IfOk result (λ text. IsPictureOf account.now sent.now (string_bytes text)) }
{
    let channels = channels_of(alloc, account.deeds())?;
    if channels.len() >= 1 << 26 {
        return Err(AllocError);
    }
    let tops = tops_of(alloc, account, &channels)?;
    let all = Channels {
        account,
        sent: ordered,
        channels: channels.as_slice(),
        tops: tops.as_slice(),
    };
    drawn_so(alloc, &all, sent)
}

/// The picture of what commands did, and of what modems sent in the minislots of their MAPs, as an SVG document. What
/// was sent is sorted once; then each transmission is looked at for each channel whose MAPs have its minislot.
pub fn picture(alloc: Global, account: &Account, sent: &[Sent]) -> Result<String, AllocError>
    requires { IsDrawable account.now }
    ensures { IfOk result (λ text. IsPictureOf account.now sent.now (string_bytes text)) }
{
    let ordered = in_order(alloc, sent)?;
    drawn_in_order(alloc, account, sent, ordered.as_slice())
}
