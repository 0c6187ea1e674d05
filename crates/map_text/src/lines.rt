//! A MAP as lines.

ghost use Rattle.std.specs.Prelude.{◌≡◌, ◌++◌, ◌-◌, length, replicate, decimal, flat_map, codes, IfOk, OnOk};
ghost use Rattle.std.specs.Prelude.{string_bytes};
ghost use Rattle.map_text.specs.Lines.{right, left, indent, waits, span_text, sid_name, owner_name, bar_sign};
ghost use Rattle.map_text.specs.Lines.{interval_front, interval_line, waiting_line, head_line, owners_line, map_lines};

use crate::bars::{open_mark, put_bar, put_owners};
use map_body::{Element, Interval, Iuc, Sid};
use plan_account::ShownMap;
use std::alloc::{AllocError, Global};

fn put_spaces(out: &mut Vec<u8>, count: usize) -> Result<(), AllocError>
    ensures { OnOk result (out.new.items ≡ out.old.items ++ replicate count 32) }
{
    for _column in 0..count {
        out.push(b' ')?;
    }
    Ok(())
}

/// Appends a number at the right of so many columns.
#[tactic(auto, unfolding(crate::specs::Lines::right))]
fn put_right(alloc: Global, out: &mut Vec<u8>, width: usize, number: u16) -> Result<(), AllocError>
    ensures { OnOk result (out.new.items ≡ out.old.items ++ right width (decimal number)) }
{
    let digits = format!(in alloc; "{number}")?;
    put_spaces(out, width.saturating_sub(digits.len()))?;
    out.extend_from_slice(digits.as_bytes())
}

/// Appends a text at the left of so many columns.
#[tactic(auto, unfolding(crate::specs::Lines::left))]
fn put_left(out: &mut Vec<u8>, width: usize, text: &str) -> Result<(), AllocError>
    ensures { OnOk result (out.new.items ≡ out.old.items ++ left width text.now) }
{
    out.extend_from_slice(text.as_bytes())?;
    put_spaces(out, width.saturating_sub(text.len()))
}

#[tactic(auto, unfolding(crate::specs::Lines::sid_name))]
fn sid_name(alloc: Global, sid: Sid) -> Result<String, AllocError>
    ensures { IfOk result (λ text. string_bytes text ≡ sid_name sid) }
{
    let sid = sid.get();
    format!(in alloc; "sid {sid}")
}

#[tactic(auto, unfolding(crate::specs::Lines::owner_name))]
fn owner_name(alloc: Global, sid: Sid) -> Result<String, AllocError>
    ensures { IfOk result (λ text. string_bytes text ≡ owner_name sid) }
{
    if sid == Sid::EVERYBODY {
        String::from_str(alloc, "all")
    } else {
        sid_name(alloc, sid)
    }
}

fn bar_sign(interval: &Interval) -> u8
    ensures { result ≡ bar_sign interval.now }
{
    if interval.sid == Sid::EVERYBODY {
        open_mark(interval.iuc)
    } else if interval.iuc == Iuc::REQUEST {
        b'?'
    } else if interval.iuc == Iuc::STATION_MAINTENANCE {
        b'!'
    } else {
        b'#'
    }
}

#[tactic(auto, unfolding(crate::specs::Lines::interval_front))]
fn put_front(alloc: Global, out: &mut Vec<u8>, interval: &Interval) -> Result<(), AllocError>
    ensures { OnOk result (out.new.items ≡ out.old.items ++ interval_front interval.now) }
{
    let Interval { sid, iuc, from, to } = *interval;
    put_right(alloc, out, 6, from.get())?;
    put_right(alloc, out, 6, to.get().saturating_sub(from.get()))?;
    out.extend_from_slice(b"  ")?;
    let name = owner_name(alloc, sid)?;
    put_left(out, 8, name.as_str())?;
    put_right(alloc, out, 4, u16::from(iuc.get()))?;
    out.extend_from_slice(b"      |")
}

/// Appends what stands behind a bar.
fn put_bar_end(out: &mut Vec<u8>) -> Result<(), AllocError>
    ensures { OnOk result (out.new.items ≡ out.old.items ++ codes "|\n") }
{
    out.extend_from_slice(b"|\n")
}

#[tactic(auto, unfolding(crate::specs::Lines::interval_line))]
fn put_interval(
    alloc: Global,
    out: &mut Vec<u8>,
    len: u16,
    interval: &Interval,
) -> Result<(), AllocError>
    ensures { OnOk result (out.new.items ≡ out.old.items ++ interval_line len interval.now) }
{
    put_front(alloc, out, interval)?;
    put_bar(
        out,
        interval.from.get(),
        interval.to.get(),
        len,
        bar_sign(interval),
    )?;
    put_bar_end(out)
}

fn put_intervals(
    alloc: Global,
    out: &mut Vec<u8>,
    len: u16,
    intervals: &[Interval],
) -> Result<(), AllocError>
    ensures { OnOk result (out.new.items ≡ out.old.items ++ flat_map (interval_line len) intervals.now) }
{
    for interval in intervals {
        put_interval(alloc, out, len, interval)?;
    }
    Ok(())
}

/// Appends what stands in place of an offset and a length.
#[tactic(auto, unfolding(crate::specs::Lines::indent))]
fn put_indent(out: &mut Vec<u8>) -> Result<(), AllocError>
    ensures { OnOk result (out.new.items ≡ out.old.items ++ indent) }
{
    put_spaces(out, 14)
}

/// Appends what stands behind an element after the Null.
#[tactic(auto, unfolding(crate::specs::Lines::waits))]
fn put_waits(out: &mut Vec<u8>) -> Result<(), AllocError>
    ensures { OnOk result (out.new.items ≡ out.old.items ++ waits) }
{
    out.extend_from_slice(b"      waits\n")
}

#[tactic(auto, unfolding(crate::specs::Lines::waiting_line))]
fn put_waiting(alloc: Global, out: &mut Vec<u8>, element: &Element) -> Result<(), AllocError>
    ensures { OnOk result (out.new.items ≡ out.old.items ++ waiting_line element.now) }
{
    let Element { sid, iuc, .. } = *element;
    put_indent(out)?;
    let name = sid_name(alloc, sid)?;
    put_left(out, 8, name.as_str())?;
    put_right(alloc, out, 4, u16::from(iuc.get()))?;
    put_waits(out)
}

fn put_all_waiting(alloc: Global, out: &mut Vec<u8>, elements: &[Element]) -> Result<(), AllocError>
    ensures { OnOk result (out.new.items ≡ out.old.items ++ flat_map waiting_line elements.now) }
{
    for element in elements {
        put_waiting(alloc, out, element)?;
    }
    Ok(())
}

/// Where a MAP begins, how long it is, its Ack Time.
#[tactic(auto, unfolding(crate::specs::Lines::span_text))]
fn span_text(alloc: Global, start: u64, len: u16, ack: u32) -> Result<String, AllocError>
    ensures { IfOk result (λ text. string_bytes text ≡ span_text start len ack) }
{
    format!(in alloc; " start {start} len {len} ack {ack}")
}

#[tactic(auto, unfolding(crate::specs::Lines::head_line))]
fn head_line(alloc: Global, place: &MapPlace, ack: u32) -> Result<String, AllocError>
    ensures { IfOk result (λ text. string_bytes text
        ≡ head_line place.now.ch place.now.number place.now.command place.now.start place.now.len ack) }
{
    let MapPlace {
        ch,
        number,
        command,
        start,
        len,
    } = *place;
    let span = span_text(alloc, start, len, ack)?;
    format!(in alloc; "channel {ch} map {number} command {command}{span}\n")
}

#[tactic(auto, unfolding(crate::specs::Lines::owners_line))]
fn put_owners_line(out: &mut Vec<u8>, len: u16, intervals: &[Interval]) -> Result<(), AllocError>
    ensures { OnOk result (out.new.items ≡ out.old.items ++ owners_line len intervals.now) }
{
    out.extend_from_slice(b"offset   len  owner     iuc     |")?;
    put_owners(out, intervals, len)?;
    put_bar_end(out)
}

/// Where a MAP stands: its channel, its number there, its command's number, where it begins, how long it is.
#[derive(Clone, Copy)]
pub struct MapPlace {
    pub ch: u8,
    pub number: usize,
    pub command: usize,
    pub start: u64,
    pub len: u16,
}

/// Appends the lines of a MAP.
pub(crate) fn put_map(
    alloc: Global,
    out: &mut Vec<u8>,
    place: MapPlace,
    map: &ShownMap,
) -> Result<(), AllocError>
    ensures { OnOk result (out.new.items ≡ out.old.items ++ map_lines place.ch place.number place.command place.start place.len map.now) }
{
    let intervals = map.intervals();
    let head = head_line(alloc, &place, map.ack())?;
    out.extend_from_slice(head.as_bytes())?;
    put_owners_line(out, place.len, intervals)?;
    put_intervals(alloc, out, place.len, intervals)?;
    put_all_waiting(alloc, out, map.waiting())
}
