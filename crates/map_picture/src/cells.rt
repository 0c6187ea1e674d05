//! A MAP as a strip of cells.

ghost use Rattle.std.specs.Prelude.{◌≡◌, ◌++◌, ◌+◌, ◌*◌, ◌<◌, ◌^◌, IfOk, OnOk, length, nat_lt, string_bytes};
ghost use Rattle.xml_text.specs.Xml.{render};
ghost use Rattle.map_picture.specs.Cells.{cell, cell_at, cell_shape, cell_title, cell_width, cell_words, cell_x, cells};
ghost use Rattle.map_picture.specs.Cells.{CellsFill, EndsAgree};

use crate::axis::Columns;
use crate::shapes::{add_block, cell_class, high, words_class};
use crate::words::owner_name;
use map_body::Interval;
use std::alloc::{AllocError, Global};
use xml_text::{Area, add_words};

/// The strip of a MAP: the columns of its channel, where its cells begin, which MAP of the channel and which deed it
/// is, each from 0 on, the channel, when the MAP begins and how long it is.
#[derive(Clone, Copy)]
pub(crate) struct Strip {
    pub columns: Columns,
    pub y: u64,
    pub number: usize,
    pub deed: usize,
    pub ch: u8,
    pub start: u64,
    pub len: u16,
}

/// Where a minislot of a MAP of so many begins.
#[tactic(auto, using(crate::proofs::Sizes::div_fits))]
pub(crate) fn cell_x(left: u32, len: u16, x: u16) -> u64
    ensures value { result ≡ cell_x left len x }
    ensures small { result < 2 ^ 33 }
{
    u64::from(left) + u64::from(x) * 768 / u64::from(len.max(1))
}

fn cell_width(strip: &Strip, interval: &Interval) -> u64
    ensures value { result ≡ cell_width strip.now interval.now }
    ensures small { result < 2 ^ 33 }
{
    let (left, len) = (strip.columns.left, strip.len);
    let from = cell_x(left, len, interval.from.get());
    cell_x(left, len, interval.to.get()).saturating_sub(from)
}

/// What a cell tells when it is pointed at.
fn cell_title(alloc: Global, interval: &Interval) -> Result<String, AllocError>
    ensures { IfOk result (λ text. string_bytes text ≡ cell_title interval.now) }
{
    let Interval { sid, iuc, from, to } = *interval;
    let name = owner_name(alloc, sid)?;
    let (iuc, from, to) = (iuc.get(), from.get(), to.get());
    let long = to.saturating_sub(from);
    format!(in alloc; "{name}, iuc {iuc}: offset {from}, {long} long")
}

fn add_cell_shape(
    alloc: Global,
    out: &mut String,
    strip: &Strip,
    interval: &Interval,
) -> Result<(), AllocError>
    ensures { OnOk result (string_bytes out.new ≡ string_bytes out.old ++ render (cell_shape strip.now interval.now)) }
{
    let title = cell_title(alloc, interval)?;
    let x = cell_x(strip.columns.left, strip.len, interval.from.get());
    let area = Area {
        corner: (x, strip.y),
        size: (cell_width(strip, interval), high(interval)),
    };
    add_block(alloc, out, title.as_str(), area, cell_class(interval))
}

/// Whether words have no room in a cell.
fn lacks_room(width: u64, words: &str) -> bool
    requires { width < 2 ^ 33 }
    ensures { result ≡ nat_lt width (6 * length words.now + 8) }
{
    let length = words.len() as u64;
    length >= 1 << 40 || width < 6 * length + 8
}

/// Whose a cell is, where there is room for it.
fn add_cell_words(
    alloc: Global,
    out: &mut String,
    strip: &Strip,
    interval: &Interval,
) -> Result<(), AllocError>
    requires { strip.now.y < 2 ^ 62 }
    ensures { OnOk result (string_bytes out.new ≡ string_bytes out.old ++ render (cell_words strip.now interval.now)) }
{
    let name = owner_name(alloc, interval.sid)?;
    if lacks_room(cell_width(strip, interval), name.as_str()) {
        return Ok(());
    }
    let x = cell_x(strip.columns.left, strip.len, interval.from.get());
    let class = words_class(interval.sid);
    add_words(alloc, out, (x + 4, strip.y + 11), class, name.as_str())
}

fn add_cell(
    alloc: Global,
    out: &mut String,
    strip: &Strip,
    interval: &Interval,
) -> Result<(), AllocError>
    requires { strip.now.y < 2 ^ 62 }
    ensures { OnOk result (string_bytes out.new ≡ string_bytes out.old ++ render (cell strip.now interval.now)) }
{
    add_cell_shape(alloc, out, strip, interval)?;
    add_cell_words(alloc, out, strip, interval)?;
    Ok(())
}

fn add_cell_at(
    alloc: Global,
    out: &mut String,
    strip: &Strip,
    intervals: &[Interval],
    k: usize,
) -> Result<(), AllocError>
    requires { strip.now.y < 2 ^ 62 }
    ensures { OnOk result (string_bytes out.new ≡ string_bytes out.old ++ render (cell_at strip.now intervals.now k)) }
{
    if k >= intervals.len() {
        return Ok(());
    }
    add_cell(alloc, out, strip, &intervals[k])
}

/// The cells of a MAP.
pub(crate) fn add_cells(
    alloc: Global,
    out: &mut String,
    strip: &Strip,
    intervals: &[Interval],
) -> Result<(), AllocError>
    requires { strip.now.y < 2 ^ 62 }
    ensures { OnOk result (string_bytes out.new ≡ string_bytes out.old ++ render (cells strip.now intervals.now)) }
{
    for k in 0..intervals.len() {
        add_cell_at(alloc, out, strip, intervals, k)?;
    }
    Ok(())
}

/// The cells of a MAP's intervals, which follow one another, add up to the whole strip.
pub fn cells_fill()
    ensures { CellsFill }
{}

/// A MAP's frame and its strip have the same ends.
pub fn ends_agree()
    ensures { EndsAgree }
{}
