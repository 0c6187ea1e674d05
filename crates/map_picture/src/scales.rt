//! Minislot numbers above a channel, and their ticks on frames and on strips.

ghost use Rattle.std.specs.Prelude.{◌≡◌, ◌++◌, ◌*◌, ◌<◌, ◌≤◌, ◌^◌, ◌/◌, ◌+◌, ℕ, IfOk, OnOk, string_bytes};
ghost use Rattle.xml_text.specs.Xml.{render};
ghost use Rattle.map_picture.specs.Scales.{most_numbers, no_map, number, number_at, number_count, number_tick};
ghost use Rattle.map_picture.specs.Scales.{number_words, numbers, numbers_by, part_of, round_step, scale, step_of};
ghost use Rattle.map_picture.specs.Scales.{steps_before, ten_after, tick, tick_at, tick_x, ticks, NumbersAreRound};

use crate::axis::{Axis, Span, at, is_bare};
use crate::cells::{Strip, cell_x};
use std::alloc::{AllocError, Global};
use xml_text::{add_line, add_words};

/// A power of ten that is at most a fifth of a part, or ten times it.
fn ten_after(part: u64) -> u64
    requires { 5 * part < 2 ^ 64 }
    ensures value { result ≡ ten_after 18 part }
    ensures some { 0 < result }
{
    let mut ten: u64 = 1;
    for _k in 0..18u64 {
        if ten <= part / 5 {
            ten = 10 * ten;
        }
    }
    ten
}

/// The first of 1, 2 and 5 times a power of ten that is longer than a part.
fn round_step(part: u64) -> u64
    requires { 5 * part < 2 ^ 64 }
    ensures value { result ≡ round_step part }
    ensures some { 0 < result }
{
    let ten = ten_after(part);
    if part < ten {
        ten
    } else if part < 2 * ten {
        2 * ten
    } else {
        5 * ten
    }
}

/// How many numbers a span has at most.
fn most_numbers(span: Span) -> u64
    ensures value { result ≡ most_numbers span }
    ensures least { 5 ≤ result }
{
    if span.to < 100_000_000_000 { 10 } else { 5 }
}

/// The part of a span that steps are longer than.
fn part_of(span: Span) -> u64
    ensures value { result ≡ part_of span }
    ensures small { 5 * result < 2 ^ 64 }
{
    let long = span.to.saturating_sub(span.from);
    if span.to < 100_000_000_000 {
        long / 10
    } else {
        long / 5
    }
}

fn step_of(span: Span) -> u64
    ensures value { result ≡ step_of span }
    ensures some { 0 < result }
{
    round_step(part_of(span))
}

/// How many steps it is to the first number in a span.
fn steps_before(span: Span, step: u64) -> u64
    requires { 0 < step }
    ensures { result ≡ steps_before span step }
{
    span.from.div_ceil(step)
}

fn number_count(span: Span, step: u64) -> u64
    requires { 0 < step }
    ensures value { result ≡ number_count span step }
    ensures within { (n : ℕ) → n < result → steps_before span step + n ≤ span.to / step }
{
    let (before, last) = (steps_before(span, step), span.to / step);
    if last < before {
        0
    } else {
        (last - before).min(most_numbers(span) - 1) + 1
    }
}

#[tactic(auto, using(crate::proofs::Sizes::times_fits, crate::proofs::Sizes::div_fits))]
fn numbers_by(alloc: Global, span: Span, step: u64) -> Result<Vec<u64>, AllocError>
    requires { 0 < step }
    ensures { IfOk result (λ found. found.items ≡ numbers_by span step) }
{
    let before = steps_before(span, step);
    let mut numbers = Vec::new(alloc);
    for n in 0..number_count(span, step) {
        numbers.push((before + n) * step)?;
    }
    Ok(numbers)
}

/// The round minislot numbers of a span, ten at most.
pub(crate) fn numbers(alloc: Global, span: Span) -> Result<Vec<u64>, AllocError>
    ensures { IfOk result (λ found. found.items ≡ numbers span) }
{
    numbers_by(alloc, span, step_of(span))
}

/// There are ten numbers at most, by round steps.
pub fn numbers_are_round()
    ensures { NumbersAreRound }
{}

fn add_number_words(
    alloc: Global,
    out: &mut String,
    axis: Axis,
    y: u64,
    t: u64,
) -> Result<(), AllocError>
    requires { y < 2 ^ 62 }
    ensures { OnOk result (string_bytes out.new ≡ string_bytes out.old ++ render (number_words axis y t)) }
{
    let words = format!(in alloc; "{t}")?;
    add_words(
        alloc,
        out,
        (at(axis, t), y + 34),
        "s m mute",
        words.as_str(),
    )
}

fn add_number_tick(
    alloc: Global,
    out: &mut String,
    axis: Axis,
    y: u64,
    t: u64,
) -> Result<(), AllocError>
    requires { y < 2 ^ 62 }
    ensures { OnOk result (string_bytes out.new ≡ string_bytes out.old ++ render (number_tick axis y t)) }
{
    let x = at(axis, t);
    add_line(alloc, out, (x, y + 37), (x, y + 42), "tick")
}

/// A number above frames, and its tick.
fn add_number(alloc: Global, out: &mut String, axis: Axis, y: u64, t: u64) -> Result<(), AllocError>
    requires { y < 2 ^ 62 }
    ensures { OnOk result (string_bytes out.new ≡ string_bytes out.old ++ render (number axis y t)) }
{
    add_number_words(alloc, out, axis, y, t)?;
    add_number_tick(alloc, out, axis, y, t)?;
    Ok(())
}

/// The number of this place in numbers, at this height.
fn add_number_at(
    alloc: Global,
    out: &mut String,
    axis: Axis,
    numbers: &[u64],
    place: (u64, usize),
) -> Result<(), AllocError>
    requires { place.0 < 2 ^ 62 }
    ensures { OnOk result (string_bytes out.new ≡ string_bytes out.old ++ render (number_at axis place.0 numbers.now place.1)) }
{
    let (y, k) = place;
    if k >= numbers.len() {
        return Ok(());
    }
    add_number(alloc, out, axis, y, numbers[k])
}

/// Numbers above the frames of a channel, and a tick for each.
pub(crate) fn add_scale(
    alloc: Global,
    out: &mut String,
    axis: Axis,
    y: u64,
    numbers: &[u64],
) -> Result<(), AllocError>
    requires { y < 2 ^ 62 }
    ensures { OnOk result (string_bytes out.new ≡ string_bytes out.old ++ render (scale axis y numbers.now)) }
{
    for k in 0..numbers.len() {
        add_number_at(alloc, out, axis, numbers, (y, k))?;
    }
    Ok(())
}

/// That a channel has no MAP, where it has none.
pub(crate) fn add_no_map(
    alloc: Global,
    out: &mut String,
    axis: Axis,
    y: u64,
) -> Result<(), AllocError>
    requires { y < 2 ^ 62 }
    ensures { OnOk result (string_bytes out.new ≡ string_bytes out.old ++ render (no_map axis y)) }
{
    if !is_bare(axis.span) {
        return Ok(());
    }
    let point = (u64::from(axis.columns.left), y + 34);
    add_words(alloc, out, point, "s mute", "no MAP")
}

/// Where the tick of a minislot of a MAP is on its strip.
fn tick_x(strip: &Strip, t: u64) -> u64
    requires from { strip.now.start ≤ t }
    requires to { t ≤ strip.now.start + strip.now.len }
    ensures { result ≡ tick_x strip.now t }
{
    cell_x(strip.columns.left, strip.len, (t - strip.start) as u16)
}

/// The tick of a minislot on a strip, if it is in the MAP or ends it.
fn add_tick(alloc: Global, out: &mut String, strip: &Strip, t: u64) -> Result<(), AllocError>
    requires { strip.now.start < 2 ^ 63 }
    ensures { OnOk result (string_bytes out.new ≡ string_bytes out.old ++ render (tick strip.now t)) }
{
    if !(strip.start <= t && t <= strip.start + u64::from(strip.len)) {
        return Ok(());
    }
    let (x, y) = (tick_x(strip, t), strip.y);
    add_line(alloc, out, (x, y.saturating_sub(4)), (x, y), "tick")
}

fn add_tick_at(
    alloc: Global,
    out: &mut String,
    strip: &Strip,
    numbers: &[u64],
    k: usize,
) -> Result<(), AllocError>
    requires { strip.now.start < 2 ^ 63 }
    ensures { OnOk result (string_bytes out.new ≡ string_bytes out.old ++ render (tick_at strip.now numbers.now k)) }
{
    if k >= numbers.len() {
        return Ok(());
    }
    add_tick(alloc, out, strip, numbers[k])
}

/// The ticks of numbers on the strip of a MAP.
pub(crate) fn add_ticks(
    alloc: Global,
    out: &mut String,
    strip: &Strip,
    numbers: &[u64],
) -> Result<(), AllocError>
    requires { strip.now.start < 2 ^ 63 }
    ensures { OnOk result (string_bytes out.new ≡ string_bytes out.old ++ render (ticks strip.now numbers.now)) }
{
    for k in 0..numbers.len() {
        add_tick_at(alloc, out, strip, numbers, k)?;
    }
    Ok(())
}
