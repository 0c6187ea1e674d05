//! Shapes that several rows have.

ghost use Rattle.std.specs.Prelude.{◌≡◌, ◌++◌, OnOk, string_bytes};
ghost use Rattle.xml_text.specs.Xml.{render, shape, titled};
ghost use Rattle.xml_text.specs.Xml.Tag.{Rectangle};
ghost use Rattle.map_picture.specs.Cells.{cell_class, class_of, colour, high, words_class};

use map_body::{Interval, Iuc, Sid};
use std::alloc::{AllocError, Global};
use xml_text::{Area, add_rectangle, add_titled};

/// A rectangle that tells what it is when it is pointed at.
pub(crate) fn add_block(
    alloc: Global,
    out: &mut String,
    title: &str,
    area: Area,
    class: &str,
) -> Result<(), AllocError>
    ensures { OnOk result (string_bytes out.new ≡ string_bytes out.old
        ++ render (titled title.now (shape (Rectangle area.corner.0 area.corner.1 area.size.0 area.size.1 class.now)))) }
{
    let mut inside = String::new(alloc);
    add_rectangle(alloc, &mut inside, area, class)?;
    add_titled(alloc, out, title, inside.as_str())
}

/// The colour of a SID, by its remainder by 7.
fn colour(remainder: u16) -> &'static str
    ensures { result.now ≡ colour remainder }
{
    if remainder == 0 {
        "g0"
    } else if remainder == 1 {
        "g1"
    } else if remainder == 2 {
        "g2"
    } else if remainder == 3 {
        "g3"
    } else if remainder == 4 {
        "g4"
    } else if remainder == 5 {
        "g5"
    } else {
        "g6"
    }
}

/// What the minislots of a SID look like.
pub(crate) fn class_of(sid: u16) -> &'static str
    ensures { result.now ≡ class_of sid }
{
    if sid == Sid::EVERYBODY.get() {
        "open"
    } else {
        colour(sid % 7)
    }
}

/// What an interval looks like: an opening for first ranging has a pattern of its own.
pub(crate) fn cell_class(interval: &Interval) -> &'static str
    ensures { result.now ≡ cell_class interval.now }
{
    if interval.sid == Sid::EVERYBODY && interval.iuc == Iuc::INITIAL_MAINTENANCE {
        "opening"
    } else {
        class_of(interval.sid.get())
    }
}

/// How high an interval is.
pub(crate) fn high(interval: &Interval) -> u64
    ensures { result ≡ high interval.now }
{
    if interval.sid == Sid::EVERYBODY {
        14
    } else if interval.iuc == Iuc::REQUEST {
        6
    } else {
        14
    }
}

/// What words on the minislots of a SID look like.
pub(crate) fn words_class(sid: Sid) -> &'static str
    ensures { result.now ≡ words_class sid }
{
    if sid == Sid::EVERYBODY {
        "s mute"
    } else {
        "s k"
    }
}
