//! In which minislots of a MAP modems transmitted.

ghost use Rattle.std.specs.Prelude.{◌≡◌, ◌++◌, ◌+◌, ◌<◌, ◌≤◌, ◌^◌, nat_lt, IsTrue, IfOk, OnOk, string_bytes};
ghost use Rattle.xml_text.specs.Xml.{render};
ghost use Rattle.map_picture.specs.Wedges.{clash_words, collides, is_in, meets, middle, sending_words, wedge, wedge_at};
ghost use Rattle.map_picture.specs.Wedges.{wedge_class, wedge_steps, wedge_title, wedges, AreBefore, IsInOrder};

use crate::cells::Strip;
use crate::sent::Sent;
use modem::Sending;
use std::alloc::{AllocError, Global};
use xml_text::add_titled_path;

/// Whether it was before a minislot.
fn is_before(t: &Sent, slot: u64) -> bool
    ensures { result ≡ nat_lt t.now.slot slot }
{
    t.slot.get() < slot
}

/// How many were before a minislot. It costs the logarithm of how many there are.
fn count_before(sent: &[Sent], slot: u64) -> usize
    requires { IsInOrder sent.now }
    ensures { AreBefore slot result sent.now }
{
    sent.partition_point(|t| is_before(t, slot))
}

/// Whether another modem, which sent `u`, collides with the one that sent `t`.
fn meets(t: &Sent, u: &Sent) -> bool
    ensures { result ≡ meets t.now u.now }
{
    u.channel == t.channel && u.slot.get() == t.slot.get() && u.modem != t.modem
}

/// Whether another modem sent in the same minislot of the channel. It looks at what was sent in that minislot alone.
fn collides(sent: &[Sent], t: &Sent) -> bool
    requires { IsInOrder sent.now }
    ensures { result ≡ collides sent.now t.now }
{
    let first = count_before(sent, t.slot.get());
    let end = count_before(sent, t.slot.get() + 1);
    for k in first..end {
        if meets(t, &sent[k]) {
            return true;
        }
    }
    false
}

/// Whether it was in the channel of a MAP, in one of its minislots.
fn is_in(strip: &Strip, t: &Sent) -> bool
    requires start { strip.now.start < 2 ^ 63 }
    ensures value { result ≡ is_in strip.now t.now }
    ensures within { IsTrue result → t.now.slot < strip.now.start + strip.now.len }
{
    let (start, slot) = (strip.start, t.slot.get());
    t.channel == strip.ch && start <= slot && slot < start + u64::from(strip.len)
}

/// The middle of minislot `x` of a MAP of so many.
#[tactic(auto, using(crate::proofs::Sizes::div_fits))]
fn middle(left: u32, len: u16, x: u64) -> u64
    requires { x < 2 ^ 32 }
    ensures { result ≡ middle left len x }
{
    u64::from(left) + (x * 768 + 384) / u64::from(len.max(1))
}

fn wedge_steps(alloc: Global, x: u64, y: u64) -> Result<String, AllocError>
    ensures { IfOk result (λ text. string_bytes text ≡ wedge_steps x y) }
{
    format!(in alloc; "M{x} {y}l5 8h-10z")
}

fn wedge_class(clash: bool) -> &'static str
    ensures { result.now ≡ wedge_class clash }
{
    if clash { "bad" } else { "sent" }
}

fn sending_words(alloc: Global, sending: Sending) -> Result<String, AllocError>
    ensures { IfOk result (λ text. string_bytes text ≡ sending_words sending) }
{
    match sending {
        Sending::Unicast(sid) | Sending::Ranging(sid) => format!(in alloc; "sid {sid} sends"),
        Sending::Polled(sid, n) => format!(in alloc; "sid {sid} is polled, asks for {n}"),
        Sending::Request(sid, n) => format!(in alloc; "sid {sid} asks for {n}"),
    }
}

fn clash_words(clash: bool) -> &'static str
    ensures { result.now ≡ clash_words clash }
{
    if clash { ", a collision" } else { "" }
}

/// What a wedge tells when it is pointed at.
fn wedge_title(alloc: Global, clash: bool, t: &Sent) -> Result<String, AllocError>
    ensures { IfOk result (λ text. string_bytes text ≡ wedge_title clash t.now) }
{
    let words = sending_words(alloc, t.sending)?;
    let (id, slot) = (t.id, t.slot.get());
    let more = clash_words(clash);
    format!(in alloc; "modem {id}: {words}, minislot {slot}{more}")
}

/// The wedge of what was sent in a MAP.
fn add_wedge(
    alloc: Global,
    out: &mut String,
    strip: &Strip,
    t: &Sent,
    clash: bool,
) -> Result<(), AllocError>
    requires start { strip.now.start < 2 ^ 63 }
    requires within { t.now.slot < strip.now.start + strip.now.len }
    requires y { strip.now.y < 2 ^ 62 }
    ensures { OnOk result (string_bytes out.new ≡ string_bytes out.old ++ render (wedge clash strip.now t.now)) }
{
    let title = wedge_title(alloc, clash, t)?;
    let behind = t.slot.get().saturating_sub(strip.start);
    let x = middle(strip.columns.left, strip.len, behind);
    let steps = wedge_steps(alloc, x, strip.y + 11)?;
    add_titled_path(
        alloc,
        out,
        title.as_str(),
        steps.as_str(),
        wedge_class(clash),
    )
}

fn add_wedge_at(
    alloc: Global,
    out: &mut String,
    strip: &Strip,
    sent: &[Sent],
    k: usize,
) -> Result<(), AllocError>
    requires order { IsInOrder sent.now }
    requires start { strip.now.start < 2 ^ 63 }
    requires y { strip.now.y < 2 ^ 62 }
    ensures { OnOk result (string_bytes out.new ≡ string_bytes out.old ++ render (wedge_at sent.now strip.now k)) }
{
    if k >= sent.len() {
        return Ok(());
    }
    let t = &sent[k];
    if !is_in(strip, t) {
        return Ok(());
    }
    add_wedge(alloc, out, strip, t, collides(sent, t))
}

/// A wedge for each transmission in a MAP of a channel. It costs the logarithm of how many transmissions there are, and
/// looks at those in the MAP's minislots, of whatever channel.
pub(crate) fn add_wedges(
    alloc: Global,
    out: &mut String,
    strip: &Strip,
    sent: &[Sent],
) -> Result<(), AllocError>
    requires order { IsInOrder sent.now }
    requires start { strip.now.start < 2 ^ 63 }
    requires y { strip.now.y < 2 ^ 62 }
    ensures { OnOk result (string_bytes out.new ≡ string_bytes out.old ++ render (wedges sent.now strip.now)) }
{
    let first = count_before(sent, strip.start);
    let past = count_before(sent, strip.start + u64::from(strip.len));
    for k in first..past {
        add_wedge_at(alloc, out, strip, sent, k)?;
    }
    Ok(())
}
