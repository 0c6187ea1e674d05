//! The MAP body that tells modems of a filled MAP.

ghost use Rattle.std.specs.Prelude.{◌≡◌, ℕ, ◌+◌, ◌-◌, ◌^◌, ◌<◌, ◌≤◌, ◌==◌, nat_lt, false, if◌then◌else◌, [], ◌∷◌, ◌++◌};
ghost use Rattle.std.specs.Prelude.{map, IsTrue, OnOk};
ghost use Rattle.std.specs.List.{filter_map, range_with_len};
ghost use Rattle.flow_state.specs.Limits.{most_minislots};
ghost use Rattle.std.specs.List.{AllByRecursion};
ghost use Rattle.grant_machine_parts.specs.Placing.{holds, holder, is_free};
ghost use Rattle.grant_machine_parts.specs.Gaps.{AreGaps};
ghost use Rattle.grant_machine_parts.specs.Filling.{AreApart};
ghost use Rattle.grant_machine_parts.specs.Cutting.{still_waiting};
ghost use Rattle.grant_machine_parts.specs.Drawing.{told_sid, placed_element, free_element, null_element};
ghost use Rattle.grant_machine_parts.specs.Drawing.{pending_element, begins_at, head_of};
ghost use Rattle.grant_machine_parts.specs.Lent.{IsUnicast};
ghost use Rattle.grant_machine_parts.specs.Ranks.{requests_in, going_on};
ghost use Rattle.grant_machine_parts.specs.Cutting.{end_of};

use crate::gaps::Gap;
use crate::placing::{Filling, Placement};
use crate::services::grant_iuc;
use crate::waiting::{Grants, Ranked};
use flow_state::Channel;
use map_body::{Element, Head, Iuc, Offset, Sid};
use minislot_time::{Slot, wire};
use std::alloc::AllocError;

/// Does the placement hold the minislot at this offset?
fn holds(x: u16, placement: &Placement) -> bool
    ensures { result ≡ holds x placement.now }
{
    let x = u32::from(x);
    let from = u32::from(placement.offset.get());
    from <= x && x < from + u32::from(placement.size)
}

/// The placement that holds the minislot at this offset.
fn holder(placements: &[Placement], x: u16) -> Option<Placement>
    ensures { result ≡ holder placements.now x }
{
    for placement in placements {
        if holds(x, placement) {
            return Some(*placement);
        }
    }
    None
}

/// The placement that holds the minislot at this offset. A number tells which one to look at first.
fn holder_near(placements: &[Placement], is_apart: bool, number: usize, x: u16) -> Option<Placement>
    requires { IsTrue is_apart → AreApart placements.now }
    ensures { result ≡ holder placements.now x }
{
    if is_apart {
        if let Some(placement) = placements.get(number) {
            if holds(x, placement) {
                return Some(*placement);
            }
        }
    }
    holder(placements, x)
}

/// The SID that a MAP tells of minislots of this use that are given to a SID: initial maintenance is everybody's.
fn told_sid(sid: Sid, iuc: Iuc) -> Sid
    ensures { result ≡ told_sid sid iuc }
{
    if iuc == Iuc::INITIAL_MAINTENANCE {
        Sid::EVERYBODY
    } else {
        sid
    }
}

/// Adds the element of a placement, where it begins at this offset.
fn put_placement(
    elements: &mut Vec<Element>,
    placement: &Placement,
    x: u16,
) -> Result<(), AllocError>
    ensures { OnOk result (elements.new.items ≡ elements.old.items ++ (if placement.now.offset == x then placed_element placement.now ∷ [] else [])) }
{
    if placement.offset.get() == x {
        elements.push(Element {
            sid: told_sid(placement.sid, placement.iuc),
            iuc: placement.iuc,
            offset: placement.offset,
        })?;
    }
    Ok(())
}

/// Adds the element of free minislots, which all modems may use for requests, where there are some.
fn put_gap(elements: &mut Vec<Element>, gap: &Gap) -> Result<(), AllocError>
    requires { gap.now.from < 2 ^ 14 }
    ensures { OnOk result (elements.new.items ≡ elements.old.items ++ (if nat_lt gap.now.from gap.now.to then free_element gap.now.from ∷ [] else [])) }
{
    if gap.from < gap.to {
        elements.push(Element {
            sid: Sid::EVERYBODY,
            iuc: Iuc::REQUEST,
            offset: Offset::new(gap.from).unwrap(),
        })?;
    }
    Ok(())
}

/// The offset behind a placement that holds x, and at most an end. Where a minislot may be in two placements, it is
/// the next one.
fn behind(placement: &Placement, is_apart: bool, x: u16, end: u16) -> u16
    requires more { x < end }
    requires held { IsTrue (holds x placement.now) }
    ensures more { x < result }
    ensures most { result ≤ end }
    ensures inside { (z : ℕ) → x < z → z < result → IsTrue is_apart × (z < placement.now.offset + placement.now.size) }
{
    if is_apart {
        let to = u32::from(placement.offset.get()) + u32::from(placement.size);
        to.min(u32::from(end)) as u16
    } else {
        x + 1
    }
}

/// Adds an element for each placement that begins among held minislots, from an offset on and before another, by
/// offset. So many placements were drawn before, and so many are then: most stand by offset.
fn put_placements(
    elements: &mut Vec<Element>,
    placements: &[Placement],
    is_apart: bool,
    drawn: usize,
    from: u16,
    to: u16,
) -> Result<usize, AllocError>
    requires order { from ≤ to }
    requires held { (x : ℕ) → from ≤ x → x < to → is_free placements.now x ≡ false }
    requires alone { IsTrue is_apart → AreApart placements.now }
    ensures { OnOk result (elements.new.items ≡ elements.old.items ++ filter_map (begins_at placements.now) (range_with_len from (to - from))) }
{
    let mut drawn = drawn;
    let mut x = from;
    while x < to {
        let placement = holder_near(placements, is_apart, drawn, x).unwrap();
        put_placement(elements, &placement, x)?;
        x = behind(&placement, is_apart, x, to);
        drawn = drawn.wrapping_add(1);
    }
    Ok(drawn)
}

/// Adds an element for each placement and each longest free run, by offset.
fn put_intervals(
    elements: &mut Vec<Element>,
    placements: &[Placement],
    gaps: &[Gap],
    is_apart: bool,
    len: u16,
) -> Result<(), AllocError>
    requires short { len ≤ most_minislots }
    requires free { AreGaps (is_free placements.now) 0 len gaps.now }
    requires alone { IsTrue is_apart → AreApart placements.now }
    ensures { OnOk result (elements.new.items ≡ elements.old.items ++ filter_map (begins_at placements.now) (range_with_len 0 len)) }
{
    let mut drawn = 0;
    let mut x = 0;
    for gap in gaps {
        drawn = put_placements(elements, placements, is_apart, drawn, x, gap.from)?;
        put_gap(elements, gap)?;
        x = gap.to;
    }
    put_placements(elements, placements, is_apart, drawn, x, len)?;
    Ok(())
}

/// Adds an element for each request that is not granted and whose lease goes on to the MAP's end.
fn put_pending(
    elements: &mut Vec<Element>,
    channel: &Channel,
    filling: &Filling,
    ranked: &[Ranked],
) -> Result<(), AllocError>
    requires { AllByRecursion IsUnicast ranked.now }
    ensures { OnOk result (elements.new.items
        ≡ elements.old.items ++ map (pending_element channel.now filling.now.span.len)
        (still_waiting filling.now.placements (requests_in (going_on (end_of filling.now.span) ranked.now)))) }
{
    let placements = filling.placements();
    let grants = Grants::of(placements);
    let len = filling.len();
    let end = filling.end();
    for one in ranked {
        if end <= one.last && !grants.have(placements, &one.request) {
            elements.push(Element {
                sid: Sid::new(one.request.sid).unwrap(),
                iuc: grant_iuc(channel, one.request.n),
                offset: Offset::new(len).unwrap(),
            })?;
        }
    }
    Ok(())
}

/// Puts the elements of a filled MAP, over what is there: those by offset, the Null at its length, then
/// those of the requests that still wait and whose leases go on to the MAP's end.
pub fn draw(
    elements: &mut Vec<Element>,
    channel: &Channel,
    filling: &Filling,
    ranked: &[Ranked],
) -> Result<(), AllocError>
    requires { AllByRecursion IsUnicast ranked.now }
    ensures { OnOk result (elements.new.items
        ≡ filter_map (begins_at filling.now.placements) (range_with_len 0 filling.now.span.len)
        ++ null_element filling.now.span.len ∷ map (pending_element channel.now filling.now.span.len)
        (still_waiting filling.now.placements (requests_in (going_on (end_of filling.now.span) ranked.now)))) }
{
    let len = filling.len();
    elements.clear();
    put_intervals(
        elements,
        filling.placements(),
        filling.gaps(),
        filling.is_apart(),
        len,
    )?;
    elements.push(Element {
        sid: Sid::NOBODY,
        iuc: Iuc::NULL,
        offset: Offset::new(len).unwrap(),
    })?;
    put_pending(elements, channel, filling, ranked)?;
    Ok(())
}

/// The head of a channel's MAP.
pub fn head_of(channel: &Channel, start: Slot, ack: Slot) -> Head
    ensures { result ≡ head_of channel.now start ack }
{
    Head {
        channel: channel.id,
        ucd: channel.ucd,
        start: wire(start),
        ack: wire(ack),
        ranging_backoff: channel.ranging_backoff,
        data_backoff: channel.data_backoff,
    }
}
