//! A MAP as it is heard near a time: its Alloc Start Time and Ack Time (CM-SP-MULPIv3.1, MAP message) are extended from
//! 32 bits to 64-bit minislots.

ghost use Rattle.std.specs.Prelude.{◌≡◌, ℕ, ◌+◌, ◌<◌, ◌≤◌, ◌^◌, IfSome, IfNone};
ghost use Rattle.minislot_time.specs.Wire.{IsNear};
ghost use Rattle.map_body.specs.Body.{Body};
ghost use Rattle.map_body.specs.Heard.{IsExtent, Reads, IsAckTime};

use crate::body::MapBody;
use crate::head::Head;
use crate::judging::{Outline, judge};
use minislot_time::{Slot, extend};

/// A map as it is heard near a time: its head, the 64-bit minislot at which it starts, and the first one behind it, which
/// is below 2^63.
#[derive(Clone, Copy)]
pub struct HeardMap {
    pub head: Head,
    pub start: Slot,
    pub stop: u64,
}

fn extended(outline: Outline, near: Slot) -> Option<HeardMap>
    ensures found { IfSome result (λ heard. (heard.head ≡ outline.head) × IsNear outline.head.start near heard.start
        × (heard.stop ≡ heard.start + outline.len) × (heard.stop < 2 ^ 63)) }
    ensures none { IfNone result ((start : ℕ) → IsNear outline.head.start near start → 2 ^ 63 ≤ start + outline.len) }
{
    let Outline { head, len } = outline;
    let start = extend(head.start, near)?;
    let stop = start.get() + u64::from(len.get());
    if stop < 0x8000_0000_0000_0000 {
        Some(HeardMap { head, start, stop })
    } else {
        None
    }
}

/// The map that bytes are, heard near a time. None where they are no body, or no time near that one has its start's low
/// 32 bits, or it would end at 2^63 or later. It takes no memory.
pub fn heard_near(bytes: &[u8], near: Slot) -> Option<HeardMap>
    ensures found { IfSome result (λ heard. (map : Body) × Reads bytes.now near map heard.start heard.stop × (map.head ≡ heard.head)) }
    ensures none { IfNone result ((map : Body) (start stop : ℕ) → ¬ Reads bytes.now near map start stop) }
{
    match judge(bytes) {
        Ok(outline) => extended(outline, near),
        Err(_) => None,
    }
}

/// The same of a map that was read.
pub fn body_near(map: &MapBody, near: Slot) -> Option<HeardMap>
    ensures found { IfSome result (λ heard. IsExtent near map.now heard.start heard.stop × (heard.head ≡ map.now.head)) }
    ensures none { IfNone result ((start stop : ℕ) → ¬ IsExtent near map.now start stop) }
{
    let head = *map.head();
    let len = map.len();
    extended(Outline { head, len }, near)
}

/// The time up to which a map that starts there acknowledges requests: that near its start whose low 32 bits are its Ack
/// time's. None where there is no such time.
pub fn ack_time(wire: u32, start: Slot) -> Option<u64>
    ensures { IsAckTime wire start result }
{
    match extend(wire, start) {
        Some(ack) => Some(ack.get()),
        None => None,
    }
}
