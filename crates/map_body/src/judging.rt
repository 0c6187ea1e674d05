ghost use Rattle.std.specs.Prelude.{◌≡◌, ◌*◌, ◌+◌, ◌∷◌, ◌++◌, [], List, Some, length, IfOk, IfErr, MatchResult};
ghost use Rattle.map_body.specs.declared.element.Element.{Element};
ghost use Rattle.map_body.specs.Body.{Body};
ghost use Rattle.map_body.specs.Intervals.{null_offset};
ghost use Rattle.map_body.specs.Layout.{FirstFault, IsBody};
ghost use Rattle.map_body.specs.Looking.{AreLaid, Saw};
ghost use Rattle.map_body.specs.Rules.{AreElements, FirstElementFault};

use crate::element::Element;
use crate::fault::MapFault;
use crate::head::Head;
use crate::iuc::Iuc;
use crate::offset::Offset;
use crate::reading::{element_of, take_head, take_u32};

/// What a body says apart from its elements: its head, and how many minislots it has.
#[derive(Clone, Copy, Debug, PartialEq, Eq)]
pub struct Outline {
    pub head: Head,
    pub len: Offset,
}

/// What was seen of the elements so far: the first Null's offset, the offset of the last one, the first fault.
#[derive(Clone, Copy)]
pub(crate) struct Seen {
    pub null: Option<Offset>,
    pub last: u16,
    pub fault: Option<MapFault>,
}

// With one element more, the i-th.
fn look(seen: Seen, i: usize, element: Element) -> Seen
    ensures { (es : List Element) → length es ≡ i → Saw es seen → Saw (es ++ element ∷ []) result }
{
    if seen.fault.is_some() {
        return seen;
    }
    if element.iuc == Iuc::EXPANSION {
        let fault = Some(MapFault::Expansion(i));
        return Seen { fault, ..seen };
    }
    let last = element.offset.get();
    if seen.null.is_some() {
        return Seen { last, ..seen };
    }
    if last < seen.last {
        let fault = Some(MapFault::OutOfOrder(i));
        return Seen { fault, ..seen };
    }
    if element.iuc == Iuc::NULL {
        let null = Some(element.offset);
        return Seen { null, last, ..seen };
    }
    Seen { last, ..seen }
}

fn look_at_all(count: u8, bytes: &[u8]) -> Seen
    requires { length bytes.now ≡ 4 * count }
    ensures { (es : List Element) × AreLaid bytes.now count es × Saw es result }
{
    let mut seen = Seen {
        null: None,
        last: 0,
        fault: None,
    };
    let mut rest = bytes;
    for i in 0..count {
        let (word, after) = take_u32(rest);
        seen = look(seen, usize::from(i), element_of(word));
        rest = after;
    }
    seen
}

// The offset of the Null of so many elements, or their first fault.
fn judge_elements(count: u8, bytes: &[u8]) -> Result<Offset, MapFault>
    requires { length bytes.now ≡ 4 * count }
    ensures { (es : List Element) × AreLaid bytes.now count es
        × MatchResult result (λ len. AreElements es × (null_offset es ≡ Some len)) (λ fault. FirstElementFault es fault) }
{
    let seen = look_at_all(count, bytes);
    if let Some(fault) = seen.fault {
        return Err(fault);
    }
    match seen.null {
        Some(len) => Ok(len),
        None => Err(MapFault::NoNull),
    }
}

/// The head and the length of the body that bytes are, or their first fault, in `decode`'s order. It takes no
/// memory, and so never answers OutOfMemory or TooMany.
pub fn judge(bytes: &[u8]) -> Result<Outline, MapFault>
    ensures read { IfOk result (λ outline. (map : Body) × IsBody bytes.now map × (map.head ≡ outline.head) × (null_offset map.elements ≡ Some outline.len)) }
    ensures fault { IfErr result (λ fault. FirstFault bytes.now fault) }
{
    if bytes.len() < 16 {
        return Err(MapFault::Short);
    }
    let (head, count, rest) = take_head(bytes);
    let wanted = 4 * usize::from(count);
    if rest.len() < wanted {
        return Err(MapFault::Short);
    }
    if wanted < rest.len() {
        return Err(MapFault::Trailing);
    }
    let len = judge_elements(count, rest)?;
    Ok(Outline { head, len })
}
