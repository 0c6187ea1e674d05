//! MAP bodies, read and written (CM-SP-MULPIv3.1, MAP message, version 1).

ghost use Rattle.std.specs.Prelude.{◌≡◌, ◌≤◌, ◌++◌, length, map, drop, IfOk, IfSome, IfNone, MatchOption};
ghost use Rattle.map_body.specs.Body.{Body};
ghost use Rattle.map_body.specs.Layout.{FitsHead, IsBody};
ghost use Rattle.map_body.specs.Rules.{AreElements, FirstElementFault, MakingFault};
ghost use Rattle.upsched_c.specs.Codec.{AllFit, Decodes, Encodes, IsFirstUnfit, LacksMemory, LooksUp, read, written};
ghost use Rattle.upsched_c.specs.Statuses.{Answers};
ghost use Rattle.upsched_c.specs.Structs.{element_value};

use crate::status::{Status, place_of};
use crate::structs::{
    MapCell, MapElement, MapHead, element_in, element_out, fits, head_in, head_out,
};
use map_body::{Element, Head, Iuc, MapFault, cell_at, decode, lay_out};
use std::alloc::{AllocError, Global};
use upsched_c_parts::put_front;

fn put_elements(found: &[Element], elements: &mut [MapElement])
    requires { length found.now ≤ length elements.old }
    ensures { map element_value elements.new ≡ found.now ++ drop (length found.now) (map element_value elements.old) }
{
    for i in 0..found.len() {
        elements[i] = element_out(found[i]);
    }
}

/// The status where no memory was found for a body: whether there is room comes first.
fn without_memory(bytes: &[u8], room: usize, count: &mut usize) -> Status
    ensures { (body : Body) → IsBody bytes.now body → LacksMemory (length body.elements) room count.old count.new result }
{
    let wanted = bytes.len().saturating_sub(16) / 4;
    if room < wanted {
        *count = wanted;
        return Status::NoRoom;
    }
    Status::OutOfMemory
}

fn read_body(
    alloc: Global,
    bytes: &[u8],
    head: &mut MapHead,
    elements: &mut [MapElement],
    count: &mut usize,
) -> Status
    ensures { Decodes bytes.now (read head.old elements.old count.old) (read head.new elements.new count.new) result }
{
    let body = match decode(alloc, bytes) {
        Ok(body) => body,
        Err(MapFault::OutOfMemory) => return without_memory(bytes, elements.len(), count),
        Err(fault) => {
            *count = place_of(fault);
            return Status::Map(fault);
        }
    };
    let found = body.elements();
    *count = found.len();
    if elements.len() < found.len() {
        return Status::NoRoom;
    }
    *head = head_out(body.head());
    put_elements(found, elements);
    Status::Done
}

/// Reads a body: its head, its elements into the front of the room for them, and their number. There is no room exactly
/// where the bytes are a body of more elements.
#[unsafe(no_mangle)]
pub extern "C" fn upsched_c_map_decode(
    alloc: Global,
    bytes: &[u8],
    head: &mut MapHead,
    elements: &mut [MapElement],
    count: &mut usize,
) -> i32
    ensures { Answers result (Decodes bytes.now (read head.old elements.old count.old) (read head.new elements.new count.new)) }
{
    read_body(alloc, bytes, head, elements, count).number()
}

/// The first element of which a field doesn't fit its bits.
fn first_unfit(elements: &[MapElement]) -> Option<usize>
    ensures some { IfSome result (IsFirstUnfit elements.now) }
    ensures none { IfNone result (AllFit elements.now) }
{
    for (i, element) in elements.iter().enumerate() {
        if !fits(element) {
            return Some(i);
        }
    }
    None
}

fn elements_in(alloc: Global, elements: &[MapElement]) -> Result<Vec<Element>, AllocError>
    requires { AllFit elements.now }
    ensures { IfOk result (λ made. made.items ≡ map element_value elements.now) }
{
    let mut made = Vec::with_capacity(alloc, elements.len())?;
    for element in elements {
        made.push(element_in(element))?;
    }
    Ok(made)
}

/// The first thing that is wrong with elements, from left to right.
fn first_fault(elements: &[MapElement]) -> Option<MapFault>
    ensures { MatchOption result (AreElements (map element_value elements.now)) (FirstElementFault (map element_value elements.now)) }
{
    let mut null_seen = false;
    let mut last = 0;
    for (i, element) in elements.iter().enumerate() {
        if element.iuc == Iuc::EXPANSION.get() {
            return Some(MapFault::Expansion(i));
        }
        if !null_seen && element.offset < last {
            return Some(MapFault::OutOfOrder(i));
        }
        if element.iuc == Iuc::NULL.get() {
            null_seen = true;
        }
        last = element.offset;
    }
    if null_seen {
        None
    } else {
        Some(MapFault::NoNull)
    }
}

/// Why elements make no body.
fn making_fault(elements: &[MapElement]) -> Option<MapFault>
    ensures fault { IfSome result (MakingFault (map element_value elements.now)) }
    ensures few { IfNone result (length elements.now ≤ 255) }
    ensures none { IfNone result (AreElements (map element_value elements.now)) }
{
    if elements.len() > 255 {
        return Some(MapFault::TooMany);
    }
    first_fault(elements)
}

// A head fits the types of its fields.
fn head_fits(head: Head)
    ensures { FitsHead head }
{
    let _ = head;
}

fn write_body(
    alloc: Global,
    head: &MapHead,
    elements: &[MapElement],
    out: &mut [u8],
    count: &mut usize,
) -> Status
    ensures { Encodes head.now elements.now (written out.old count.old) (written out.new count.new) result }
{
    if let Some(i) = first_unfit(elements) {
        *count = i;
        return Status::BadField;
    }
    if let Some(fault) = making_fault(elements) {
        *count = place_of(fault);
        return Status::Map(fault);
    }
    let head = head_in(head);
    head_fits(head);
    let wanted = 16 + 4 * elements.len();
    if out.len() < wanted {
        *count = wanted;
        return Status::NoRoom;
    }
    let Ok(made) = elements_in(alloc, elements) else {
        return Status::OutOfMemory;
    };
    let Ok(bytes) = lay_out(alloc, &head, &made) else {
        return Status::OutOfMemory;
    };
    *count = bytes.len();
    put_front(&bytes, out);
    Status::Done
}

/// Writes the body of a head and elements into the front of the room for it, and the number of its bytes. There is no
/// room exactly where they make a body of more bytes.
#[unsafe(no_mangle)]
pub extern "C" fn upsched_c_map_encode(
    alloc: Global,
    head: &MapHead,
    elements: &[MapElement],
    out: &mut [u8],
    count: &mut usize,
) -> i32
    ensures { Answers result (Encodes head.now elements.now (written out.old count.old) (written out.new count.new)) }
{
    write_body(alloc, head, elements, out, count).number()
}

fn look_up(alloc: Global, bytes: &[u8], minislot: u16, cell: &mut MapCell) -> Status
    ensures { LooksUp bytes.now minislot cell.old cell.new result }
{
    let body = match decode(alloc, bytes) {
        Ok(body) => body,
        Err(MapFault::OutOfMemory) => return Status::OutOfMemory,
        Err(fault) => return Status::Map(fault),
    };
    let Some((sid, iuc)) = cell_at(&body, minislot) else {
        return Status::Absent;
    };
    *cell = MapCell {
        sid: sid.get(),
        iuc: iuc.get(),
    };
    Status::Done
}

/// Whose a minislot of a body is, counted from its start, and for what.
#[unsafe(no_mangle)]
pub extern "C" fn upsched_c_map_cell_at(
    alloc: Global,
    bytes: &[u8],
    minislot: u16,
    cell: &mut MapCell,
) -> i32
    ensures { Answers result (LooksUp bytes.now minislot cell.old cell.new) }
{
    look_up(alloc, bytes, minislot, cell).number()
}
