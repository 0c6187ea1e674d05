//! The structs of the codec that C shares.

ghost use Rattle.std.specs.Prelude.{◌≡◌, ◌↔◌, IsTrue};
ghost use Rattle.map_body.specs.Rules.{FitsElement};
ghost use Rattle.upsched_c.specs.Structs.{element_value, head_value};

use map_body::{Element, Head, Iuc, Offset, Sid};

/// The head of a MAP body.
#[repr(C)]
#[derive(Clone, Copy)]
pub struct MapHead {
    pub start: u32,
    pub ack: u32,
    pub channel: u8,
    pub ucd: u8,
    pub ranging_start: u8,
    pub ranging_end: u8,
    pub data_start: u8,
    pub data_end: u8,
}

/// An element of a MAP body.
#[repr(C)]
#[derive(Clone, Copy)]
pub struct MapElement {
    pub sid: u16,
    pub offset: u16,
    pub iuc: u8,
}

/// Whose a minislot is, and for what.
#[repr(C)]
#[derive(Clone, Copy)]
pub struct MapCell {
    pub sid: u16,
    pub iuc: u8,
}

/// A head's fields.
pub fn head_out(head: &Head) -> MapHead
    ensures { head_value result ≡ head.now }
{
    let (ranging_start, ranging_end) = head.ranging_backoff;
    let (data_start, data_end) = head.data_backoff;
    MapHead {
        start: head.start,
        ack: head.ack,
        channel: head.channel,
        ucd: head.ucd,
        ranging_start,
        ranging_end,
        data_start,
        data_end,
    }
}

/// The head of these fields.
pub fn head_in(head: &MapHead) -> Head
    ensures { result ≡ head_value head.now }
{
    Head {
        channel: head.channel,
        ucd: head.ucd,
        start: head.start,
        ack: head.ack,
        ranging_backoff: (head.ranging_start, head.ranging_end),
        data_backoff: (head.data_start, head.data_end),
    }
}

/// An element's fields.
pub fn element_out(element: Element) -> MapElement
    ensures { element_value result ≡ element }
{
    MapElement {
        sid: element.sid.get(),
        offset: element.offset.get(),
        iuc: element.iuc.get(),
    }
}

/// Does each field fit its bits?
pub fn fits(element: &MapElement) -> bool
    ensures { IsTrue result ↔ FitsElement (element_value element.now) }
{
    element.sid < 1 << 14 && element.iuc < 1 << 4 && element.offset < 1 << 14
}

/// The element of these fields.
pub fn element_in(element: &MapElement) -> Element
    requires { FitsElement (element_value element.now) }
    ensures { result ≡ element_value element.now }
{
    Element {
        sid: Sid::new(element.sid).unwrap(),
        iuc: Iuc::new(element.iuc).unwrap(),
        offset: Offset::new(element.offset).unwrap(),
    }
}
