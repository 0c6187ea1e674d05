use crate::iuc::Iuc;
use crate::offset::Offset;
use crate::sid::Sid;

/// An interval of a MAP: the minislots of an element before the Null, from its offset up to the next
/// element's.
#[derive(Clone, Copy, Debug, PartialEq, Eq)]
pub struct Interval {
    pub sid: Sid,
    pub iuc: Iuc,
    pub from: Offset,
    pub to: Offset,
}
