ghost use Rattle.std.specs.Prelude.{◌≡◌, IfOk};
ghost use Rattle.map_body.specs.Intervals.{intervals};

use crate::element::Element;
use crate::interval::Interval;
use crate::iuc::Iuc;
use std::alloc::{AllocError, Global};

/// The intervals before the Null.
pub fn intervals_of(alloc: Global, elements: &[Element]) -> Result<Vec<Interval>, AllocError>
    ensures { IfOk result (λ found. found.items ≡ intervals elements.now) }
{
    let mut found = Vec::new(alloc);
    let mut last: Option<Element> = None;
    for element in elements {
        if let Some(e) = last {
            found.push(Interval {
                sid: e.sid,
                iuc: e.iuc,
                from: e.offset,
                to: element.offset,
            })?;
        }
        if element.iuc == Iuc::NULL {
            return Ok(found);
        }
        last = Some(*element);
    }
    Ok(found)
}
