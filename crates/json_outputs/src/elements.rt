//! The elements of a MAP as JSON.

ghost use Rattle.std.specs.Prelude.{◌≡◌, IfOk};
ghost use Rattle.serde_json.specs.View.{view};
ghost use Rattle.json_outputs.specs.Elements.{element_data, elements_data, gap};

use crate::fields::{put_number, put_text};
use map_body::{Element, Iuc};
use serde_json::{Map, Value};
use std::alloc::{AllocError, Global};

/// The minislots from an element to the next one.
fn gap(element: &Element, behind: &[Element]) -> u16
    ensures { result ≡ gap element.now behind.now }
{
    match behind {
        [next, ..] => next.offset.get().saturating_sub(element.offset.get()),
        [] => 0,
    }
}

/// An element that has so many minislots.
fn element_value(alloc: Global, element: &Element, minislots: u16) -> Result<Value, AllocError>
    ensures { IfOk result (λ value. view value ≡ element_data element.now minislots) }
{
    let iuc = element.iuc.get();
    let mut map = Map::new(alloc);
    put_number(&mut map, alloc, "offset", u64::from(element.offset.get()))?;
    put_number(&mut map, alloc, "minislots", u64::from(minislots))?;
    put_number(&mut map, alloc, "sid", u64::from(element.sid.get()))?;
    put_number(&mut map, alloc, "iuc", u64::from(iuc))?;
    put_text(&mut map, alloc, "name", element.iuc.name())?;
    Ok(Value::Object(map))
}

/// Elements in order. From the Null on they have no minislots.
pub(crate) fn elements_value(alloc: Global, elements: &[Element]) -> Result<Value, AllocError>
    ensures { IfOk result (λ value. view value ≡ elements_data elements.now) }
{
    let mut list = Vec::new(alloc);
    let mut behind = false;
    for (i, element) in elements.iter().enumerate() {
        behind = behind || element.iuc == Iuc::NULL;
        let minislots = if behind {
            0
        } else {
            gap(element, &elements[i + 1..])
        };
        list.push(element_value(alloc, element, minislots)?)?;
    }
    Ok(Value::Array(list))
}
