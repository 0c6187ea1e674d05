//! A MAP body as JSON.

ghost use Rattle.std.specs.Prelude.{◌≡◌, IfOk, OnOk, string_bytes};
ghost use Rattle.serde_json.specs.View.{view, members_view};
ghost use Rattle.json_outputs.specs.Elements.{body_data, head_members};
ghost use Rattle.json_outputs.specs.Texts.{IsTextOf};

use crate::elements::elements_value;
use crate::fields::{put_number, put_time};
use crate::texts::text_of;
use map_body::MapBody;
use serde_json::{Map, Value, put};
use std::alloc::{AllocError, Global};

/// The fields of the head.
fn head_map(alloc: Global, body: &MapBody) -> Result<Map<String, Value>, AllocError>
    ensures { IfOk result (λ map. members_view map.entries ≡ head_members body.now) }
{
    let head = *body.head();
    let (ranging_start, ranging_end) = head.ranging_backoff;
    let (data_start, data_end) = head.data_backoff;
    let mut map = Map::new(alloc);
    put_number(&mut map, alloc, "channel", u64::from(head.channel))?;
    put_number(&mut map, alloc, "ucd", u64::from(head.ucd))?;
    put_time(&mut map, alloc, "start", u64::from(head.start))?;
    put_time(&mut map, alloc, "ack", u64::from(head.ack))?;
    put_number(&mut map, alloc, "ranging_start", u64::from(ranging_start))?;
    put_number(&mut map, alloc, "ranging_end", u64::from(ranging_end))?;
    put_number(&mut map, alloc, "data_start", u64::from(data_start))?;
    put_number(&mut map, alloc, "data_end", u64::from(data_end))?;
    Ok(map)
}

fn body_value(alloc: Global, body: &MapBody) -> Result<Value, AllocError>
    ensures { IfOk result (λ value. view value ≡ body_data body.now) }
{
    let mut map = head_map(alloc, body)?;
    let elements = elements_value(alloc, body.elements())?;
    put(&mut map, alloc, "elements", elements)?;
    Ok(Value::Object(map))
}

/// A MAP body, without a line's end.
pub fn body_text(alloc: Global, body: &MapBody) -> Result<String, AllocError>
    ensures { IfOk result (λ text. IsTextOf (body_data body.now) (string_bytes text)) }
{
    let value = body_value(alloc, body)?;
    text_of(alloc, &value)
}
