//! An event as an object.

ghost use Rattle.std.specs.Prelude.{◌≡◌, IfOk, map, string_bytes};
ghost use Rattle.std.specs.List.{AllZip};
ghost use Rattle.serde_json.specs.Data.{object};
ghost use Rattle.serde_json.specs.View.{members_view, view};
ghost use Rattle.json_outputs.specs.Texts.{IsTextOf, IsTextWhere};
ghost use Rattle.json_answers.specs.Events.{TellsRelease, TellsEvent, counts_data};
ghost use Rattle.watched_runs.specs.Shown.{shown};

use crate::answers::put_answer;
use json_outputs::{put_number, put_output, text_of};
use seats::ReleasedOutput;
use serde_json::{Map, Value, put};
use std::alloc::{AllocError, Global};
use watched_runs::Row;

/// An output that a node released.
fn release_value(alloc: Global, released: &ReleasedOutput) -> Result<Value, AllocError>
    ensures { IfOk result (λ value. TellsRelease released.now (view value)) }
{
    let mut map = Map::new(alloc);
    put_number(&mut map, alloc, "node", released.node as u64)?;
    put_number(&mut map, alloc, "place", released.numbered.place)?;
    put_output(&mut map, alloc, &released.numbered.output)?;
    Ok(Value::Object(map))
}

/// Outputs in order.
fn release_values(alloc: Global, released: &[ReleasedOutput]) -> Result<Vec<Value>, AllocError>
    ensures { IfOk result (λ values. AllZip TellsRelease released.now (map view values.items)) }
{
    let mut values = Vec::new(alloc);
    for one in released {
        values.push(release_value(alloc, one)?)?;
    }
    Ok(values)
}

/// The fields of an event: its number, its answer, and the outputs that it released.
pub(crate) fn event_fields(alloc: Global, row: &Row<'_>) -> Result<Map<String, Value>, AllocError>
    ensures { IfOk result (λ map. TellsEvent (shown row.now) (object (members_view map.entries))) }
{
    let values = release_values(alloc, row.released)?;
    let mut map = Map::new(alloc);
    put_number(&mut map, alloc, "event", row.number as u64)?;
    put_answer(&mut map, alloc, row.answer)?;
    put(&mut map, alloc, "outputs", Value::Array(values))?;
    Ok(map)
}

/// An event: its number, its answer, and the outputs that it released. Without a line's end.
pub fn event_text(alloc: Global, row: &Row<'_>) -> Result<String, AllocError>
    ensures { IfOk result (λ text. IsTextWhere (TellsEvent (shown row.now)) (string_bytes text)) }
{
    let value = Value::Object(event_fields(alloc, row)?);
    text_of(alloc, &value)
}

fn counts_value(
    alloc: Global,
    letters: usize,
    outputs: usize,
    transmissions: usize,
) -> Result<Value, AllocError>
    ensures { IfOk result (λ value. view value ≡ counts_data letters outputs transmissions) }
{
    let mut map = Map::new(alloc);
    put_number(&mut map, alloc, "letters", letters as u64)?;
    put_number(&mut map, alloc, "outputs", outputs as u64)?;
    put_number(&mut map, alloc, "transmissions", transmissions as u64)?;
    Ok(Value::Object(map))
}

/// How many letters, outputs and transmissions there were. Without a line's end.
pub fn counts_text(
    alloc: Global,
    letters: usize,
    outputs: usize,
    transmissions: usize,
) -> Result<String, AllocError>
    ensures { IfOk result (λ text. IsTextOf (counts_data letters outputs transmissions) (string_bytes text)) }
{
    let value = counts_value(alloc, letters, outputs, transmissions)?;
    text_of(alloc, &value)
}
