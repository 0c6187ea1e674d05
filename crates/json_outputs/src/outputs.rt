//! An output as JSON.

ghost use Rattle.std.specs.Prelude.{◌≡◌, ◌≢◌, IfOk, OnOk, string_bytes};
ghost use Rattle.map_body.specs.declared.fault.MapFault.TheVariants.{OutOfMemory};
ghost use Rattle.serde_json.specs.Data.{null};
ghost use Rattle.serde_json.specs.View.{view, members_view};
ghost use Rattle.json_outputs.specs.Outputs.{TellsBody, TellsElements, TellsOutput, TellsCommand};
ghost use Rattle.json_outputs.specs.Outputs.{with_bytes, with_span};
ghost use Rattle.json_outputs.specs.Texts.{IsTextWhere};

use crate::elements::elements_value;
use crate::fields::{put_number, put_text, put_time};
use crate::names::refusal_name;
use crate::texts::text_of;
use grant_machine::Output;
use map_body::{MapFault, decode};
use minislot_time::Slot;
use serde_json::{Map, Value, put};
use std::alloc::{AllocError, Global};

/// Null for bytes that are no body, unless memory was wanted to read them.
fn no_elements(fault: MapFault) -> Result<Value, AllocError>
    ensures { IfOk result (λ value. (fault ≢ OutOfMemory) × (view value ≡ null)) }
{
    match fault {
        MapFault::OutOfMemory => Err(AllocError),
        _ => Ok(Value::Null),
    }
}

/// The elements of a MAP's bytes, null where they are no body.
fn elements_of(alloc: Global, bytes: &[u8]) -> Result<Value, AllocError>
    ensures { IfOk result (λ value. TellsElements bytes.now (view value)) }
{
    match decode(alloc, bytes) {
        Ok(body) => elements_value(alloc, body.elements()),
        Err(fault) => no_elements(fault),
    }
}

/// Puts the channel and the minislots of a MAP among other fields.
fn put_span(
    map: &mut Map<String, Value>,
    alloc: Global,
    ch: u8,
    start: Slot,
    len: u16,
) -> Result<(), AllocError>
    ensures { OnOk result (members_view map.new.entries ≡ with_span ch start len (members_view map.old.entries)) }
{
    put_text(map, alloc, "output", "map")?;
    put_number(map, alloc, "channel", u64::from(ch))?;
    put_time(map, alloc, "start", start.get())?;
    put_number(map, alloc, "len", u64::from(len))
}

/// Puts the bytes of a MAP among other fields.
fn put_bytes(map: &mut Map<String, Value>, alloc: Global, bytes: &[u8]) -> Result<(), AllocError>
    ensures { OnOk result (members_view map.new.entries ≡ with_bytes bytes.now (members_view map.old.entries)) }
{
    let hex = hex::encode(alloc, bytes)?;
    put_text(map, alloc, "bytes", hex.as_str())
}

/// Puts the bytes of a MAP and its elements among other fields.
fn put_body(map: &mut Map<String, Value>, alloc: Global, bytes: &[u8]) -> Result<(), AllocError>
    ensures { OnOk result (TellsBody bytes.now (members_view map.old.entries) (members_view map.new.entries)) }
{
    put_bytes(map, alloc, bytes)?;
    let elements = elements_of(alloc, bytes)?;
    put(map, alloc, "elements", elements)
}

/// Puts the fields of an output among others.
pub fn put_output(
    map: &mut Map<String, Value>,
    alloc: Global,
    output: &Output,
) -> Result<(), AllocError>
    ensures { OnOk result (TellsOutput output.now (members_view map.old.entries) (members_view map.new.entries)) }
{
    match output {
        Output::Nothing => put_text(map, alloc, "output", "nothing"),
        Output::ChannelSet { ch, ucd } => {
            put_text(map, alloc, "output", "channel")?;
            put_number(map, alloc, "channel", u64::from(*ch))?;
            put_number(map, alloc, "ucd", u64::from(*ucd))
        }
        Output::Assigned {
            modem,
            ch,
            sid,
            first,
            last,
        } => {
            put_text(map, alloc, "output", "assigned")?;
            put_number(map, alloc, "modem", u64::from(*modem))?;
            put_number(map, alloc, "channel", u64::from(*ch))?;
            put_number(map, alloc, "sid", u64::from(*sid))?;
            put_time(map, alloc, "first", *first)?;
            put_time(map, alloc, "last", *last)
        }
        Output::Map {
            ch,
            start,
            len,
            bytes,
        } => {
            put_span(map, alloc, *ch, *start, *len)?;
            put_body(map, alloc, bytes.as_slice())
        }
        Output::Refused(number) => {
            put_text(map, alloc, "output", "refused")?;
            put_number(map, alloc, "refusal", u64::from(*number))?;
            put_text(map, alloc, "name", refusal_name(*number))
        }
    }
}

/// The output of the command of this number, without a line's end.
pub fn command_text(alloc: Global, number: usize, output: &Output) -> Result<String, AllocError>
    ensures { IfOk result (λ text. IsTextWhere (TellsCommand number output.now) (string_bytes text)) }
{
    let mut map = Map::new(alloc);
    put_number(&mut map, alloc, "command", number as u64)?;
    put_output(&mut map, alloc, output)?;
    let value = Value::Object(map);
    text_of(alloc, &value)
}
