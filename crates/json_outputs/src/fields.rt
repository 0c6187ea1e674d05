//! Fields of an object.

ghost use Rattle.std.specs.Prelude.{◌≡◌, OnOk};
ghost use Rattle.serde_json.specs.View.{members_view};
ghost use Rattle.json_outputs.specs.Fields.{with_number, with_text, with_time};

use serde_json::{Map, Value, put};
use std::alloc::{AllocError, Global};

/// Puts a number under a key.
pub fn put_number(
    map: &mut Map<String, Value>,
    alloc: Global,
    key: &str,
    number: u64,
) -> Result<(), AllocError>
    ensures { OnOk result (members_view map.new.entries ≡ with_number key.now number (members_view map.old.entries)) }
{
    put(map, alloc, key, Value::from(number))
}

/// Puts a text under a key.
pub fn put_text(
    map: &mut Map<String, Value>,
    alloc: Global,
    key: &str,
    text: &str,
) -> Result<(), AllocError>
    ensures { OnOk result (members_view map.new.entries ≡ with_text key.now text.now (members_view map.old.entries)) }
{
    let text = Value::try_from_str(alloc, text)?;
    put(map, alloc, key, text)
}

/// Puts a time under a key, as a text in decimal.
pub fn put_time(
    map: &mut Map<String, Value>,
    alloc: Global,
    key: &str,
    time: u64,
) -> Result<(), AllocError>
    ensures { OnOk result (members_view map.new.entries ≡ with_time key.now time (members_view map.old.entries)) }
{
    let text = format!(in alloc; "{time}")?;
    put(map, alloc, key, Value::String(text))
}
