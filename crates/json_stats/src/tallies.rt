//! Tallies as objects, each without its line's end.

ghost use Rattle.std.specs.Prelude.{◌≡◌, IfOk, OnOk, string_bytes};
ghost use Rattle.serde_json.specs.View.{view, members_view};
ghost use Rattle.json_outputs.specs.Texts.{IsTextOf};
ghost use Rattle.json_stats.specs.Tallies.{map_data, use_data, sid_data, with_first};

use json_outputs::{put_number, put_text, put_time, text_of};
use map_stats::Tally;
use serde_json::{Map, Value};
use std::alloc::{AllocError, Global};

fn map_value(alloc: Global, key: u32, tally: &Tally) -> Result<Value, AllocError>
    ensures { IfOk result (λ value. view value ≡ map_data key tally.now) }
{
    let mut map = Map::new(alloc);
    put_text(&mut map, alloc, "row", "channel")?;
    put_number(&mut map, alloc, "channel", u64::from(key))?;
    put_number(&mut map, alloc, "maps", tally.count)?;
    put_number(&mut map, alloc, "minislots", tally.minislots)?;
    Ok(Value::Object(map))
}

/// The MAPs of the channel that this key is.
pub fn map_text(alloc: Global, key: u32, tally: &Tally) -> Result<String, AllocError>
    ensures { IfOk result (λ text. IsTextOf (map_data key tally.now) (string_bytes text)) }
{
    let value = map_value(alloc, key, tally)?;
    text_of(alloc, &value)
}

fn use_value(alloc: Global, key: u32, tally: &Tally, whole: u64) -> Result<Value, AllocError>
    ensures { IfOk result (λ value. view value ≡ use_data key tally.now whole) }
{
    let mut map = Map::new(alloc);
    put_text(&mut map, alloc, "row", "use")?;
    put_number(&mut map, alloc, "channel", u64::from(key / 16))?;
    put_number(&mut map, alloc, "iuc", u64::from(key % 16))?;
    put_number(&mut map, alloc, "intervals", tally.count)?;
    put_number(&mut map, alloc, "minislots", tally.minislots)?;
    put_number(&mut map, alloc, "of", whole)?;
    Ok(Value::Object(map))
}

/// The intervals of the channel and use of this key, where all MAPs of the channel have so many minislots.
pub fn use_text(alloc: Global, key: u32, tally: &Tally, whole: u64) -> Result<String, AllocError>
    ensures { IfOk result (λ text. IsTextOf (use_data key tally.now whole) (string_bytes text)) }
{
    let value = use_value(alloc, key, tally, whole)?;
    text_of(alloc, &value)
}

/// Puts which lease of a SID it is, where it isn't the first one.
pub(crate) fn put_first(
    map: &mut Map<String, Value>,
    alloc: Global,
    since: u64,
) -> Result<(), AllocError>
    ensures { OnOk result (members_view map.new.entries ≡ with_first since (members_view map.old.entries)) }
{
    if since == 0 {
        return Ok(());
    }
    put_time(map, alloc, "first", since)
}

fn sid_value(alloc: Global, key: u128, tally: &Tally) -> Result<Value, AllocError>
    ensures { IfOk result (λ value. view value ≡ sid_data key tally.now) }
{
    let mut map = Map::new(alloc);
    put_text(&mut map, alloc, "row", "sid")?;
    put_number(&mut map, alloc, "channel", (key / (1 << 82)) as u64)?;
    put_number(&mut map, alloc, "sid", (key / (1 << 68) % (1 << 14)) as u64)?;
    put_first(&mut map, alloc, (key / (1 << 4) % (1 << 64)) as u64)?;
    put_number(&mut map, alloc, "iuc", (key % 16) as u64)?;
    put_number(&mut map, alloc, "grants", tally.count)?;
    put_number(&mut map, alloc, "minislots", tally.minislots)?;
    Ok(Value::Object(map))
}

/// The intervals of the channel, SID, lease and use of this key.
pub fn sid_text(alloc: Global, key: u128, tally: &Tally) -> Result<String, AllocError>
    ensures { IfOk result (λ text. IsTextOf (sid_data key tally.now) (string_bytes text)) }
{
    let value = sid_value(alloc, key, tally)?;
    text_of(alloc, &value)
}
